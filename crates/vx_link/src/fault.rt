//! Why units could not be linked.
ghost use Rattle.std.specs.Prelude.{◌≡◌};
ghost use Rattle.vx_link.specs.declared.fault.LinkFault.TheVariants.{OutOfMemory};

use std::alloc::AllocError;
use thiserror::Error;

/// Why units could not be linked.
#[derive(Clone, Copy, Debug, PartialEq, Eq, Error)]
pub enum LinkFault {
    /// The image would have 2^32 bytes or more. With the unit at this place, counted from 0 in the order of the image, it reaches them.
    #[error("the image reaches 2^32 bytes with unit {0}")]
    TooLong(u64),
    /// There was no memory. Nothing is said of the image.
    #[error("out of memory")]
    OutOfMemory,
}

impl From<AllocError> for LinkFault {
    ghost from_gives = { λ _ e. e ≡ OutOfMemory };

    fn from(_: AllocError) -> LinkFault {
        LinkFault::OutOfMemory
    }
}
