//! Why bytes could not be loaded.
ghost use Rattle.std.specs.Prelude.{◌≡◌};
ghost use Rattle.vx_image.specs.declared.fault.LoadFault.TheVariants.{OutOfMemory};

use std::alloc::{AllocError, AllocFailed};
use thiserror::Error;

/// Why bytes could not be loaded: the first fault from left to right, or want of memory. A place counts bytes from 0 at the beginning.
#[derive(Clone, Copy, Debug, PartialEq, Eq, Error)]
pub enum LoadFault {
    /// The bytes end where more are wanted. The number is how many bytes were given.
    #[error("the image ends after {0} bytes, where more are wanted")]
    Short(u64),
    /// The first four bytes are there, and do not spell `VXIC`.
    #[error("no image: the bytes do not begin with VXIC")]
    BadMagic,
    /// The byte of the version is this one, which stands for none.
    #[error("images of version {0} are not known")]
    Version(u8),
    /// The number, tag or operation that begins at the place is out of range, or breaks a condition that images keep, or the
    /// instruction that begins there goes beyond the end of its block.
    #[error("what begins at byte {0} is out of range")]
    BadIndex(u64),
    /// An image ends at the place, and more bytes follow.
    #[error("the image ends at byte {0}, and more bytes follow")]
    Trailing(u64),
    /// There was no memory for what was read. Nothing is said of the bytes.
    #[error("out of memory")]
    OutOfMemory,
}

impl From<AllocError> for LoadFault {
    ghost from_gives = { λ _ e. e ≡ OutOfMemory };

    fn from(_: AllocError) -> LoadFault {
        LoadFault::OutOfMemory
    }
}

impl<T: Drop> From<AllocFailed<T>> for LoadFault {
    ghost from_gives = { λ _ e. e ≡ OutOfMemory };

    fn from(_: AllocFailed<T>) -> LoadFault {
        LoadFault::OutOfMemory
    }
}
