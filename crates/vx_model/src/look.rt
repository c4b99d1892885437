//! What a lookup answers.
ghost use Rattle.std.specs.Prelude.{◌≡◌, IfOk};

use std::alloc::{AllocError, Global};
use vx_names::MethodKey;

/// What a message finds.
#[derive(Debug, Drop)]
pub enum Look {
    /// The one applicable method that is more specific than all others.
    One(MethodKey),
    /// No method is applicable.
    None,
    /// Some methods are applicable, and none of them is more specific than all others.
    Many,
}

impl Look {
    pub fn copy(&self, alloc: Global) -> Result<Look, AllocError>
        ensures { IfOk result (λ look. look ≡ self.now) }
    {
        match self {
            Look::One(key) => Ok(Look::One(key.copy(alloc)?)),
            Look::None => Ok(Look::None),
            Look::Many => Ok(Look::Many),
        }
    }
}
