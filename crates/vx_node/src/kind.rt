//! What a method is made by.
ghost use Rattle.std.specs.Prelude.{◌≡◌, IfOk};

use std::alloc::{AllocError, Global};
use vx_names::FieldKey;

/// What a method is made by, which decides what it does.
#[derive(Debug, Drop)]
pub enum Kind {
    /// A method that is declared, with a body.
    Source,
    /// The primitive of this number.
    Prim(u8),
    /// It reads the field.
    Get(FieldKey),
    /// It sets the field.
    Set(FieldKey),
}

impl Kind {
    pub fn copy(&self, alloc: Global) -> Result<Kind, AllocError>
        ensures { IfOk result (λ kind. kind ≡ self.now) }
    {
        match self {
            Kind::Source => Ok(Kind::Source),
            Kind::Prim(number) => Ok(Kind::Prim(*number)),
            Kind::Get(field) => Ok(Kind::Get(field.copy(alloc)?)),
            Kind::Set(field) => Ok(Kind::Set(field.copy(alloc)?)),
        }
    }
}
