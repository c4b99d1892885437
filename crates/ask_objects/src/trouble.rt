use std::alloc::{AllocError, AllocFailed};
use std::io;
use vx_program::EditFault;
use vx_reader::ReadFault;

/// Why no answer comes.
#[derive(Debug, Drop)]
pub enum Trouble {
    OutOfMemory,
    /// A question or a program that means nothing.
    Unclear,
    NoInput,
}

impl From<AllocError> for Trouble {
    fn from(_: AllocError) -> Trouble {
        Trouble::OutOfMemory
    }
}

impl<T: Drop> From<AllocFailed<T>> for Trouble {
    fn from(_: AllocFailed<T>) -> Trouble {
        Trouble::OutOfMemory
    }
}

impl From<io::Error> for Trouble {
    fn from(_: io::Error) -> Trouble {
        Trouble::NoInput
    }
}

impl From<ReadFault> for Trouble {
    fn from(_: ReadFault) -> Trouble {
        Trouble::Unclear
    }
}

impl From<EditFault> for Trouble {
    fn from(_: EditFault) -> Trouble {
        Trouble::Unclear
    }
}

/// The value, if there is one.
pub fn clear<T, E: Drop>(outcome: Result<T, E>) -> Result<T, Trouble> {
    match outcome {
        Ok(value) => Ok(value),
        Err(_) => Err(Trouble::Unclear),
    }
}
