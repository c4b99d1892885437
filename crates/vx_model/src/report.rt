//! How runs end.
ghost use Rattle.std.specs.Prelude.{◌≡◌, IfOk};

use sqlite_items::Items;
use std::alloc::{AllocError, Global};
use vx_names::{Name, Selector};

/// Why a run stopped before its end.
#[derive(Drop)]
pub enum RunError {
    /// No method of the selector is applicable.
    NotUnderstood(Selector),
    /// None of the applicable methods is more specific than all others.
    Ambiguous(Selector),
    /// A number would not fit 128 bits with a sign.
    Overflow,
    DivideByZero,
    /// A closure returned from an activation that has ended.
    DeadReturn,
    /// A constructor names a field that the class has not, or a field is read or set of a value that is no object.
    NoField(Name),
    /// A body names no value.
    UnknownObject(Name),
    /// A closure was given so many arguments, and has another number of formals.
    ClosureArity(u8),
    /// A string would have more than 65,536 bytes.
    StringLimit,
}

/// How a run ended, and the lines that it printed before, each as its bytes.
#[derive(Drop)]
pub enum Report {
    End(Items<Items<u8>>),
    Error(Items<Items<u8>>, RunError),
    /// The allowance was used up.
    Unfinished(Items<Items<u8>>),
    /// The state had no next step, which no run of a program comes to.
    Stuck(Items<Items<u8>>),
}

impl RunError {
    pub fn copy(&self, alloc: Global) -> Result<RunError, AllocError>
        ensures { IfOk result (λ error. error ≡ self.now) }
    {
        match self {
            RunError::NotUnderstood(selector) => Ok(RunError::NotUnderstood(selector.copy(alloc)?)),
            RunError::Ambiguous(selector) => Ok(RunError::Ambiguous(selector.copy(alloc)?)),
            RunError::Overflow => Ok(RunError::Overflow),
            RunError::DivideByZero => Ok(RunError::DivideByZero),
            RunError::DeadReturn => Ok(RunError::DeadReturn),
            RunError::NoField(name) => Ok(RunError::NoField(name.copy(alloc)?)),
            RunError::UnknownObject(name) => Ok(RunError::UnknownObject(name.copy(alloc)?)),
            RunError::ClosureArity(count) => Ok(RunError::ClosureArity(*count)),
            RunError::StringLimit => Ok(RunError::StringLimit),
        }
    }
}

impl Report {
    pub fn copy(&self, alloc: Global) -> Result<Report, AllocError>
        ensures { IfOk result (λ report. report ≡ self.now) }
    {
        match self {
            Report::End(lines) => Ok(Report::End(copy_lines(alloc, lines.as_slice())?)),
            Report::Error(lines, error) => {
                let lines = copy_lines(alloc, lines.as_slice())?;
                Ok(Report::Error(lines, error.copy(alloc)?))
            }
            Report::Unfinished(lines) => {
                Ok(Report::Unfinished(copy_lines(alloc, lines.as_slice())?))
            }
            Report::Stuck(lines) => Ok(Report::Stuck(copy_lines(alloc, lines.as_slice())?)),
        }
    }
}

/// The lines, each copied.
pub fn copy_lines(alloc: Global, lines: &[Items<u8>]) -> Result<Items<Items<u8>>, AllocError>
    ensures { IfOk result (λ copies. copies ≡ lines.now) }
{
    let mut copies = Items::new(alloc);
    for line in lines {
        copies.push(Items::from_slice(alloc, line.as_slice())?)?;
    }
    Ok(copies)
}
