ghost use Rattle.std.specs.Prelude.{◌≡◌};
ghost use Rattle.vx_reader.specs.declared.command.ReadFault.TheVariants.{OutOfMemory};

use std::alloc::AllocError;
use vx_program::Edit;

/// The most instructions that a `run` may ask for.
pub const MOST_RUN: u32 = 100_000_000;

/// The greatest allowance that a `mean` may ask for.
pub const MOST_MEAN: u8 = 100;

/// What a block asks for.
#[derive(Drop)]
pub enum Command {
    /// Nothing.
    Blank,
    /// To change the program.
    Edit(Edit),
    /// To run the program for so many instructions.
    Run(u32),
    /// To evaluate the program with this allowance.
    Mean(u8),
    /// To write the program out.
    Image,
    /// To tell what was compiled, and why.
    Why,
    /// To print the declarations of the program.
    List,
    /// To print the accepted edits.
    Journal,
}

/// Why a block was not read. Places are in bytes, counted from 0.
#[derive(Clone, Copy, Debug, PartialEq, Eq)]
pub enum ReadFault {
    /// No command begins with the tokens up to the one that begins at this place, or tokens are wanting, and the place
    /// is the length of the block.
    Syntax(u64),
    /// The token that begins at this place lies too deep in brackets and operators.
    TooDeep(u64),
    /// The number that begins at this place is above 2 to the power of 127 less 1.
    NumberTooLarge(u64),
    OutOfMemory,
}

impl From<AllocError> for ReadFault {
    ghost from_gives = { λ _ e. e ≡ OutOfMemory };

    fn from(_: AllocError) -> Self {
        ReadFault::OutOfMemory
    }
}
