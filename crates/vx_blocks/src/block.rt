ghost use Rattle.std.specs.Prelude.{IfOk};
ghost use Rattle.vx_blocks.specs.Block.{IsBlock};

use std::alloc::{AllocError, Global};

/// The most bytes that a block has.
pub const BLOCK_BYTES: usize = 1_048_576;

/// A block of the input.
#[derive(Debug, Drop)]
pub enum Block {
    /// Its bytes.
    Whole(Vec<u8>),
    /// How many bytes it has, which are too many.
    TooLong(u64),
}

impl Block {
    // The block of these bytes.
    pub(crate) fn new(alloc: Global, bytes: &[u8]) -> Result<Block, AllocError>
        ensures { IfOk result (λ block. IsBlock block bytes.now) }
    {
        if bytes.len() > BLOCK_BYTES {
            return Ok(Block::TooLong(bytes.len() as u64));
        }
        Ok(Block::Whole(Vec::from_slice(alloc, bytes)?))
    }
}
