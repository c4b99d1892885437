//! Cutting input, fed in pieces, into blocks, at lines that are a full stop.
#![tactic(auto)]

mod block;
mod blocks;
mod lines;
mod queue;

pub use block::{BLOCK_BYTES, Block};
pub use blocks::{Blocks, runs_cut_the_whole};
pub use lines::lines_join;

#[cfg(test)]
mod tests;
