//! Blocks of bytes, read as tokens and as commands.
#![tactic(auto)]

mod bytes;
mod command;
mod command_steps;
mod front;
mod laws;
mod levels;
mod number;
mod reader;
mod sign;
mod spelling;
mod state;
mod text;
mod token;
mod tokenizer;

pub use command::{Command, ReadFault};
pub use laws::{
    canonical_additions_are_read, canonical_edits_are_read, every_block_is_read, one_reading,
    programs_are_read_back, read_edits_are_writable, writable_edits_have_texts,
};
pub use reader::read_block;
pub use token::Placed;
pub use tokenizer::tokens;
