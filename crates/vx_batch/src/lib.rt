//! Answers scripts of commands: edits of a program, and requests for its text and its image.
#![tactic(auto)]

mod image;
mod listing;
mod pieces;
mod report;
mod script;
mod session;
mod text;
mod top;

pub use pieces::{INPUT_BYTES, PIECE_BYTES};
pub use report::report_text;
pub use top::{Status, batch_top};
