use crate::command::Command;
use sqlite_items::Items;
use vx_phrases::{DeclState, KeyState};
use vx_program::Change;

/// What is read of a block, between two tokens.
#[derive(Drop)]
pub enum State {
    /// Nothing.
    Start,
    /// `run`
    Run,
    /// `mean`
    Mean,
    /// A command that no token may follow.
    Over(Command),
    /// The changes before, and what is read of a declaration that is added, or put where the flag says so.
    Declaring(bool, Items<Change>, DeclState),
    /// The changes before, and what is read of a key that is dropped.
    Dropping(Items<Change>, KeyState),
}
