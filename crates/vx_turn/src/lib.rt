//! A lock of one's own: a value that one seat has at a time, with a history that each seat knows a beginning of.
//!
//! The value stands in the slot of a table of atomic words. One word names the owner, 0 or one more than the holder's
//! number, as the word of a futex with an owner does; a compare and exchange takes it, a swap frees it. The other word
//! counts the items of the history: a give that is marked adds one. The history itself is seen by contracts alone. Each
//! seat knows a beginning of it and its own share of it, as in Sergey, Nanevski and Banerjee, "Specifying and verifying
//! concurrent algorithms with histories and subjectivity" (2015). Trying to take the turn never waits.
#![tactic(auto)]

mod logged;
mod rule;
mod seat;
#[cfg(test)]
mod tests;
mod took;
mod turn;
mod view;

pub use logged::Logged;
pub use seat::TurnSeat;
pub use took::Took;
pub use turn::Turn;
pub use view::View;
