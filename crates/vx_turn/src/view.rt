//! What a seat knows.
use std::collections::LinkedList;

/// What a seat knows of its turn, for contracts alone: no value of it is ever made. A `u64` in it is a number without a
/// greatest value.
pub struct View<I> {
    /// The seat's number: 0 for the first, and no two seats of a turn have the same.
    pub number: u64,
    /// The seat was joined into another, and is no more.
    pub spent: bool,
    /// The seat holds the turn.
    pub holds: bool,
    /// The beginning of the history that it has seen; of a holder, the whole.
    pub seen: LinkedList<I>,
    /// The items that it added, in order.
    pub own: LinkedList<I>,
    /// How many of its compare and exchanges found another holder.
    pub failed_exchanges: u64,
    /// The number of the holder that the last of them found.
    pub holder_found: u64,
    /// The last number that it gave out; 0 where it gave out none.
    pub last_number: u64,
    /// The seats that were joined into it: their numbers, each with the items that the seat added.
    pub joined: LinkedList<(u64, LinkedList<I>)>,
}
