//! What a try to take the turn answers.

/// The value, or who has it.
#[derive(Drop)]
pub enum Took<T> {
    /// The turn was free; the seat now holds it, and this is its value.
    Held(T),
    /// Another seat held it. This is that seat's number, as the one compare and exchange of the call found it.
    Busy(u32),
}
