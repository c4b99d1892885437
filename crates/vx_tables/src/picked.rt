//! What is picked.

/// What a message takes of a table.
#[derive(Clone, Copy, Debug, PartialEq, Eq)]
pub enum Picked {
    /// The row of this place.
    Row(u8),
    /// No row is left: the message is not understood.
    None,
    /// No row that is left beats all others: the message is ambiguous.
    Many,
}
