//! What readers of a loaded image give of its parts.

/// What a slot of a named object holds when a run begins.
#[derive(Drop)]
pub enum Initial<'a> {
    /// The object `nil`.
    Nil,
    /// The object `false`.
    False,
    /// The object `true`.
    True,
    /// A whole number.
    Int(i128),
    /// A string, by its bytes.
    Text(&'a [u8]),
}

/// What a row of a table leads to.
#[derive(Clone, Copy, Debug, PartialEq, Eq)]
pub enum Row {
    /// A code.
    Code {
        /// The code that is entered, unless a pair of the split names another.
        code: u32,
        /// The position of the argument on whose class it depends which code is entered, if there is one.
        split: Option<u8>,
        /// How many pairs of a class and a code the split has; 0 without one.
        pairs: u8,
    },
    /// A primitive, by its number.
    Prim(u8),
    /// Reading a field.
    Get(u32),
    /// Writing a field.
    Set(u32),
}

/// How many locals, captures and formals a block has. Captures and formals are locals, too, and come first in this order.
#[derive(Clone, Copy, Debug, PartialEq, Eq)]
pub struct BlockHead {
    /// How many locals there are.
    pub locals: u32,
    /// How many of them are captured.
    pub captures: u32,
    /// How many of them are formals.
    pub formals: u8,
}
