use sqlite_items::Items;
use vx_syntax::Token;

/// A token of a block.
#[derive(Debug, Drop)]
pub struct Placed {
    pub token: Token,
    /// The place of its first byte in the block, counted from 0.
    pub place: u64,
}

/// What begins at a byte.
#[derive(Drop)]
pub struct Front {
    /// The token, if the byte is neither white space nor begins a comment.
    pub token: Option<Token>,
    /// How many more bytes the token, or the comment, has.
    pub more: usize,
}

/// A string, without its opening quote.
#[derive(Drop)]
pub struct Quoted {
    /// The bytes that it holds, after escapes.
    pub value: Items<u8>,
    /// How many bytes it has, its closing quote among them.
    pub len: usize,
}
