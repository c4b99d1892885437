ghost use Rattle.std.specs.Prelude.{◌≡◌, IfOk};
ghost use Rattle.vx_syntax.specs.Words.{keyword, mark, is_printable};

use sqlite_items::Items;
use std::alloc::{AllocError, Global};
use vx_names::{Name, Operator};

/// The most bytes that a string holds.
pub const TEXT_BYTES: usize = 1024;

/// Whether the byte may stand in a string.
pub fn is_printable(byte: u8) -> bool
    ensures { result ≡ is_printable byte }
{
    byte == b' ' || byte.is_ascii_graphic()
}

/// A reserved word, which is no name.
#[derive(Clone, Copy, Debug)]
pub enum Keyword {
    Object,
    Predicate,
    Method,
    Field,
    Isa,
    When,
    Let,
    Var,
    Resend,
}

impl Keyword {
    /// The reserved word that the bytes spell.
    #[tactic(auto, unfolding(crate::specs::Words::keyword))]
    pub fn from_bytes(bytes: &[u8]) -> Option<Keyword>
        ensures { result ≡ keyword bytes.now }
    {
        if bytes == b"object".as_slice() {
            Some(Keyword::Object)
        } else if bytes == b"predicate".as_slice() {
            Some(Keyword::Predicate)
        } else if bytes == b"method".as_slice() {
            Some(Keyword::Method)
        } else if bytes == b"field".as_slice() {
            Some(Keyword::Field)
        } else if bytes == b"isa".as_slice() {
            Some(Keyword::Isa)
        } else if bytes == b"when".as_slice() {
            Some(Keyword::When)
        } else if bytes == b"let".as_slice() {
            Some(Keyword::Let)
        } else if bytes == b"var".as_slice() {
            Some(Keyword::Var)
        } else if bytes == b"resend".as_slice() {
            Some(Keyword::Resend)
        } else {
            None
        }
    }
}

/// A sign, or some, that is no operator.
#[derive(Clone, Copy, Debug)]
pub enum Mark {
    /// `(`
    Open,
    /// `)`
    Close,
    /// `{`
    OpenBlock,
    /// `}`
    CloseBlock,
    Comma,
    Semicolon,
    At,
    Ampersand,
    Caret,
    /// `:=`
    Becomes,
    /// `...`
    Dots,
}

impl Mark {
    /// The mark that the bytes spell.
    #[tactic(auto, unfolding(crate::specs::Words::mark))]
    pub fn from_bytes(bytes: &[u8]) -> Option<Mark>
        ensures { result ≡ mark bytes.now }
    {
        match bytes {
            b"(" => Some(Mark::Open),
            b")" => Some(Mark::Close),
            b"{" => Some(Mark::OpenBlock),
            b"}" => Some(Mark::CloseBlock),
            b"," => Some(Mark::Comma),
            b";" => Some(Mark::Semicolon),
            b"@" => Some(Mark::At),
            b"&" => Some(Mark::Ampersand),
            b"^" => Some(Mark::Caret),
            b":=" => Some(Mark::Becomes),
            b"..." => Some(Mark::Dots),
            _ => None,
        }
    }
}

/// What a block is made of, besides white space and comments.
#[derive(Debug, Drop)]
pub enum Token {
    /// An identifier that is not reserved.
    Word(Name),
    Keyword(Keyword),
    /// The number that digits write, or 2 to the power of 127 where it is greater.
    Number(u128),
    /// The bytes that a string holds, after escapes.
    Text(Items<u8>),
    Operator(Operator),
    Mark(Mark),
    /// Bytes with which no command goes on.
    Bad,
}

impl Token {
    pub fn copy(&self, alloc: Global) -> Result<Token, AllocError>
        ensures { IfOk result (λ token. token ≡ self.now) }
    {
        match self {
            Token::Word(name) => Ok(Token::Word(name.copy(alloc)?)),
            Token::Keyword(keyword) => Ok(Token::Keyword(*keyword)),
            Token::Number(n) => Ok(Token::Number(*n)),
            Token::Text(bytes) => Ok(Token::Text(Items::from_slice(alloc, bytes.as_slice())?)),
            Token::Operator(operator) => Ok(Token::Operator(*operator)),
            Token::Mark(mark) => Ok(Token::Mark(*mark)),
            Token::Bad => Ok(Token::Bad),
        }
    }
}
