//! Units: what is made for the image, as bytes with the names that a linker puts numbers for.
ghost use Rattle.std.specs.Prelude.{◌≡◌, IfOk};

use crate::node::Variant;
use sqlite_items::Items;
use std::alloc::{AllocError, Global};
use vx_names::{FieldKey, MethodKey, Name, Selector};

/// What a piece of a unit names. A linker puts the number that the thing has in the image.
#[derive(Drop)]
pub enum Symbol {
    /// The field.
    Field(FieldKey),
    /// The object or predicate of this name.
    Object(Name),
    /// The test of the predicate of this name.
    Test(Name),
    /// The table of the message.
    Table(Selector),
    /// The code of the method, as general as it is or for one class.
    Code(MethodKey, Variant),
}

/// A piece of a unit.
#[derive(Drop)]
pub enum Piece {
    /// Bytes that stand in the image as they are.
    Bytes(Items<u8>),
    /// A name that stands in the image as a number of four bytes.
    Symbol(Symbol),
}

impl Symbol {
    pub fn copy(&self, alloc: Global) -> Result<Symbol, AllocError>
        ensures { IfOk result (λ symbol. symbol ≡ self.now) }
    {
        match self {
            Symbol::Field(key) => Ok(Symbol::Field(key.copy(alloc)?)),
            Symbol::Object(name) => Ok(Symbol::Object(name.copy(alloc)?)),
            Symbol::Test(name) => Ok(Symbol::Test(name.copy(alloc)?)),
            Symbol::Table(selector) => Ok(Symbol::Table(selector.copy(alloc)?)),
            Symbol::Code(key, variant) => Ok(Symbol::Code(key.copy(alloc)?, variant.copy(alloc)?)),
        }
    }
}

impl Piece {
    pub fn copy(&self, alloc: Global) -> Result<Piece, AllocError>
        ensures { IfOk result (λ piece. piece ≡ self.now) }
    {
        match self {
            Piece::Bytes(bytes) => Ok(Piece::Bytes(Items::from_slice(alloc, bytes.as_slice())?)),
            Piece::Symbol(symbol) => Ok(Piece::Symbol(symbol.copy(alloc)?)),
        }
    }
}

/// The pieces, each copied.
pub fn copy_pieces(alloc: Global, pieces: &[Piece]) -> Result<Items<Piece>, AllocError>
    ensures { IfOk result (λ copies. copies ≡ pieces.now) }
{
    let mut copies = Items::new(alloc);
    for piece in pieces {
        copies.push(piece.copy(alloc)?)?;
    }
    Ok(copies)
}
