//! Units as text.
ghost use Rattle.std.specs.Prelude.{◌≡◌, ◌++◌, [], map, codes, OnOk};
ghost use Rattle.vx_syntax.specs.Print.{joined};
ghost use Rattle.vx_explain.specs.AnswerTexts as spec;

use crate::answers::append_key;
use crate::nodes::{append_message, append_method, append_variant, append_word};
use std::alloc::{AllocError, Global};
use vx_node::{Piece, Symbol};

/// A unit's pieces with blanks between them: bytes in hexadecimal, symbols in brackets; `empty` where there are none.
pub(crate) fn append_unit(
    alloc: Global,
    text: &mut Vec<u8>,
    unit: &[Piece],
) -> Result<(), AllocError>
    ensures { OnOk result (text.new.items ≡ text.old.items ++ spec.unit_text unit.now) }
{
    if unit.is_empty() {
        return text.extend_from_slice(b"empty");
    }
    append_pieces(alloc, text, unit)
}

fn append_pieces(alloc: Global, text: &mut Vec<u8>, unit: &[Piece]) -> Result<(), AllocError>
    ensures { OnOk result (text.new.items ≡ text.old.items ++ joined [] (codes " ") (map spec.piece_text unit.now)) }
{
    let mut lead = b"".as_slice();
    for piece in unit {
        text.extend_from_slice(lead)?;
        append_piece(alloc, text, piece)?;
        lead = b" ".as_slice();
    }
    Ok(())
}

fn append_piece(alloc: Global, text: &mut Vec<u8>, piece: &Piece) -> Result<(), AllocError>
    ensures { OnOk result (text.new.items ≡ text.old.items ++ spec.piece_text piece.now) }
{
    match piece {
        Piece::Bytes(bytes) => {
            text.extend_from_slice(hex::encode(alloc, bytes.as_slice())?.as_bytes())
        }
        Piece::Symbol(symbol) => {
            text.push(b'[')?;
            append_symbol(alloc, text, symbol)?;
            text.push(b']')?;
            Ok(())
        }
    }
}

fn append_symbol(alloc: Global, text: &mut Vec<u8>, symbol: &Symbol) -> Result<(), AllocError>
    ensures { OnOk result (text.new.items ≡ text.old.items ++ spec.symbol_text symbol.now) }
{
    match symbol {
        Symbol::Field(key) => append_key(alloc, text, key),
        Symbol::Object(x) => append_word(text, b"object ", x),
        Symbol::Test(x) => append_word(text, b"test ", x),
        Symbol::Table(selector) => append_message(alloc, text, b"table ", selector),
        Symbol::Code(key, variant) => {
            append_method(alloc, text, b"code ", key)?;
            append_variant(alloc, text, variant)
        }
    }
}
