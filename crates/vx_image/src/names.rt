//! Names of selectors.
ghost use Rattle.std.specs.Prelude.{◌≡◌, ◌↔◌, ℕ, List, true};
ghost use Rattle.std.specs.List.{list_all, list_any};
ghost use Rattle.std.specs.Str.{bytes_eq};
ghost use Rattle.vx_names.specs.Name.{IsName};
ghost use Rattle.vx_format.specs.Layout.{is_identifier, is_name, is_word_byte, operators};
ghost use Rattle.vx_format.specs.Reading.{Cursor};
ghost use Rattle.vx_format.specs.Format.{a_name};
ghost use Rattle.vx_image.specs.Gives.{Gives};

use crate::cursor::{At, bytes_at, u8_at};
use crate::fault::LoadFault;
use sqlite_items::Items;
use std::alloc::Global;
use vx_names::{NAME_BYTES, Operator, is_letter, is_word_byte, operators_are_names};

// Whether bytes are an identifier, however long.
fn is_identifier(bytes: &[u8]) -> bool
    ensures { result ≡ is_identifier bytes.now }
{
    match bytes {
        [] => false,
        [first, rest @ ..] => is_letter(*first) && are_word_bytes(rest),
    }
}

// Whether an identifier may go on with all of the bytes.
fn are_word_bytes(bytes: &[u8]) -> bool
    ensures { result ≡ list_all is_word_byte bytes.now }
{
    for byte in bytes {
        if !is_word_byte(*byte) {
            return false;
        }
    }
    true
}

// Whether bytes are an operator.
fn is_operator(bytes: &[u8]) -> bool
    ensures { result ≡ list_any (bytes_eq bytes.now) operators }
{
    Operator::from_bytes(bytes).is_some()
}

/// Whether bytes are a name.
#[tactic(auto, unfolding(vx_format::specs::Layout::is_name))]
pub fn is_name(bytes: &[u8]) -> bool
    ensures { result ≡ is_name bytes.now }
{
    let is_identifier = is_identifier(bytes) & (bytes.len() <= NAME_BYTES);
    is_identifier | is_operator(bytes)
}

/// A name of the format is what a name is everywhere else: an identifier that is not too long, or an operator.
pub fn names_are_names()
    ensures { (bytes : List ℕ) → ((is_name bytes ≡ true) ↔ IsName bytes) }
{
    operators_are_names();
}

/// A name behind the number of its bytes.
#[tactic(auto, unfolding(vx_format::specs::Format::a_name))]
pub fn name_at<'a>(alloc: Global, at: At<'a>) -> Result<(Items<u8>, At<'a>), LoadFault>
    ensures { Gives (λ x. x) result (a_name at.entry) }
{
    let place = at.place();
    let (count, at) = u8_at(at)?;
    let (name, at) = bytes_at(at, count as usize)?;
    if !is_name(name) {
        return Err(LoadFault::BadIndex(place));
    }
    Ok((Items::from_slice(alloc, name)?, at))
}
