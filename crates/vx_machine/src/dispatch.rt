//! Which row of a table a message takes.
ghost use Rattle.std.specs.Prelude.{◌≡◌, ℕ, ◌<◌, map, true, slice_get, Some, IfOk};
ghost use Rattle.std.specs.List.{list_all};
ghost use Rattle.std.specs.Option.{option_copied};
ghost use Rattle.vx_format.specs.declared.image.Position.{Position};
ghost use Rattle.vx_tables.specs.Masks.{has};
ghost use Rattle.vx_places.specs.Dispatch.{masks_of};
ghost use Rattle.vx_machine.specs.Masks.{mask_one};
ghost use Rattle.vx_machine.specs.Meaning.{Texts, things_of, value_of};
ghost use Rattle.vx_machine.specs.Rising.{Rises};

use crate::classes::mask;
use crate::truths::Truths;
use crate::word::{Object, Word};
use sqlite_items::at;
use std::alloc::AllocError;
use vx_format::{Image, Position};

// The rows that count at a position where there may be a value, and none where there is no value or no position.
#[inline(always)]
fn mask_at(
    image: &Image,
    objects: &[Object<'_>],
    word: Option<Word<'_>>,
    position: Option<&Position>,
    rise: bool,
    truths: &mut Truths,
) -> Result<u128, AllocError>
    requires { rise ≡ true → (own : Position) → option_copied position ≡ Some own → Rises own.classes }
    ensures { IfOk result (λ mask. (texts : Texts)
        → mask ≡ mask_one image.now texts objects.entry.now word.entry (option_copied position.entry)) }
{
    match word {
        None => Ok(0),
        Some(word) => match position {
            None => Ok(0),
            Some(position) => mask(image, objects, word, position, rise, truths),
        },
    }
}

/// The word at a place.
#[inline(always)]
pub fn taken<'a>(words: &[Word<'a>], i: usize) -> Option<Word<'a>>
    ensures { result ≡ slice_get words.entry.now i }
{
    words.get(i).copied()
}

/// The rows that count for all of the values, each at its position.
#[inline(always)]
pub fn rows_left(
    image: &Image,
    objects: &[Object<'_>],
    words: &[Word<'_>],
    positions: &[Position],
    rise: bool,
    truths: &mut Truths,
) -> Result<u128, AllocError>
    requires { rise ≡ true → (p : _) → (position : Position) → slice_get positions.now p ≡ Some position → Rises position.classes }
    ensures { IfOk result (λ left. (texts : Texts) → (row : ℕ) → row < 128 → has left row
        ≡ list_all (λ mask. has mask row) (masks_of image.now (things_of texts objects.entry.now) (map (value_of texts) words.entry.now) positions.now)) }
{
    let mut left = u128::MAX;
    let count = words.len().max(positions.len());
    for i in 0..count {
        let word = taken(words, i);
        left &= mask_at(image, objects, word, at(positions, i), rise, truths)?;
    }
    Ok(left)
}
