//! Which rows of a table a value may take, by its class and by tests.
ghost use Rattle.std.specs.Prelude.{◌≡◌, true, slice_get, IfOk};
ghost use Rattle.vx_places.specs.Dispatch.{class_mask, class_of, is_held, mask_of, with_tests};
ghost use Rattle.vx_machine.specs.Meaning.{Texts, things_of, value_of};
ghost use Rattle.vx_machine.specs.Rising.{Rises};
ghost use Rattle.vx_machine.specs.Slots.{class_at};

use crate::masks::{first_mask, mask_of};
use crate::truths::{Truths, holds};
use crate::word::{Object, Word};
use sqlite_items::at;
use std::alloc::AllocError;
use vx_format::{ClassMask, Image, Own, Position};

// The class of an object.
#[inline(always)]
fn class_at(objects: &[Object<'_>], number: usize) -> Option<u32>
    ensures { result ≡ class_at objects.entry.now number }
{
    match objects.get(number) {
        None => None,
        Some(object) => Some(object.class),
    }
}

/// The class of a value.
#[inline(always)]
pub fn class_of(own: &Own, objects: &[Object<'_>], word: Word<'_>) -> Option<u32>
    ensures { (texts : Texts) → result ≡ class_of own.now (things_of texts objects.entry.now) (value_of texts word.entry) }
{
    match word {
        Word::Int(_) => Some(own.int),
        Word::Constant(_) => Some(own.string),
        Word::Text(_) => Some(own.string),
        Word::Closure(_) => Some(own.closure),
        Word::Object(o) => class_at(objects, o),
    }
}

// Whether a test of the image holds.
fn is_held(
    image: &Image,
    objects: &[Object<'_>],
    word: Word<'_>,
    class: u32,
    test: u32,
    truths: &mut Truths,
) -> Result<bool, AllocError>
    ensures { IfOk result (λ held. (texts : Texts)
        → held ≡ is_held (things_of texts objects.entry.now) (value_of texts word.entry) class (slice_get image.now.tests test)) }
{
    match at(image.tests.as_slice(), test as usize) {
        None => Ok(false),
        Some(test) => holds(objects, word, class, test, truths),
    }
}

// The mask with those of the tests that hold.
#[inline(never)]
fn with_tests(
    image: &Image,
    objects: &[Object<'_>],
    word: Word<'_>,
    class: u32,
    start: u128,
    tests: &[ClassMask],
    truths: &mut Truths,
) -> Result<u128, AllocError>
    ensures { IfOk result (λ mask. (texts : Texts)
        → mask ≡ with_tests image.now (things_of texts objects.entry.now) (value_of texts word.entry) class start tests.now) }
{
    let mut mask = start;
    for entry in tests {
        if is_held(image, objects, word, class, entry.symbol, truths)? {
            mask |= entry.mask;
        }
    }
    Ok(mask)
}

/// The rows that a value may take at a position. Where all classes rise they are sought by halves.
#[inline(always)]
pub fn mask(
    image: &Image,
    objects: &[Object<'_>],
    word: Word<'_>,
    position: &Position,
    rise: bool,
    truths: &mut Truths,
) -> Result<u128, AllocError>
    requires { rise ≡ true → Rises position.now.classes }
    ensures { IfOk result (λ mask. (texts : Texts)
        → mask ≡ mask_of image.now (things_of texts objects.entry.now) (value_of texts word.entry) position.now) }
{
    let Some(class) = class_of(&image.own, objects, word) else {
        return Ok(0);
    };
    let entries = position.classes.as_slice();
    let start = class_mask(position.default, class, entries, rise);
    let tests = position.tests.as_slice();
    if tests.is_empty() {
        return Ok(start);
    }
    with_tests(image, objects, word, class, start, tests, truths)
}

// The mask of a class, sought by halves where the classes rise.
#[inline(always)]
fn class_mask(default: u128, class: u32, entries: &[ClassMask], rise: bool) -> u128
    requires { rise ≡ true → Rises entries.now }
    ensures { result ≡ class_mask default class entries.now }
{
    if rise {
        mask_of(default, class, entries)
    } else {
        first_mask(default, class, entries)
    }
}
