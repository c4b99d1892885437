//! Which names, numbers and strings tokens spell.
ghost use Rattle.std.specs.Prelude.{◌≡◌, true};
ghost use Rattle.std.specs.Bool.{Decides};
ghost use Rattle.std.specs.List.{AllByRecursion};
ghost use Rattle.vx_names.specs.Operator.{operator_of};
ghost use Rattle.vx_syntax.specs.Words.{IsWord, IsText, is_printable};
ghost use Rattle.vx_syntax.specs.Written.{IsLiteral, IsSent, AreNames};

use vx_names::{Name, Operator, Selector, operators_are_names};
use vx_syntax::{Keyword, MAX_ARGUMENTS, TEXT_BYTES, is_printable};

/// Whether the name is an identifier that is not reserved.
pub fn is_word(name: &Name) -> bool
    ensures { Decides result (IsWord name.now) }
{
    operators_are_names();
    let bytes = name.bytes();
    Operator::from_bytes(bytes).is_none() && Keyword::from_bytes(bytes).is_none()
}

/// Whether each of the names is an identifier that is not reserved.
pub fn are_words(names: &[Name]) -> bool
    ensures { Decides result (AllByRecursion IsWord names.now) }
{
    for name in names {
        if !is_word(name) {
            return false;
        }
    }
    true
}

/// Whether there is a name, and each is an identifier that is not reserved.
pub fn are_names(names: &[Name]) -> bool
    ensures { Decides result (AreNames names.now) }
{
    !names.is_empty() && are_words(names)
}

/// Whether a string may hold the bytes.
pub fn is_text(bytes: &[u8]) -> bool
    ensures { Decides result (IsText bytes.now) }
{
    bytes.len() <= TEXT_BYTES && are_printable(bytes)
}

fn are_printable(bytes: &[u8]) -> bool
    ensures { Decides result (AllByRecursion (λ b. is_printable b ≡ true) bytes.now) }
{
    for byte in bytes {
        if !is_printable(*byte) {
            return false;
        }
    }
    true
}

/// Whether the number is no larger than literals are.
pub fn is_literal(n: i128) -> bool
    ensures { Decides result (IsLiteral n) }
{
    n != i128::MIN
}

/// Whether a message of the name may have so many arguments.
pub fn is_sent(name: &Name, count: usize) -> bool
    ensures { Decides result (IsSent (operator_of name.now) name.now count) }
{
    operators_are_names();
    match Operator::from_bytes(name.bytes()) {
        Some(_) => count == 2,
        None => is_word(name) && count <= MAX_ARGUMENTS,
    }
}

/// Whether a message of the selector may have so many arguments, and the selector says so many.
pub fn is_selector(selector: &Selector, count: usize) -> bool
    ensures { Decides result (IsSent (operator_of selector.now.name) selector.now.name count × (selector.now.arity ≡ count)) }
{
    is_sent(&selector.name, count) && selector.arity as usize == count
}
