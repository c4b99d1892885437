//! Declarations in key order, sought by halves.
ghost use Rattle.std.specs.Prelude.{◌≡◌, ◌<◌, true, false, Some, length, slice_get, IfSome, IsNone};
ghost use Rattle.std.specs.Option.{option_copied};
ghost use Rattle.std.specs.Ordering.{is_lt};
ghost use Rattle.vx_names.specs.declared.key.DeclKey.TheVariants.{Object};
ghost use Rattle.vx_names.specs.Key.{decl_key_cmp};
ghost use Rattle.vx_syntax.specs.declared.decl.Decl.{Decl};
ghost use Rattle.vx_syntax.specs.Keys.{key_of};
ghost use Rattle.vx_program.specs.Program.{IsOrdered, IsProgram, find, is_named, is_predicate_there, is_there};
ghost use Rattle.vx_program.specs.Lookups.{IsFoundOrNot, IsPlaceOf, sought};

use crate::key::{Sought, compare, has_key};
use crate::lookup::{is_named, is_predicate};
use std::cmp::Ordering;
use vx_names::{DeclKey, Name};
use vx_syntax::Decl;

/// Where the object or predicate of the name stands. Objects and predicates stand in order of their names, and in front of
/// all other declarations.
pub fn position_of_name(decls: &[Decl], x: &[u8]) -> Option<usize>
    requires { IsOrdered decls.now }
    ensures within { IfSome result (λ place. place < length decls.now) }
    ensures some { IfSome result (λ place. (decl : Decl) × (slice_get decls.now place ≡ Some decl) × (is_named x.now decl ≡ true)) }
    ensures none { IsNone result → is_there decls.now x.now ≡ false }
{
    let place = place_of(decls, &Sought::Name(x));
    if place < decls.len() && is_named(&decls[place], x) {
        Some(place)
    } else {
        None
    }
}

/// Where the declaration of the key stands.
pub fn position(decls: &[Decl], key: &DeclKey) -> Option<usize>
    requires { IsOrdered decls.now }
    ensures within { IfSome result (λ place. place < length decls.now) }
    ensures found { IsFoundOrNot decls.now key.now result }
{
    let place = place_of(decls, &Sought::Key(key));
    if place < decls.len() && has_key(&decls[place], key) {
        Some(place)
    } else {
        None
    }
}

/// The declaration that has the key.
pub fn find<'a>(decls: &'a [Decl], key: &DeclKey) -> Option<&'a Decl>
    requires { IsOrdered decls.now }
    ensures { option_copied result ≡ find decls.now key.now }
{
    match position(decls, key) {
        Some(place) => Some(&decls[place]),
        None => None,
    }
}

/// Whether there is an object or a predicate of the name.
pub fn is_there(decls: &[Decl], x: &Name) -> bool
    requires { IsOrdered decls.now }
    ensures { result ≡ is_there decls.now x.now }
{
    position_of_name(decls, x.bytes()).is_some()
}

/// Whether there is a predicate of the name.
pub fn is_predicate_there(decls: &[Decl], x: &Name) -> bool
    requires { IsProgram decls.now }
    ensures { result ≡ is_predicate_there decls.now x.now }
{
    match position_of_name(decls, x.bytes()) {
        Some(place) => is_predicate(&decls[place]),
        None => false,
    }
}

/// How many declarations go before what is sought.
pub fn place_of(decls: &[Decl], what: &Sought) -> usize
    requires { IsOrdered decls.now }
    ensures { IsPlaceOf decls.now (sought what.now) result }
{
    let mut low = 0;
    let mut high = decls.len();
    while low < high {
        let middle = low + (high - low) / 2;
        if goes_before(&decls[middle], what) {
            low = middle + 1;
        } else {
            high = middle;
        }
    }
    low
}

fn goes_before(decl: &Decl, what: &Sought) -> bool
    ensures { result ≡ is_lt (decl_key_cmp (key_of decl.now) (sought what.now)) }
{
    match what {
        Sought::Name(x) => is_name_before(decl, x),
        Sought::Key(key) => compare(decl, key) == Ordering::Less,
    }
}

// Whether the declaration goes before an object of the name.
fn is_name_before(decl: &Decl, x: &[u8]) -> bool
    ensures { result ≡ is_lt (decl_key_cmp (key_of decl.now) (Object x.now)) }
{
    match decl {
        Decl::Object { name, .. } => name.bytes().cmp(x) == Ordering::Less,
        Decl::Predicate { name, .. } => name.bytes().cmp(x) == Ordering::Less,
        _ => false,
    }
}
