//! Which counts of a program would be too great. Counts are shown as 2^64 - 1 where they are greater.
ghost use Rattle.std.specs.Prelude.{◌≡◌, ℕ, ◌+◌, ◌≤◌, ◌++◌, ◌∷◌, [], length, sum_by, count_by, if◌then◌else◌, IfOk};
ghost use Rattle.vx_names.specs.declared.key.DeclKey.TheVariants as k;
ghost use Rattle.vx_syntax.specs.declared.decl.Decl.{Decl};
ghost use Rattle.vx_syntax.specs.Counts.{capped};
ghost use Rattle.vx_syntax.specs.Written.{IsDeclWritten};
ghost use Rattle.vx_program.specs.declared.limits.TheConstants as limits;
ghost use Rattle.vx_program.specs.Prelude.{prelude};
ghost use Rattle.vx_program.specs.Program.{getter, setter, is_method_of, methods_made, methods_of, declared};
ghost use Rattle.vx_program.specs.Apply.{over, methods_fault, limit_fault};

use crate::edit::{Counted, EditFault};
use crate::limits::{MAX_DECLARATIONS, MAX_DEPTH, MAX_LOCALS, MAX_METHODS};
use crate::occupied::{is_getter_of, is_setter_of, occupied};
use crate::reserved::{PRELUDE_DECLARATIONS, Reserved};
use std::alloc::{AllocError, Global};
use std::cmp::Ordering;
use vx_names::{DeclKey, FieldKey, Selector};
use vx_syntax::{Decl, height, locals};

/// The first count that is too great in the program that has the declaration between these, or of the declaration.
pub fn limit_fault(
    alloc: Global,
    reserved: &Reserved,
    front: &[Decl],
    decl: &Decl,
    behind: &[Decl],
) -> Result<Option<EditFault>, AllocError>
    requires { IsDeclWritten decl.now × (length front.now + length behind.now ≤ limits.MAX_DECLARATIONS + length prelude) }
    ensures { IfOk result (λ fault. fault ≡ limit_fault (front.now ++ decl.now ∷ behind.now) decl.now) }
{
    let count = declared(front, behind);
    if let Some(fault) = over(Counted::Declarations, MAX_DECLARATIONS as u64, count) {
        return Ok(Some(fault));
    }
    let keys = occupied(alloc, decl)?;
    if let Some(fault) = methods_fault(reserved, front, decl, behind, keys.as_slice()) {
        return Ok(Some(fault));
    }
    if let Some(fault) = over(Counted::Locals, MAX_LOCALS, locals(decl)) {
        return Ok(Some(fault));
    }
    Ok(over(Counted::Depth, MAX_DEPTH, height(decl)))
}

#[tactic(auto, using(crate::proofs::Lookups::shown_over))]
fn over(which: Counted, most: u64, count: u64) -> Option<EditFault>
    requires { most ≤ 4096 }
    ensures { (n : ℕ) → count ≡ capped n → result ≡ over which most n }
{
    if most < count {
        return Some(EditFault::Limit(which, count));
    }
    None
}

// How many declarations there are besides the prelude where one stands between these.
#[tactic(auto, using(crate::proofs::Lookups::prelude_length, crate::proofs::Lookups::counted_between))]
fn declared(front: &[Decl], behind: &[Decl]) -> u64
    requires { length front.now + length behind.now ≤ limits.MAX_DECLARATIONS + length prelude }
    ensures { (decl : Decl) → result ≡ capped (declared (front.now ++ decl ∷ behind.now)) }
{
    let count = front.len() + behind.len() + 1;
    (count as u64).saturating_sub(PRELUDE_DECLARATIONS)
}

// The first of the keys that is a method's and whose selector has too many.
fn methods_fault(
    reserved: &Reserved,
    front: &[Decl],
    decl: &Decl,
    behind: &[Decl],
    keys: &[DeclKey],
) -> Option<EditFault>
    ensures { result ≡ methods_fault (front.now ++ decl.now ∷ behind.now) keys.now }
{
    for key in keys {
        if let Some(fault) = selector_fault(reserved, front, decl, behind, key) {
            return Some(fault);
        }
    }
    None
}

fn selector_fault(
    reserved: &Reserved,
    front: &[Decl],
    decl: &Decl,
    behind: &[Decl],
    key: &DeclKey,
) -> Option<EditFault>
    ensures { result ≡ methods_fault (front.now ++ decl.now ∷ behind.now) (key.now ∷ []) }
{
    match key {
        DeclKey::Method(key) => over(
            Counted::Methods,
            MAX_METHODS as u64,
            methods_of(reserved, front, decl, behind, &key.selector),
        ),
        _ => None,
    }
}

fn methods_of(
    reserved: &Reserved,
    front: &[Decl],
    decl: &Decl,
    behind: &[Decl],
    selector: &Selector,
) -> u64
    ensures { result ≡ capped (methods_of (front.now ++ decl.now ∷ behind.now) selector.now) }
{
    let in_front = counted(reserved.methods_of(selector), front, selector);
    let with_it = in_front.saturating_add(methods_made(decl, selector));
    counted(with_it, behind, selector)
}

// So many, and the methods of the selector that the declarations make.
fn counted(count: u64, decls: &[Decl], selector: &Selector) -> u64
    ensures { (n : ℕ) → count ≡ capped n → result ≡ capped (sum_by (methods_made selector.now) decls.now + n) }
{
    let mut count = count;
    for decl in decls {
        count = count.saturating_add(methods_made(decl, selector));
    }
    count
}

// How many methods of the selector a declaration makes.
fn methods_made(decl: &Decl, selector: &Selector) -> u64
    ensures { result ≡ methods_made selector.now decl.now }
{
    match decl {
        Decl::Field {
            key,
            changeable,
            ..
        } => made_by_field(key, *changeable, selector),
        Decl::Method { key, .. } => one_if(key.selector.cmp(selector) == Ordering::Equal),
        _ => 0,
    }
}

fn one_if(counts: bool) -> u64
    ensures { result ≡ (if counts then 1 else 0) }
{
    if counts { 1 } else { 0 }
}

fn made_by_field(own: &FieldKey, changeable: bool, selector: &Selector) -> u64
    ensures { result ≡ count_by (is_method_of selector.now) (k.Field own.now ∷ k.Method (getter own.now) ∷ (if changeable then k.Method (setter own.now) ∷ [] else [])) }
{
    let reads = one_if(is_getter_of(own, selector));
    if changeable {
        return reads + one_if(is_setter_of(own, selector));
    }
    reads
}
