//! Which method a message finds.
ghost use Rattle.std.specs.Prelude.{◌≡◌, ◌&&◌, filter, map, IfOk};
ghost use Rattle.std.specs.Option.{option_copied};
ghost use Rattle.vx_model.specs.Lookup.{are_above, are_held, choice, differ, is_below, is_best, is_more_specific, lookup};

use crate::hold::holds;
use std::alloc::{AllocError, Global};
use vx_model::{Heap, Look, Value, is_above};
use vx_names::{MethodKey, Name, Selector};
use vx_program::Program;

/// The method that the message finds, where it is sent on from the method `below` if there is one: the one that is more
/// specific than all others that are applicable (Chambers, The Cecil Language: Specification and Rationale). It keeps marks
/// for all declarations on the stack, which are to be gone when the method found is evaluated, so it is never inlined.
#[inline(never)]
pub fn lookup(
    alloc: Global,
    program: &Program,
    heap: &Heap,
    selector: &Selector,
    arguments: &[Value],
    below: Option<&MethodKey>,
) -> Result<Look, AllocError>
    ensures { IfOk result (λ look. look ≡ lookup program.now heap.now selector.now arguments.now (option_copied below.entry)) }
{
    let methods = program.methods(selector)?;
    let keys = applicable(alloc, program, heap, methods.as_slice(), arguments, below)?;
    choice(alloc, program, keys.as_slice())
}

// Those of the methods that are applicable.
fn applicable<'a>(
    alloc: Global,
    program: &Program,
    heap: &Heap,
    methods: &'a [MethodKey],
    arguments: &[Value],
    below: Option<&MethodKey>,
) -> Result<Vec<&'a MethodKey>, AllocError>
    ensures { IfOk result (λ keys. map (λ m. m.now) keys.items ≡
        filter (λ m. is_below program.now (option_copied below.entry) m && are_held program.now heap.now arguments.now m.specialisers) methods.now) }
{
    let mut keys = Vec::new(alloc);
    for key in methods {
        if is_below(program, below, key)
            && are_held(program, heap, arguments, key.specialisers.as_slice())
        {
            keys.push(key)?;
        }
    }
    Ok(keys)
}

// Whether the method counts below the other one; without one all do.
fn is_below(program: &Program, from: Option<&MethodKey>, key: &MethodKey) -> bool
    ensures { result ≡ is_below program.now (option_copied from.entry) key.now }
{
    match from {
        Some(from) => is_more_specific(program, from, key),
        None => true,
    }
}

// Whether each argument counts as its specialiser.
fn are_held(program: &Program, heap: &Heap, arguments: &[Value], specialisers: &[Name]) -> bool
    ensures { result ≡ are_held program.now heap.now arguments.now specialisers.now }
{
    if arguments.len() != specialisers.len() {
        return false;
    }
    for i in 0..arguments.len() {
        if !holds(program, heap, &arguments[i], &specialisers[i]) {
            return false;
        }
    }
    true
}

// The best of the methods.
fn choice(alloc: Global, program: &Program, keys: &[&MethodKey]) -> Result<Look, AllocError>
    ensures { IfOk result (λ look. look ≡ choice program.now (map (λ m. m.now) keys.now)) }
{
    if keys.is_empty() {
        return Ok(Look::None);
    }
    for key in keys {
        if is_best(program, keys, key) {
            return Ok(Look::One(key.copy(alloc)?));
        }
    }
    Ok(Look::Many)
}

// Whether the method is more specific than each other of these.
fn is_best(program: &Program, keys: &[&MethodKey], key: &MethodKey) -> bool
    ensures { result ≡ is_best program.now (map (λ m. m.now) keys.now) key.now }
{
    for other in keys {
        if key != *other && !is_more_specific(program, key, other) {
            return false;
        }
    }
    true
}

// Whether a method is more specific than another.
fn is_more_specific(program: &Program, m: &MethodKey, k: &MethodKey) -> bool
    ensures { result ≡ is_more_specific program.now m.now k.now }
{
    let own = m.specialisers.as_slice();
    let others = k.specialisers.as_slice();
    differ(own, others) && are_above(program, own, others)
}

// Whether each name of the second list is above the matching one of the first.
fn are_above(program: &Program, xs: &[Name], ys: &[Name]) -> bool
    ensures { result ≡ are_above program.now xs.now ys.now }
{
    if xs.len() != ys.len() {
        return false;
    }
    for i in 0..xs.len() {
        if !is_above(program, xs[i].bytes(), ys[i].bytes()) {
            return false;
        }
    }
    true
}

// Whether some name differs from the matching one.
fn differ(xs: &[Name], ys: &[Name]) -> bool
    ensures { result ≡ differ xs.now ys.now }
{
    let count = xs.len().min(ys.len());
    for i in 0..count {
        if xs[i].bytes() != ys[i].bytes() {
            return true;
        }
    }
    false
}
