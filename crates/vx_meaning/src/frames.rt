//! Activations of methods and of closures, and how closures are made.
ghost use Rattle.std.specs.Prelude.{◌≡◌, ◌≤◌, ◌++◌, ℕ, List, map, length, slice_get, Some, IfOk, OnOk};
ghost use Rattle.vx_syntax.specs.Counts.{size};
ghost use Rattle.vx_model.specs.declared.value.Held.{Held};
ghost use Rattle.vx_model.specs.declared.value.Local.{Local};
ghost use Rattle.vx_model.specs.Meaning.{Done, Frame, closed, with_closure_of, with_formals};
ghost use Rattle.vx_meaning.specs.States.{AreWithin, IsReachedWithin, done, follow_closure, frame_of, state_of};

use crate::memory::{Activation, Memory, Outcome, Reached};
use crate::scope::Scope;
use sqlite_items::Items;
use std::alloc::{AllocError, Global};
use vx_model::{Held, Local, RunError, Value, copy_values};
use vx_names::{MethodKey, Name, copy_names};
use vx_syntax::Body;

/// Makes a closure, which holds its text and what it may need of the activation.
#[inline(never)]
pub fn close(
    alloc: Global,
    formals: &[Name],
    body: &Body,
    frame: &Activation,
    memory: &mut Memory,
) -> Result<Outcome, AllocError>
    ensures done { IfOk result (λ outcome. closed (frame_of frame.now) formals.now body.now.0 (state_of memory.old) ≡ done outcome memory.new) }
    ensures within { IfOk result (λ outcome. (limit : ℕ) →
        size body.now ≤ limit → AreWithin limit memory.old.heap.closures → AreWithin limit memory.new.heap.closures) }
{
    let held = Held {
        method: frame.method.copy(alloc)?,
        arguments: copy_values(alloc, frame.arguments.as_slice())?,
        formals: copy_names(alloc, formals)?,
        body: body.copy(alloc)?,
        home: frame.home,
        scope: frame.scope.copy(alloc)?,
    };
    let place = memory.heap.closures.len() as u64;
    memory.heap.closures.push(held)?;
    Ok(Outcome::Gives(Value::Closure(place)))
}

/// The closure at the place, which is to have so many formals.
pub fn reach(
    alloc: Global,
    place: u64,
    count: usize,
    memory: &Memory,
) -> Result<Reached, AllocError>
    ensures done { IfOk result (λ reached. (go : Held → Done) →
        with_closure_of count (slice_get memory.now.heap.closures place) (state_of memory.now) go ≡ follow_closure reached memory.now go) }
    ensures within { IfOk result (λ reached. (limit : ℕ) → AreWithin limit memory.now.heap.closures → IsReachedWithin limit reached) }
{
    match memory.heap.closures.get(place as usize) {
        None => Ok(Reached::Ends(Outcome::Stuck)),
        Some(held) => {
            if held.formals.len() == count {
                return Ok(Reached::Closure(held.copy(alloc)?));
            }
            // A selector counts no more arguments than this.
            match u8::try_from(count) {
                Ok(count) => Ok(Reached::Ends(Outcome::Fails(RunError::ClosureArity(count)))),
                Err(_) => Err(AllocError),
            }
        }
    }
}

/// The activation of a method, of a number of its own.
#[inline(never)]
pub fn entered(
    alloc: Global,
    key: MethodKey,
    formals: &[Option<Name>],
    values: Items<Value>,
    home: u64,
) -> Result<Activation, AllocError>
    requires { length formals.now ≡ length values }
    ensures { IfOk result (λ frame. (go : Frame → Done) (otherwise : Done) → with_formals formals.now values
        (λ scope. go (record { method = key; arguments = values; home = home; scope = scope })) otherwise ≡ go (frame_of frame)) }
{
    let mut scope = Scope::new(alloc);
    bring_formals(alloc, formals, values.as_slice(), &mut scope)?;
    Ok(Activation {
        method: key,
        arguments: values,
        home,
        scope,
    })
}

/// The activation of a closure: that in which it was made, with the closure's formals in scope.
#[inline(never)]
pub fn opened(alloc: Global, held: &Held, values: &[Value]) -> Result<Activation, AllocError>
    requires { length held.now.formals ≡ length values.now }
    ensures { IfOk result (λ frame. (go : Frame → Done) (otherwise : Done) → with_formals (map Some held.now.formals) values.now
        (λ scope. go (record { method = held.now.method; arguments = held.now.arguments; home = held.now.home; scope = scope ++ held.now.scope })) otherwise
        ≡ go (frame_of frame)) }
{
    let mut scope = Scope::new(alloc);
    scope.bring_all(alloc, held.scope.as_slice())?;
    let formals = named(alloc, held.formals.as_slice())?;
    bring_formals(alloc, formals.as_slice(), values, &mut scope)?;
    Ok(Activation {
        method: held.method.copy(alloc)?,
        arguments: copy_values(alloc, held.arguments.as_slice())?,
        home: held.home,
        scope,
    })
}

// The formals of a closure, which all have names.
fn named(alloc: Global, names: &[Name]) -> Result<Items<Option<Name>>, AllocError>
    ensures { IfOk result (λ formals. formals ≡ map Some names.now) }
{
    let mut formals = Items::new(alloc);
    for name in names {
        formals.push(Some(name.copy(alloc)?))?;
    }
    Ok(formals)
}

// Brings the formals that have names into scope, with their arguments, the first innermost.
fn bring_formals(
    alloc: Global,
    formals: &[Option<Name>],
    values: &[Value],
    scope: &mut Scope,
) -> Result<(), AllocError>
    requires { length formals.now ≡ length values.now }
    ensures { OnOk result ((go : List (List ℕ × Local) → Done) (otherwise : Done) →
        with_formals formals.now values.now (λ own. go (own ++ scope.old)) otherwise ≡ go scope.new) }
{
    for i in (0..formals.len()).rev() {
        if let Some(name) = &formals[i] {
            let name = name.copy(alloc)?;
            scope.bring(name, Local::Plain(values[i].copy(alloc)?))?;
        }
    }
    Ok(())
}
