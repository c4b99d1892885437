//! The making of objects.
ghost use Rattle.std.specs.Prelude.{◌≡◌, List, map, IfOk};
ghost use Rattle.vx_names.specs.declared.key.FieldKey.{FieldKey};
ghost use Rattle.vx_model.specs.Meaning.{State, Done, keys_of, made};
ghost use Rattle.vx_meaning.specs.States.{done, state_of, with_keys};

use crate::fields::{are_filled, fill};
use crate::memory::{Keys, Memory, Outcome};
use sqlite_items::Items;
use std::alloc::{AllocError, Global};
use vx_model::{Value, field_at, fresh};
use vx_names::{FieldKey, Name};
use vx_program::Program;
use vx_syntax::Expr;

/// The fields that the names mean for the class.
#[inline(never)]
pub fn keys_of(
    alloc: Global,
    program: &Program,
    class: &Name,
    fields: &[(Name, Expr)],
) -> Result<Keys, AllocError>
    ensures { IfOk result (λ keys. (go : List FieldKey → Done) (state : State) →
        keys_of program.now class.now (map (λ field. field.0) fields.now) go state ≡ with_keys keys go state) }
{
    let mut keys = Items::new(alloc);
    for field in fields {
        match field_at(program, class.bytes(), &field.0) {
            Some(key) => keys.push(key.copy(alloc)?)?,
            None => return Ok(Keys::Missing(field.0.copy(alloc)?)),
        }
    }
    Ok(Keys::All(keys))
}

/// A new object with the values in the slots of the keys.
#[inline(never)]
pub fn make(
    alloc: Global,
    program: &Program,
    class: &Name,
    keys: &[FieldKey],
    values: &[Value],
    memory: &mut Memory,
) -> Result<Outcome, AllocError>
    ensures done { IfOk result (λ outcome. made program.now class.now keys.now values.now (state_of memory.old) ≡ done outcome memory.new) }
    ensures closures { memory.new.heap.closures ≡ memory.old.heap.closures }
{
    let mut thing = fresh(alloc, program, class)?;
    if !are_filled(keys, values, thing.slots.as_slice()) {
        return Ok(Outcome::Stuck);
    }
    fill(alloc, &mut thing.slots, keys, values)?;
    let place = memory.heap.objects.len() as u64;
    memory.heap.objects.push(thing)?;
    Ok(Outcome::Gives(Value::Object(place)))
}
