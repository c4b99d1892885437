//! Reading and setting the slots of objects.
ghost use Rattle.std.specs.Prelude.{◌≡◌, is_some, IfOk, OnOk};
ghost use Rattle.vx_model.specs.declared.value.Value.TheVariants.{Object};
ghost use Rattle.vx_model.specs.Holds.{slot};
ghost use Rattle.vx_model.specs.Meaning.{are_filled, filled, getting, put, put_in, put_slot, setting};
ghost use Rattle.vx_meaning.specs.States.{done, state_of};

use crate::memory::{Memory, Outcome};
use sqlite_items::Items;
use std::alloc::{AllocError, Global};
use vx_model::{RunError, Value, is_same_field, nil, slot_of};
use vx_names::FieldKey;
use vx_program::Program;

/// Reads the field of an object.
pub fn get_field(
    alloc: Global,
    field: &FieldKey,
    values: &[Value],
    memory: &Memory,
) -> Result<Outcome, AllocError>
    ensures { IfOk result (λ outcome. getting field.now values.now (state_of memory.now) ≡ done outcome memory.now) }
{
    let [value] = values else {
        return Ok(Outcome::Stuck);
    };
    match value {
        Value::Object(_) => match slot_of(&memory.heap, value, field) {
            Some(found) => Ok(Outcome::Gives(found.copy(alloc)?)),
            None => Ok(Outcome::Stuck),
        },
        _ => Ok(Outcome::Fails(RunError::NoField(field.name.copy(alloc)?))),
    }
}

/// Sets the field of an object.
pub fn set_field(
    alloc: Global,
    program: &Program,
    field: &FieldKey,
    values: &[Value],
    memory: &mut Memory,
) -> Result<Outcome, AllocError>
    ensures done { IfOk result (λ outcome. setting program.now field.now values.now (state_of memory.old) ≡ done outcome memory.new) }
    ensures closures { memory.new.heap.closures ≡ memory.old.heap.closures }
{
    let [own, value] = values else {
        return Ok(Outcome::Stuck);
    };
    match own {
        Value::Object(place) => {
            let value = value.copy(alloc)?;
            put(alloc, program, field, *place, value, memory)
        }
        _ => Ok(Outcome::Fails(RunError::NoField(field.name.copy(alloc)?))),
    }
}

// Puts the value into a slot of the object at the place that is there.
fn put(
    alloc: Global,
    program: &Program,
    field: &FieldKey,
    place: u64,
    value: Value,
    memory: &mut Memory,
) -> Result<Outcome, AllocError>
    ensures done { IfOk result (λ outcome.
        put_in program.now (put field.now (Object place) value memory.old.heap) (state_of memory.old) ≡ done outcome memory.new) }
    ensures closures { memory.new.heap.closures ≡ memory.old.heap.closures }
{
    let at = place as usize;
    let Some(thing) = memory.heap.objects.get(at) else {
        return Ok(Outcome::Stuck);
    };
    if !has_slot(thing.slots.as_slice(), field) {
        return Ok(Outcome::Stuck);
    }
    let mut thing = thing.copy(alloc)?;
    put_slot(alloc, &mut thing.slots, field, value)?;
    memory.heap.objects.set(at, thing);
    Ok(Outcome::Gives(nil(program)))
}

// Whether one of the slots has the key.
fn has_slot(slots: &[(FieldKey, Value)], key: &FieldKey) -> bool
    ensures { result ≡ is_some (slot key.now slots.now) }
{
    for own in slots {
        if is_same_field(&own.0, key) {
            return true;
        }
    }
    false
}

/// Whether there is a slot for each of the keys, and a value.
pub fn are_filled(keys: &[FieldKey], values: &[Value], slots: &[(FieldKey, Value)]) -> bool
    ensures { result ≡ are_filled keys.now values.now slots.now }
{
    for key in keys {
        if !has_slot(slots, key) {
            return false;
        }
    }
    keys.len() == values.len()
}

// Puts the value into the first slot of the key.
fn put_slot(
    alloc: Global,
    slots: &mut Items<(FieldKey, Value)>,
    key: &FieldKey,
    value: Value,
) -> Result<(), AllocError>
    ensures { OnOk result (slots.new ≡ put_slot key.now value slots.old) }
{
    for i in 0..slots.len() {
        if is_same_field(&slots.as_slice()[i].0, key) {
            slots.set(i, (key.copy(alloc)?, value));
            return Ok(());
        }
    }
    Ok(())
}

/// Puts the values into the slots of the keys.
pub fn fill(
    alloc: Global,
    slots: &mut Items<(FieldKey, Value)>,
    keys: &[FieldKey],
    values: &[Value],
) -> Result<(), AllocError>
    ensures { OnOk result (slots.new ≡ filled keys.now values.now slots.old) }
{
    let count = keys.len().min(values.len());
    for i in 0..count {
        put_slot(alloc, slots, &keys[i], values[i].copy(alloc)?)?;
    }
    Ok(())
}
