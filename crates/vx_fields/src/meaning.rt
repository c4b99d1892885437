//! Which field a name means for a class.
ghost use Rattle.std.specs.Prelude.{◌≡◌, IfOk};
ghost use Rattle.std.specs.List.{list_all};
ghost use Rattle.vx_program.specs.Program.{is_name_of};
ghost use Rattle.vx_node.specs.Askers.{Follows};
ghost use Rattle.vx_model.specs.Fields.{keys_named};
ghost use Rattle.vx_answers.specs.FieldRows.{field_row, fields_row, lowest};
ghost use Rattle.vx_answers.specs.FieldRows as spec;

use crate::ordering::{in_key_order, joined};
use crate::telling::{above_each, fields_of_each};
use sqlite_items::Items;
use std::alloc::{AllocError, Global};
use vx_names::{FieldKey, Name};
use vx_node::{Asker, Halt, Tracer};
use vx_syntax::Start;
use vx_walks::{Way, is_one, walk};

/// The field that a name means for a class: of those of the name on the class and above it, the one on an object below
/// which none of them is. There is none where two are beside one another.
pub fn field_at<A: Asker>(
    alloc: Global,
    t: &mut Tracer<A>,
    class: &Name,
    name: &Name,
) -> Result<Option<FieldKey>, Halt>
    requires ready { A.ready t.old.asker.now }
    ensures ready { A.ready t.new.asker.now }
    ensures same { t.new.asker.ghost_name ≡ t.old.asker.ghost_name }
    ensures follows { Follows A.manner (field_row class.now name.now) result t.old.asker.now t.old.trace t.new.asker.now t.new.trace }
{
    let slots = match fields(alloc, t, class) {
        Ok(slots) => slots,
        Err(halt) => return Err(halt),
    };
    let keys = keys_named(alloc, name, slots.as_slice())?;
    let above = match above_each(alloc, t, keys.as_slice()) {
        Ok(above) => above,
        Err(halt) => return Err(halt),
    };
    let key = lowest(alloc, keys.as_slice(), above.as_slice())?;
    Ok(key)
}

// The fields on the names above a class, as slots in key order.
fn fields<A: Asker>(
    alloc: Global,
    t: &mut Tracer<A>,
    class: &Name,
) -> Result<Items<(FieldKey, Start)>, Halt>
    requires ready { A.ready t.old.asker.now }
    ensures ready { A.ready t.new.asker.now }
    ensures same { t.new.asker.ghost_name ≡ t.old.asker.ghost_name }
    ensures follows { Follows A.manner (fields_row class.now) result t.old.asker.now t.old.trace t.new.asker.now t.new.trace }
{
    let names = match walk(alloc, t, Way::Upward, class) {
        Ok(names) => names,
        Err(halt) => return Err(halt),
    };
    let lists = match fields_of_each(alloc, t, names.as_slice()) {
        Ok(lists) => lists,
        Err(halt) => return Err(halt),
    };
    let slots = ordered(alloc, lists.as_slice())?;
    Ok(slots)
}

fn ordered(
    alloc: Global,
    lists: &[Items<(FieldKey, Start)>],
) -> Result<Items<(FieldKey, Start)>, AllocError>
    ensures { IfOk result (λ slots. slots ≡ spec.in_key_order (spec.joined lists.now)) }
{
    let all = joined(alloc, lists)?;
    in_key_order(alloc, all.as_slice())
}

// The keys of a name.
fn keys_named(
    alloc: Global,
    name: &Name,
    slots: &[(FieldKey, Start)],
) -> Result<Items<FieldKey>, AllocError>
    ensures { IfOk result (λ keys. keys ≡ keys_named name.now slots.now) }
{
    let mut keys = Items::new(alloc);
    for slot in slots {
        if slot.0.name.bytes() == name.bytes() {
            keys.push(slot.0.copy(alloc)?)?;
        }
    }
    Ok(keys)
}

// The first key that has the specialisers of all keys above its own.
fn lowest(
    alloc: Global,
    keys: &[FieldKey],
    above: &[(FieldKey, Items<Name>)],
) -> Result<Option<FieldKey>, AllocError>
    ensures { IfOk result (λ key. key ≡ lowest keys.now above.now) }
{
    for one in above {
        if have_all(one.1.as_slice(), keys) {
            return Ok(Some(one.0.copy(alloc)?));
        }
    }
    Ok(None)
}

// Whether the specialisers of all keys are among the names.
fn have_all(names: &[Name], keys: &[FieldKey]) -> bool
    ensures { result ≡ list_all (λ key. is_name_of names.now key.specialiser) keys.now }
{
    for key in keys {
        if !is_one(names, key.specialiser.bytes()) {
            return false;
        }
    }
    true
}
