//! The fields of classes, and the slots of objects.
ghost use Rattle.std.specs.Prelude.{◌≡◌, ◌||◌, [], ◌∷◌, not, IfOk};
ghost use Rattle.std.specs.List.{list_all};
ghost use Rattle.std.specs.Option.{option_copied, option_to_list};
ghost use Rattle.vx_names.specs.declared.key.FieldKey.{FieldKey};
ghost use Rattle.vx_program.specs.Program.{is_predicate_there, leads};
ghost use Rattle.vx_model.specs.Order.{plain_names};
ghost use Rattle.vx_model.specs.Fields.{field_at, is_lowest, keys_above, may, slots};
ghost use Rattle.vx_model.specs.Holds.{same_field, slot, slot_of};

use crate::above::Above;
use crate::value::{Heap, Value};
use sqlite_items::Items;
use std::alloc::{AllocError, Global};
use vx_names::{FieldKey, Name};
use vx_program::Program;
use vx_syntax::{Decl, Start};

/// The field that the name means for a class: of those whose specialisers are above the class, the one whose specialiser
/// has all the others above it.
pub fn field_at<'a>(program: &'a Program, class: &[u8], name: &Name) -> Option<&'a FieldKey>
    ensures { option_copied result ≡ field_at program.now class.now name.now }
{
    let above = Above::new(program, class);
    for decl in program.declarations() {
        if let Some(key) = key_above(&above, decl, name) {
            if is_lowest(program, &above, name, key) {
                return Some(key);
            }
        }
    }
    None
}

// The key of the declaration, where it is a field of the name and its specialiser is above.
fn key_above<'a>(above: &Above<'_>, decl: &'a Decl, name: &Name) -> Option<&'a FieldKey>
    ensures { option_to_list (option_copied result) ≡ keys_above above.now.0 above.now.1 name.now (decl.now ∷ []) }
{
    match decl {
        Decl::Field { key, .. } => {
            if key.name.bytes() == name.bytes() && above.leads_to(key.specialiser.bytes()) {
                return Some(key);
            }
            None
        }
        _ => None,
    }
}

// Whether the specialisers of all fields of the name that are above are above that of the key, too.
fn is_lowest(program: &Program, above: &Above<'_>, name: &Name, key: &FieldKey) -> bool
    requires { above.now.0 ≡ program.now }
    ensures { result ≡ is_lowest program.now (keys_above program.now above.now.1 name.now program.now) key.now }
{
    let own = Above::new(program, key.specialiser.bytes());
    for decl in program.declarations() {
        if let Some(other) = key_above(above, decl, name) {
            if !own.leads_to(other.specialiser.bytes()) {
                return false;
            }
        }
    }
    true
}

/// The slots of an object of the class, in key order, each with what it has at first.
pub fn slots(
    alloc: Global,
    program: &Program,
    class: &Name,
) -> Result<Items<(FieldKey, Start)>, AllocError>
    ensures { IfOk result (λ found. found ≡ slots program.now class.now) }
{
    let above = Above::new(program, class.bytes());
    let mut slots = Items::new(alloc);
    for decl in program.declarations() {
        if let Decl::Field { key, start, .. } = decl {
            if may(program, &above, &key.specialiser) {
                let key = key.copy(alloc)?;
                slots.push((key, start.copy(alloc)?))?;
            }
        }
    }
    Ok(slots)
}

// Whether an object of the class may come to count as the object or predicate.
fn may(program: &Program, class: &Above<'_>, x: &Name) -> bool
    requires { class.now.0 ≡ program.now }
    ensures { result ≡ may program.now class.now.1 x.now }
{
    if is_predicate_there(program, x) {
        are_above(program, class, x)
    } else {
        class.leads_to(x.bytes())
    }
}

fn is_predicate_there(program: &Program, x: &Name) -> bool
    ensures { result ≡ is_predicate_there program.now x.now }
{
    match program.place(x.bytes()) {
        Some(place) => match &program.declarations()[place] {
            Decl::Predicate { .. } => true,
            _ => false,
        },
        None => false,
    }
}

// Whether all plain objects above the predicate are above the class.
fn are_above(program: &Program, class: &Above<'_>, x: &Name) -> bool
    requires { class.now.0 ≡ program.now }
    ensures { result ≡ list_all (λ plain. not (leads program.now x.now plain) || leads program.now class.now.1 plain) (plain_names program.now) }
{
    let own = Above::new(program, x.bytes());
    for decl in program.declarations() {
        if let Decl::Object { name, .. } = decl {
            if own.leads_to(name.bytes()) && !class.leads_to(name.bytes()) {
                return false;
            }
        }
    }
    true
}

/// What an object has in the slot of the key. Other values have no slots.
pub fn slot_of<'a>(heap: &'a Heap, value: &Value, key: &FieldKey) -> Option<&'a Value>
    ensures { option_copied result ≡ slot_of heap.now value.now key.now }
{
    match value {
        Value::Object(place) => match heap.objects.as_slice().get(*place as usize) {
            Some(thing) => slot(thing.slots.as_slice(), key),
            None => None,
        },
        _ => None,
    }
}

// The first slot of the key.
fn slot<'a>(slots: &'a [(FieldKey, Value)], key: &FieldKey) -> Option<&'a Value>
    ensures { option_copied result ≡ slot key.now slots.now }
{
    for own in slots {
        if is_same_field(&own.0, key) {
            return Some(&own.1);
        }
    }
    None
}

/// Whether two keys are those of one field.
pub fn is_same_field(a: &FieldKey, b: &FieldKey) -> bool
    ensures { result ≡ same_field a.now b.now }
{
    a.name.bytes() == b.name.bytes() && a.specialiser.bytes() == b.specialiser.bytes()
}
