//! Slots in key order.
ghost use Rattle.std.specs.Prelude.{◌≡◌, ◌≤◌, ◌++◌, length, insert, IfOk, OnOk};
ghost use Rattle.std.specs.Ordering.{is_lt};
ghost use Rattle.vx_names.specs.Key.{decl_key_cmp};
ghost use Rattle.vx_names.specs.declared.key.DeclKey.TheVariants as decl_keys;
ghost use Rattle.vx_answers.specs.FieldRows.{joined, in_key_order, with_slot, goes_before};
ghost use Rattle.vx_fields.specs.Questions.{gathered};

use sqlite_items::Items;
use std::alloc::{AllocError, Global};
use std::cmp::Ordering;
use vx_names::FieldKey;
use vx_syntax::Start;

/// The slots of all lists, one list behind another.
pub fn joined(
    alloc: Global,
    lists: &[Items<(FieldKey, Start)>],
) -> Result<Items<(FieldKey, Start)>, AllocError>
    ensures { IfOk result (λ slots. slots ≡ joined lists.now) }
{
    let mut all = Items::new(alloc);
    for slots in lists {
        push_all(alloc, &mut all, slots.as_slice())?;
    }
    Ok(all)
}

/// The slots of all lists, those of the last list first.
pub fn joined_back(
    alloc: Global,
    lists: &[Items<(FieldKey, Start)>],
) -> Result<Items<(FieldKey, Start)>, AllocError>
    ensures { IfOk result (λ slots. slots ≡ gathered lists.now) }
{
    let mut all = Items::new(alloc);
    let mut left = lists.len();
    while left > 0 {
        left -= 1;
        push_all(alloc, &mut all, lists[left].as_slice())?;
    }
    Ok(all)
}

fn push_all(
    alloc: Global,
    all: &mut Items<(FieldKey, Start)>,
    slots: &[(FieldKey, Start)],
) -> Result<(), AllocError>
    ensures { OnOk result (all.new ≡ all.old ++ slots.now) }
{
    for slot in slots {
        all.push((slot.0.copy(alloc)?, slot.1.copy(alloc)?))?;
    }
    Ok(())
}

/// The slots in key order.
pub fn in_key_order(
    alloc: Global,
    slots: &[(FieldKey, Start)],
) -> Result<Items<(FieldKey, Start)>, AllocError>
    ensures { IfOk result (λ all. all ≡ in_key_order slots.now) }
{
    let mut all = Vec::new(alloc);
    let mut left = slots.len();
    while left > 0 {
        left -= 1;
        put_slot(alloc, &mut all, &slots[left].0, &slots[left].1)?;
    }
    Ok(Items::from_vec(all))
}

// Puts a slot in its place.
fn put_slot(
    alloc: Global,
    all: &mut Vec<(FieldKey, Start)>,
    key: &FieldKey,
    start: &Start,
) -> Result<(), AllocError>
    ensures { OnOk result (all.new.items ≡ with_slot (key.now, start.now) all.old.items) }
{
    let place = place_for(all.as_slice(), key, start);
    all.insert(place, (key.copy(alloc)?, start.copy(alloc)?))?;
    Ok(())
}

fn place_for(slots: &[(FieldKey, Start)], key: &FieldKey, start: &Start) -> usize
    ensures within { result ≤ length slots.now }
    ensures place { with_slot (key.now, start.now) slots.now ≡ insert slots.now result (key.now, start.now) }
{
    for (place, slot) in slots.iter().enumerate() {
        if goes_before(key, &slot.0) {
            return place;
        }
    }
    slots.len()
}

fn goes_before(key: &FieldKey, other: &FieldKey) -> bool
    ensures { result ≡ is_lt (decl_key_cmp (decl_keys.Field key.now) (decl_keys.Field other.now)) }
{
    match key.name.cmp(&other.name) {
        Ordering::Less => true,
        Ordering::Greater => false,
        Ordering::Equal => key.specialiser.cmp(&other.specialiser) == Ordering::Less,
    }
}
