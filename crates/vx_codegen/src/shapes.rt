//! The units of objects.
ghost use Rattle.std.specs.Prelude.{◌≡◌, ◌++◌, IfOk, OnOk};
ghost use Rattle.vx_units.specs.ShapeUnit.{shape_unit, shape_signs, slot_signs, start_signs};
ghost use Rattle.vx_units.specs.Signs.{each};

use crate::unit::Unit;
use sqlite_items::Items;
use std::alloc::{AllocError, Global};
use vx_names::FieldKey;
use vx_node::{Piece, Symbol};
use vx_syntax::Start;

/// The unit of an object with these slots: how many there are, and each field with what the slot holds at first.
pub fn shape(alloc: Global, slots: &[(FieldKey, Start)]) -> Result<Items<Piece>, AllocError>
    ensures { IfOk result (λ unit. unit ≡ shape_unit slots.now) }
{
    let mut unit = Unit::new(alloc);
    append_slots(alloc, &mut unit, slots)?;
    unit.end(alloc)
}

fn append_slots(
    alloc: Global,
    unit: &mut Unit,
    slots: &[(FieldKey, Start)],
) -> Result<(), AllocError>
    ensures { OnOk result (unit.new ≡ unit.old ++ shape_signs slots.now) }
{
    unit.count(slots.len() as u64)?;
    append_each_slot(alloc, unit, slots)
}

fn append_each_slot(
    alloc: Global,
    unit: &mut Unit,
    slots: &[(FieldKey, Start)],
) -> Result<(), AllocError>
    ensures { OnOk result (unit.new ≡ unit.old ++ each slot_signs slots.now) }
{
    for slot in slots {
        append_slot(alloc, unit, &slot.0, &slot.1)?;
    }
    Ok(())
}

fn append_slot(
    alloc: Global,
    unit: &mut Unit,
    key: &FieldKey,
    start: &Start,
) -> Result<(), AllocError>
    ensures { OnOk result (unit.new ≡ unit.old ++ slot_signs (key.now, start.now)) }
{
    unit.name(alloc, Symbol::Field(key.copy(alloc)?))?;
    append_start(unit, start)
}

fn append_start(unit: &mut Unit, start: &Start) -> Result<(), AllocError>
    ensures { OnOk result (unit.new ≡ unit.old ++ start_signs start.now) }
{
    match start {
        Start::Nil => unit.byte(0),
        Start::False => unit.byte(1),
        Start::True => unit.byte(2),
        Start::Int(n) => {
            unit.byte(3)?;
            unit.integer(n)
        }
        Start::Text(text) => {
            unit.byte(4)?;
            unit.count(text.len() as u64)?;
            unit.text(text.as_slice())
        }
    }
}
