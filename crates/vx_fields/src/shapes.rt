//! The units of objects.
ghost use Rattle.std.specs.Prelude.{◌≡◌, ◌≤◌, [], IfOk};
ghost use Rattle.vx_node.specs.Askers.{Follows};
ghost use Rattle.vx_units.specs.ShapeUnit.{shape_unit};
ghost use Rattle.vx_answers.specs.FieldRows.{shape_row, slots_answered};

use sqlite_items::Items;
use std::alloc::{AllocError, Global};
use vx_names::Name;
use vx_node::{Answer, Asker, Filter, Halt, NodeId, Piece, Tracer};
use vx_walks::learn_node;

/// The unit of an object: its slots as they stand in an image. That of a name that is not there has no slots.
pub fn shape<A: Asker>(alloc: Global, t: &mut Tracer<A>, x: &Name) -> Result<Items<Piece>, Halt>
    requires ready { A.ready t.old.asker.now }
    requires low { 1 ≤ A.greatest }
    ensures ready { A.ready t.new.asker.now }
    ensures same { t.new.asker.ghost_name ≡ t.old.asker.ghost_name }
    ensures follows { Follows A.manner (shape_row x.now) result t.old.asker.now t.old.trace t.new.asker.now t.new.trace }
{
    let node = NodeId::Filter(Filter::Slots(x.copy(alloc)?));
    let at = match learn_node(t, node) {
        Ok(at) => at,
        Err(halt) => return Err(halt),
    };
    let unit = unit_in(alloc, t.answer(at))?;
    Ok(unit)
}

fn unit_in(alloc: Global, answer: &Answer) -> Result<Items<Piece>, AllocError>
    ensures { IfOk result (λ unit. unit ≡ shape_unit (slots_answered answer.now)) }
{
    match answer {
        Answer::Slots(slots) => vx_codegen::shape(alloc, slots.as_slice()),
        _ => no_slots(alloc),
    }
}

fn no_slots(alloc: Global) -> Result<Items<Piece>, AllocError>
    ensures { IfOk result (λ unit. unit ≡ shape_unit []) }
{
    let none = Items::new(alloc);
    vx_codegen::shape(alloc, none.as_slice())
}
