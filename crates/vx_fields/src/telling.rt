//! What is told of names, one after another.
ghost use Rattle.std.specs.Prelude.{◌≡◌, List, Option, IfOk};
ghost use Rattle.vx_names.specs.declared.key.FieldKey.{FieldKey};
ghost use Rattle.vx_syntax.specs.Expressions.{Bytes};
ghost use Rattle.vx_node.specs.declared.node.NodeId.TheVariants as node;
ghost use Rattle.vx_node.specs.declared.node.Fact.TheVariants as fact;
ghost use Rattle.vx_node.specs.Asking.{Asking, gives, asks, each, followed};
ghost use Rattle.vx_node.specs.Askers.{Follows, Leaves};
ghost use Rattle.vx_answers.specs.OrderRows.{up_row};
ghost use Rattle.vx_answers.specs.FieldRows.{Slot, slots_in};
ghost use Rattle.vx_answers.specs.FieldRows as spec;
ghost use Rattle.vx_fields.specs.Questions.{fields_of, with_above};

use sqlite_items::Items;
use std::alloc::{AllocError, Global};
use vx_names::{FieldKey, Name};
use vx_node::{Answer, Asker, Fact, Halt, NodeId, Tracer};
use vx_syntax::Start;
use vx_walks::{Way, learn_node, walk};

/// The fields of each of the names, as slots.
pub fn fields_of_each<A: Asker>(
    alloc: Global,
    t: &mut Tracer<A>,
    names: &[Name],
) -> Result<Items<Items<(FieldKey, Start)>>, Halt>
    requires ready { A.ready t.old.asker.now }
    ensures ready { A.ready t.new.asker.now }
    ensures same { t.new.asker.ghost_name ≡ t.old.asker.ghost_name }
    ensures leaves { (go : List (List Slot) → Asking (List Slot)) → Leaves A.manner (each fields_of names.now go) go result
        t.old.asker.now t.old.trace t.new.asker.now t.new.trace }
{
    let mut all = Items::new(alloc);
    for x in names {
        match fields_of(alloc, t, x) {
            Ok(slots) => all.push(slots)?,
            Err(halt) => return Err(halt),
        }
    }
    Ok(all)
}

/// The fields of a name, as slots.
pub fn fields_of<A: Asker>(
    alloc: Global,
    t: &mut Tracer<A>,
    x: &Name,
) -> Result<Items<(FieldKey, Start)>, Halt>
    requires ready { A.ready t.old.asker.now }
    ensures ready { A.ready t.new.asker.now }
    ensures same { t.new.asker.ghost_name ≡ t.old.asker.ghost_name }
    ensures follows { Follows A.manner (fields_of x.now) result t.old.asker.now t.old.trace t.new.asker.now t.new.trace }
{
    let node = NodeId::Fact(Fact::Fields(x.copy(alloc)?));
    let at = match learn_node(t, node) {
        Ok(at) => at,
        Err(halt) => return Err(halt),
    };
    let slots = slots_in(alloc, x, t.answer(at))?;
    Ok(slots)
}

fn slots_in(
    alloc: Global,
    x: &Name,
    answer: &Answer,
) -> Result<Items<(FieldKey, Start)>, AllocError>
    ensures { IfOk result (λ slots. slots ≡ slots_in x.now answer.now) }
{
    match answer {
        Answer::Fields(fields) => slots_on(alloc, x, fields.as_slice()),
        _ => Ok(Items::new(alloc)),
    }
}

fn slots_on(
    alloc: Global,
    x: &Name,
    fields: &[(Name, Start, bool)],
) -> Result<Items<(FieldKey, Start)>, AllocError>
    ensures { IfOk result (λ slots. slots ≡ spec.slots_on x.now fields.now) }
{
    let mut slots = Items::new(alloc);
    for field in fields {
        let key = FieldKey {
            name: field.0.copy(alloc)?,
            specialiser: x.copy(alloc)?,
        };
        slots.push((key, field.1.copy(alloc)?))?;
    }
    Ok(slots)
}

/// Each of the keys, with the names above its specialiser.
pub fn above_each<A: Asker>(
    alloc: Global,
    t: &mut Tracer<A>,
    keys: &[FieldKey],
) -> Result<Items<(FieldKey, Items<Name>)>, Halt>
    requires ready { A.ready t.old.asker.now }
    ensures ready { A.ready t.new.asker.now }
    ensures same { t.new.asker.ghost_name ≡ t.old.asker.ghost_name }
    ensures leaves { (go : List (FieldKey × List Bytes) → Asking (Option FieldKey)) → Leaves A.manner (each with_above keys.now go) go result
        t.old.asker.now t.old.trace t.new.asker.now t.new.trace }
{
    let mut all = Items::new(alloc);
    for key in keys {
        match with_above(alloc, t, key) {
            Ok(one) => all.push(one)?,
            Err(halt) => return Err(halt),
        }
    }
    Ok(all)
}

fn with_above<A: Asker>(
    alloc: Global,
    t: &mut Tracer<A>,
    key: &FieldKey,
) -> Result<(FieldKey, Items<Name>), Halt>
    requires ready { A.ready t.old.asker.now }
    ensures ready { A.ready t.new.asker.now }
    ensures same { t.new.asker.ghost_name ≡ t.old.asker.ghost_name }
    ensures follows { Follows A.manner (with_above key.now) result t.old.asker.now t.old.trace t.new.asker.now t.new.trace }
{
    let own = key.copy(alloc)?;
    match walk(alloc, t, Way::Upward, &key.specialiser) {
        Ok(names) => Ok((own, names)),
        Err(halt) => Err(halt),
    }
}
