ghost use Rattle.std.specs.Prelude.{◌≡◌, ◌≤◌, ◌<◌, ◌+◌, ℕ, suc, drop, length, OnOk, Some, slice_get};
ghost use Rattle.vx_node.specs.Askers.{Follows, Leaves, Learns};
ghost use Rattle.vx_answers.specs.OrderRows.{walk, walk_from, most_names};
ghost use Rattle.vx_walks.specs.Ways.{way_of};

use crate::learning::learn_node;
use crate::names::{meet, put_name};
use crate::ways::{Way, node_of, onward};
use sqlite_items::Items;
use std::alloc::Global;
use vx_answers::MOST_NAMES;
use vx_names::Name;
use vx_node::{Asker, Halt, Tracer};

/// A walk from a name: the names that it comes to and that are there, in byte order.
pub fn walk<A: Asker>(
    alloc: Global,
    t: &mut Tracer<A>,
    way: Way,
    x: &Name,
) -> Result<Items<Name>, Halt>
    requires ready { A.ready t.old.asker.now }
    ensures ready { A.ready t.new.asker.now }
    ensures same { t.new.asker.ghost_name ≡ t.old.asker.ghost_name }
    ensures follows { Follows A.manner (walk_from (way_of way) x.now) result t.old.asker.now t.old.trace t.new.asker.now t.new.trace }
{
    let mut met = Items::new(alloc);
    met.push(x.copy(alloc)?)?;
    let mut found = Vec::new(alloc);
    let mut place = 0;
    while place < met.len() {
        match step(alloc, t, way, &mut met, &mut found, place) {
            Ok(()) => {}
            Err(halt) => return Err(halt),
        }
        place += 1;
    }
    Ok(Items::from_vec(found))
}

// Asks of the name at the place, and meets those to which its answer leads on.
fn step<A: Asker>(
    alloc: Global,
    t: &mut Tracer<A>,
    way: Way,
    met: &mut Items<Name>,
    found: &mut Vec<Name>,
    place: usize,
) -> Result<(), Halt>
    requires within { place < length met.old }
    requires ready { A.ready t.old.asker.now }
    ensures ready { A.ready t.new.asker.now }
    ensures same { t.new.asker.ghost_name ≡ t.old.asker.ghost_name }
    ensures leaves { (steps : ℕ) → Leaves A.manner (walk (way_of way) (suc steps) met.old (drop place met.old) found.old.items)
        (λ _. walk (way_of way) steps met.new (drop (place + 1) met.new) found.new.items) result t.old.asker.now t.old.trace t.new.asker.now t.new.trace }
    ensures longer { OnOk result (length met.old ≤ length met.new) }
    ensures count { length met.old ≤ most_names → OnOk result (length met.new ≤ most_names) }
{
    let x = met.as_slice()[place].copy(alloc)?;
    let at = match learn(alloc, t, way, &x) {
        Ok(at) => at,
        Err(halt) => return Err(halt),
    };
    match onward(alloc, way, t.answer(at))? {
        Some(names) => {
            meet(alloc, met, names.as_slice())?;
            if met.len() > MOST_NAMES {
                return Err(Halt::Mixed(node_of(alloc, way, &x)?));
            }
            put_name(found, x)?;
            Ok(())
        }
        None => Ok(()),
    }
}

// Learns what the walk asks of the name.
fn learn<A: Asker>(alloc: Global, t: &mut Tracer<A>, way: Way, x: &Name) -> Result<usize, Halt>
    requires ready { A.ready t.old.asker.now }
    ensures ready { A.ready t.new.asker.now }
    ensures same { t.new.asker.ghost_name ≡ t.old.asker.ghost_name }
    ensures learns { Learns A.manner ((way_of way).node x.now) result t.old.asker.now t.old.trace t.new.asker.now t.new.trace }
{
    let node = node_of(alloc, way, x)?;
    learn_node(t, node)
}
