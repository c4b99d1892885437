ghost use Rattle.std.specs.Prelude.{◌≡◌, ◌≤◌, IfOk};
ghost use Rattle.std.specs.Option.{option_copied};
ghost use Rattle.vx_node.specs.Asking.{gives};
ghost use Rattle.vx_node.specs.Askers.{Follows};
ghost use Rattle.vx_compilation.specs.Readings.{ask_heads, heads_in};
ghost use Rattle.vx_answers.specs.SendRows.{bind_among, bind_row};

use crate::deciding::decide;
use crate::order::Order;
use crate::telling::{Side, abouts, besides};
use crate::wanted::{cones_asked, info_objects, specialisers_asked};
use sqlite_items::Items;
use std::alloc::{AllocError, Global};
use vx_names::{MethodKey, Selector};
use vx_node::{Answer, Asker, Bound, Fact, Halt, Info, Kind, NodeId, Tracer};
use vx_walks::learn_node;

/// The method that a message finds whatever its values are, as far as infos tell; with `below`, one of those behind that
/// method. It is open where that depends on the values, and of nobody where the selector has no methods.
pub fn bind<A: Asker>(
    alloc: Global,
    t: &mut Tracer<A>,
    selector: &Selector,
    infos: &[Info],
    below: Option<&MethodKey>,
) -> Result<Bound, Halt>
    requires ready { A.ready t.old.asker.now }
    requires low { 1 ≤ A.greatest }
    ensures ready { A.ready t.new.asker.now }
    ensures same { t.new.asker.ghost_name ≡ t.old.asker.ghost_name }
    ensures follows { Follows A.manner (bind_row selector.now infos.now (option_copied below.entry)) result
        t.old.asker.now t.old.trace t.new.asker.now t.new.trace }
{
    let heads = match heads(alloc, t, selector) {
        Ok(heads) => heads,
        Err(halt) => return Err(halt),
    };
    bind_among(alloc, t, heads.as_slice(), infos, below)
}

// The same, where the methods of the selector are known.
fn bind_among<A: Asker>(
    alloc: Global,
    t: &mut Tracer<A>,
    heads: &[(MethodKey, Kind)],
    infos: &[Info],
    below: Option<&MethodKey>,
) -> Result<Bound, Halt>
    requires ready { A.ready t.old.asker.now }
    requires low { 1 ≤ A.greatest }
    ensures ready { A.ready t.new.asker.now }
    ensures same { t.new.asker.ghost_name ≡ t.old.asker.ghost_name }
    ensures follows { Follows A.manner (bind_among heads.now infos.now (option_copied below.entry)) result
        t.old.asker.now t.old.trace t.new.asker.now t.new.trace }
{
    let specialisers = specialisers_asked(alloc, heads, below)?;
    let abouts = match abouts(alloc, t, specialisers.as_slice()) {
        Ok(abouts) => abouts,
        Err(halt) => return Err(halt),
    };
    let objects = info_objects(alloc, infos)?;
    let ups = match besides(alloc, t, Side::Above, objects.as_slice()) {
        Ok(ups) => ups,
        Err(halt) => return Err(halt),
    };
    let classes = cones_asked(alloc, abouts.as_slice(), heads, below, infos)?;
    let cones = match besides(alloc, t, Side::Below, classes.as_slice()) {
        Ok(cones) => cones,
        Err(halt) => return Err(halt),
    };
    let order = Order { abouts, ups, cones };
    let bound = decide(alloc, &order, heads, infos, below)?;
    Ok(bound)
}

fn heads<A: Asker>(
    alloc: Global,
    t: &mut Tracer<A>,
    selector: &Selector,
) -> Result<Items<(MethodKey, Kind)>, Halt>
    requires ready { A.ready t.old.asker.now }
    ensures ready { A.ready t.new.asker.now }
    ensures same { t.new.asker.ghost_name ≡ t.old.asker.ghost_name }
    ensures follows { Follows A.manner (ask_heads selector.now gives) result t.old.asker.now t.old.trace t.new.asker.now t.new.trace }
{
    let node = NodeId::Fact(Fact::Heads(selector.copy(alloc)?));
    let at = match learn_node(t, node) {
        Ok(at) => at,
        Err(halt) => return Err(halt),
    };
    let heads = heads_in(alloc, t.answer(at))?;
    Ok(heads)
}

fn heads_in(alloc: Global, answer: &Answer) -> Result<Items<(MethodKey, Kind)>, AllocError>
    ensures { IfOk result (λ heads. heads ≡ heads_in answer.now) }
{
    match answer.copy(alloc)? {
        Answer::Heads(heads) => Ok(heads),
        _ => Ok(Items::new(alloc)),
    }
}
