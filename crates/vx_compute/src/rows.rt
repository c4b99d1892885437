//! The answers of filters and targets, each by its pass.
ghost use Rattle.std.specs.Prelude.{◌≡◌, ◌≤◌, ◌<◌, ◌+◌, IsOk};
ghost use Rattle.vx_node.specs.Nodes.{rank, IsWellFormed};
ghost use Rattle.vx_node.specs.Askers.{Follows};
ghost use Rattle.vx_answers.specs.SendRows.{bind_row};
ghost use Rattle.vx_answers.specs.Answers.{row, filter_row, target_row, IsBuilt};

use std::alloc::Global;
use vx_bind::bind;
use vx_fields::{field_at, shape, slots};
use vx_inline::inlinable;
use vx_names::{MethodKey, Selector};
use vx_node::{Answer, Asker, Bound, Filter, Halt, Infos, NodeId, Target, Tracer};
use vx_order::{base, cone, up};

/// The answer of a filter or a target, out of what its row asks. The rows that have no pass yet want memory.
pub fn answer<A: Asker>(alloc: Global, t: &mut Tracer<A>, node: &NodeId) -> Result<Answer, Halt>
    requires low { rank node.now ≤ A.greatest + 1 }
    requires ready { A.ready t.old.asker.now }
    ensures ready { A.ready t.new.asker.now }
    ensures same { t.new.asker.ghost_name ≡ t.old.asker.ghost_name }
    ensures built { IsOk result → IsBuilt node.now }
    ensures follows { Follows A.manner (row node.now) result t.old.asker.now t.old.trace t.new.asker.now t.new.trace }
{
    match node {
        NodeId::Filter(filter) => filter_answer(alloc, t, filter),
        NodeId::Target(target) => target_answer(alloc, t, target),
        NodeId::Fact(_) => Err(Halt::OutOfMemory),
    }
}

fn filter_answer<A: Asker>(
    alloc: Global,
    t: &mut Tracer<A>,
    filter: &Filter,
) -> Result<Answer, Halt>
    requires low { rank (NodeId.Filter filter.now) ≤ A.greatest + 1 }
    requires ready { A.ready t.old.asker.now }
    ensures ready { A.ready t.new.asker.now }
    ensures same { t.new.asker.ghost_name ≡ t.old.asker.ghost_name }
    ensures built { IsOk result → IsBuilt (NodeId.Filter filter.now) }
    ensures follows { Follows A.manner (filter_row filter.now) result t.old.asker.now t.old.trace t.new.asker.now t.new.trace }
{
    match filter {
        Filter::Up(x) => match up(alloc, t, x) {
            Ok(names) => Ok(Answer::Up(names)),
            Err(halt) => Err(halt),
        },
        Filter::Cone(x) => match cone(alloc, t, x) {
            Ok(names) => Ok(Answer::Cone(names)),
            Err(halt) => Err(halt),
        },
        Filter::Base(x) => match base(alloc, t, x) {
            Ok(name) => Ok(Answer::Base(name)),
            Err(halt) => Err(halt),
        },
        Filter::Slots(x) => match slots(alloc, t, x) {
            Ok(slots) => Ok(Answer::Slots(slots)),
            Err(halt) => Err(halt),
        },
        Filter::Field(class, name) => match field_at(alloc, t, class, name) {
            Ok(key) => Ok(Answer::Field(key)),
            Err(halt) => Err(halt),
        },
        Filter::Inline(key) => match inlinable(alloc, t, key) {
            Ok(own) => Ok(Answer::Inline(own)),
            Err(halt) => Err(halt),
        },
        Filter::Bind(selector, infos, below) => match bound(alloc, t, selector, infos, below) {
            Ok(bound) => Ok(Answer::Bind(bound)),
            Err(halt) => Err(halt),
        },
        _ => Err(Halt::OutOfMemory),
    }
}

fn bound<A: Asker>(
    alloc: Global,
    t: &mut Tracer<A>,
    selector: &Selector,
    infos: &Infos,
    below: &Option<MethodKey>,
) -> Result<Bound, Halt>
    requires low { 1 ≤ A.greatest }
    requires ready { A.ready t.old.asker.now }
    ensures ready { A.ready t.new.asker.now }
    ensures same { t.new.asker.ghost_name ≡ t.old.asker.ghost_name }
    ensures follows { Follows A.manner (bind_row selector.now infos.now below.now) result t.old.asker.now t.old.trace t.new.asker.now t.new.trace }
{
    bind(alloc, t, selector, infos.as_slice(), below.as_ref())
}

fn target_answer<A: Asker>(
    alloc: Global,
    t: &mut Tracer<A>,
    target: &Target,
) -> Result<Answer, Halt>
    requires low { 3 ≤ A.greatest }
    requires ready { A.ready t.old.asker.now }
    ensures ready { A.ready t.new.asker.now }
    ensures same { t.new.asker.ghost_name ≡ t.old.asker.ghost_name }
    ensures follows { Follows A.manner (target_row target.now) result t.old.asker.now t.old.trace t.new.asker.now t.new.trace }
{
    match target {
        Target::Shape(x) => match shape(alloc, t, x) {
            Ok(unit) => Ok(Answer::Unit(unit)),
            Err(halt) => Err(halt),
        },
        _ => Err(Halt::OutOfMemory),
    }
}
