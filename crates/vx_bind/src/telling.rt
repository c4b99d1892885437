//! What is told of names, one after another.
ghost use Rattle.std.specs.Prelude.{◌≡◌, ◌≤◌, List, IfOk};
ghost use Rattle.vx_syntax.specs.Expressions.{Bytes};
ghost use Rattle.vx_node.specs.Nodes.{rank, IsWellFormed};
ghost use Rattle.vx_node.specs.declared.node.NodeId.TheVariants as node;
ghost use Rattle.vx_node.specs.declared.answer.Bound as bounds;
ghost use Rattle.vx_node.specs.Asking.{Asking, gives, asks, each};
ghost use Rattle.vx_node.specs.Askers.{Follows, Leaves};
ghost use Rattle.vx_compilation.specs.Readings.{ask_base, base_in};
ghost use Rattle.vx_answers.specs.SendRows as rows;
ghost use Rattle.vx_answers.specs.SendRows.{about, beside, names_in};
ghost use Rattle.vx_bind.specs.Sides.{filter_of};

use crate::order::About;
use sqlite_items::Items;
use std::alloc::{AllocError, Global};
use vx_names::{Name, copy_names};
use vx_node::{Answer, Asker, Filter, Halt, NodeId, Tracer};
use vx_walks::learn_node;

/// Which names are asked for beside a name.
#[derive(Clone, Copy)]
pub enum Side {
    /// Those above it.
    Above,
    /// The plain objects below it.
    Below,
}

/// What is told of each of the names: its base and the names above it.
pub fn abouts<A: Asker>(
    alloc: Global,
    t: &mut Tracer<A>,
    names: &[Name],
) -> Result<Items<About>, Halt>
    requires ready { A.ready t.old.asker.now }
    requires low { 1 ≤ A.greatest }
    ensures ready { A.ready t.new.asker.now }
    ensures same { t.new.asker.ghost_name ≡ t.old.asker.ghost_name }
    ensures leaves { (go : List rows.About → Asking bounds.Bound) → Leaves A.manner (each about names.now go) go result
        t.old.asker.now t.old.trace t.new.asker.now t.new.trace }
{
    let mut abouts = Items::new(alloc);
    for x in names {
        match about(alloc, t, x) {
            Ok(one) => abouts.push(one)?,
            Err(halt) => return Err(halt),
        }
    }
    Ok(abouts)
}

/// Each of the names, with those that stand beside it.
pub fn besides<A: Asker>(
    alloc: Global,
    t: &mut Tracer<A>,
    side: Side,
    names: &[Name],
) -> Result<Items<(Name, Items<Name>)>, Halt>
    requires ready { A.ready t.old.asker.now }
    requires low { 1 ≤ A.greatest }
    ensures ready { A.ready t.new.asker.now }
    ensures same { t.new.asker.ghost_name ≡ t.old.asker.ghost_name }
    ensures leaves { (go : List (Bytes × List Bytes) → Asking bounds.Bound) → Leaves A.manner (each (beside (filter_of side)) names.now go) go result
        t.old.asker.now t.old.trace t.new.asker.now t.new.trace }
{
    let mut told = Items::new(alloc);
    for x in names {
        match beside(alloc, t, side, x) {
            Ok(one) => told.push(one)?,
            Err(halt) => return Err(halt),
        }
    }
    Ok(told)
}

fn about<A: Asker>(alloc: Global, t: &mut Tracer<A>, x: &Name) -> Result<About, Halt>
    requires ready { A.ready t.old.asker.now }
    requires low { 1 ≤ A.greatest }
    ensures ready { A.ready t.new.asker.now }
    ensures same { t.new.asker.ghost_name ≡ t.old.asker.ghost_name }
    ensures follows { Follows A.manner (about x.now) result t.old.asker.now t.old.trace t.new.asker.now t.new.trace }
{
    let own = x.copy(alloc)?;
    let base = match base(alloc, t, x) {
        Ok(base) => base,
        Err(halt) => return Err(halt),
    };
    let up = match names_beside(alloc, t, Side::Above, x) {
        Ok(up) => up,
        Err(halt) => return Err(halt),
    };
    Ok(About::new(own, base, up))
}

fn beside<A: Asker>(
    alloc: Global,
    t: &mut Tracer<A>,
    side: Side,
    x: &Name,
) -> Result<(Name, Items<Name>), Halt>
    requires ready { A.ready t.old.asker.now }
    requires low { 1 ≤ A.greatest }
    ensures ready { A.ready t.new.asker.now }
    ensures same { t.new.asker.ghost_name ≡ t.old.asker.ghost_name }
    ensures follows { Follows A.manner (beside (filter_of side) x.now) result t.old.asker.now t.old.trace t.new.asker.now t.new.trace }
{
    let own = x.copy(alloc)?;
    let names = match names_beside(alloc, t, side, x) {
        Ok(names) => names,
        Err(halt) => return Err(halt),
    };
    Ok((own, names))
}

fn base<A: Asker>(alloc: Global, t: &mut Tracer<A>, x: &Name) -> Result<Option<Name>, Halt>
    requires ready { A.ready t.old.asker.now }
    requires low { 1 ≤ A.greatest }
    ensures ready { A.ready t.new.asker.now }
    ensures same { t.new.asker.ghost_name ≡ t.old.asker.ghost_name }
    ensures follows { Follows A.manner (ask_base x.now gives) result t.old.asker.now t.old.trace t.new.asker.now t.new.trace }
{
    let node = NodeId::Filter(Filter::Base(x.copy(alloc)?));
    let at = match learn_node(t, node) {
        Ok(at) => at,
        Err(halt) => return Err(halt),
    };
    let base = base_in(alloc, t.answer(at))?;
    Ok(base)
}

fn names_beside<A: Asker>(
    alloc: Global,
    t: &mut Tracer<A>,
    side: Side,
    x: &Name,
) -> Result<Items<Name>, Halt>
    requires ready { A.ready t.old.asker.now }
    requires low { 1 ≤ A.greatest }
    ensures ready { A.ready t.new.asker.now }
    ensures same { t.new.asker.ghost_name ≡ t.old.asker.ghost_name }
    ensures follows { Follows A.manner (asks (node.Filter (filter_of side x.now)) (λ answer. gives (names_in answer))) result
        t.old.asker.now t.old.trace t.new.asker.now t.new.trace }
{
    let node = node_of(alloc, side, x)?;
    let at = match learn_node(t, node) {
        Ok(at) => at,
        Err(halt) => return Err(halt),
    };
    let names = names_in(alloc, t.answer(at))?;
    Ok(names)
}

fn node_of(alloc: Global, side: Side, x: &Name) -> Result<NodeId, AllocError>
    ensures node { IfOk result (λ one. one ≡ node.Filter (filter_of side x.now)) }
    ensures low { IfOk result (λ one. (rank one ≤ 1) × IsWellFormed one) }
{
    let own = x.copy(alloc)?;
    Ok(match side {
        Side::Above => NodeId::Filter(Filter::Up(own)),
        Side::Below => NodeId::Filter(Filter::Cone(own)),
    })
}

fn base_in(alloc: Global, answer: &Answer) -> Result<Option<Name>, AllocError>
    ensures { IfOk result (λ base. base ≡ base_in answer.now) }
{
    match answer {
        Answer::Base(Some(base)) => Ok(Some(base.copy(alloc)?)),
        _ => Ok(None),
    }
}

fn names_in(alloc: Global, answer: &Answer) -> Result<Items<Name>, AllocError>
    ensures { IfOk result (λ names. names ≡ names_in answer.now) }
{
    match answer {
        Answer::Up(names) => copy_names(alloc, names.as_slice()),
        Answer::Cone(names) => copy_names(alloc, names.as_slice()),
        _ => Ok(Items::new(alloc)),
    }
}
