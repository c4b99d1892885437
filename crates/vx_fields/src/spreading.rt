//! The slots of objects.
ghost use Rattle.std.specs.Prelude.{◌≡◌, ◌≤◌, ◌<◌, ◌+◌, [], ℕ, suc, drop, length, OnOk, IfOk};
ghost use Rattle.vx_node.specs.declared.node.NodeId.TheVariants as node;
ghost use Rattle.vx_node.specs.declared.node.Fact.TheVariants as fact;
ghost use Rattle.vx_node.specs.Askers.{Follows, Leaves};
ghost use Rattle.vx_answers.specs.OrderRows.{most_names};
ghost use Rattle.vx_answers.specs.FieldRows.{slots_row, spread, predicates_in, predicate_ones};
ghost use Rattle.vx_node.specs.Asking.{gives};
ghost use Rattle.vx_fields.specs.Questions.{gathered, predicates_asked};

use crate::joining::join;
use crate::ordering::{in_key_order, joined_back};
use crate::telling::fields_of;
use sqlite_items::Items;
use std::alloc::{AllocError, Global};
use vx_answers::MOST_NAMES;
use vx_names::{FieldKey, Name};
use vx_node::{Answer, Asker, Fact, Halt, NodeId, Stands, Tracer};
use vx_syntax::Start;
use vx_walks::{Way, learn_node, walk};

/// The slots of an object of a class, in key order, each with what it holds at first: the fields on the names above the
/// class and on each predicate as which an object of the class may come to count.
pub fn slots<A: Asker>(
    alloc: Global,
    t: &mut Tracer<A>,
    x: &Name,
) -> Result<Items<(FieldKey, Start)>, Halt>
    requires ready { A.ready t.old.asker.now }
    ensures ready { A.ready t.new.asker.now }
    ensures same { t.new.asker.ghost_name ≡ t.old.asker.ghost_name }
    ensures follows { Follows A.manner (slots_row x.now) result t.old.asker.now t.old.trace t.new.asker.now t.new.trace }
{
    let names = match walk(alloc, t, Way::Upward, x) {
        Ok(names) => names,
        Err(halt) => return Err(halt),
    };
    let found = match spread(alloc, t, names) {
        Ok(found) => found,
        Err(halt) => return Err(halt),
    };
    let slots = in_key_order(alloc, found.as_slice())?;
    Ok(slots)
}

// The fields of the names and of each predicate that is met, those of the last first.
fn spread<A: Asker>(
    alloc: Global,
    t: &mut Tracer<A>,
    names: Items<Name>,
) -> Result<Items<(FieldKey, Start)>, Halt>
    requires ready { A.ready t.old.asker.now }
    ensures ready { A.ready t.new.asker.now }
    ensures same { t.new.asker.ghost_name ≡ t.old.asker.ghost_name }
    ensures follows { Follows A.manner (spread most_names names names []) result t.old.asker.now t.old.trace t.new.asker.now t.new.trace }
{
    let mut lists = Items::new(alloc);
    match spread_lists(alloc, t, names, &mut lists) {
        Ok(()) => {}
        Err(halt) => return Err(halt),
    }
    let found = joined_back(alloc, lists.as_slice())?;
    Ok(found)
}

fn spread_lists<A: Asker>(
    alloc: Global,
    t: &mut Tracer<A>,
    names: Items<Name>,
    lists: &mut Items<Items<(FieldKey, Start)>>,
) -> Result<(), Halt>
    requires none { lists.old ≡ [] }
    requires ready { A.ready t.old.asker.now }
    ensures ready { A.ready t.new.asker.now }
    ensures same { t.new.asker.ghost_name ≡ t.old.asker.ghost_name }
    ensures leaves { Leaves A.manner (spread most_names names names []) (λ _. gives (gathered lists.new)) result
        t.old.asker.now t.old.trace t.new.asker.now t.new.trace }
{
    let mut met = names;
    let mut place = 0;
    while place < met.len() {
        if place >= MOST_NAMES {
            return Err(Halt::Mixed(children_node(alloc, &met.as_slice()[place])?));
        }
        match step(alloc, t, &mut met, lists, place) {
            Ok(()) => {}
            Err(halt) => return Err(halt),
        }
        place += 1;
    }
    Ok(())
}

// Asks of the name at the place.
fn step<A: Asker>(
    alloc: Global,
    t: &mut Tracer<A>,
    met: &mut Items<Name>,
    lists: &mut Items<Items<(FieldKey, Start)>>,
    place: usize,
) -> Result<(), Halt>
    requires within { place < length met.old }
    requires ready { A.ready t.old.asker.now }
    ensures ready { A.ready t.new.asker.now }
    ensures same { t.new.asker.ghost_name ≡ t.old.asker.ghost_name }
    ensures leaves { (steps : ℕ) → Leaves A.manner (spread (suc steps) met.old (drop place met.old) (gathered lists.old))
        (λ _. spread steps met.new (drop (place + 1) met.new) (gathered lists.new)) result t.old.asker.now t.old.trace t.new.asker.now t.new.trace }
    ensures longer { OnOk result (length met.old ≤ length met.new) }
{
    let x = met.as_slice()[place].copy(alloc)?;
    let predicates = match predicates_of(alloc, t, &x) {
        Ok(predicates) => predicates,
        Err(halt) => return Err(halt),
    };
    let slots = match fields_of(alloc, t, &x) {
        Ok(slots) => slots,
        Err(halt) => return Err(halt),
    };
    match join(alloc, t, met, place + 1, predicates.as_slice()) {
        Ok(()) => {}
        Err(halt) => return Err(halt),
    }
    lists.push(slots)?;
    Ok(())
}

fn predicates_of<A: Asker>(alloc: Global, t: &mut Tracer<A>, x: &Name) -> Result<Items<Name>, Halt>
    requires ready { A.ready t.old.asker.now }
    ensures ready { A.ready t.new.asker.now }
    ensures same { t.new.asker.ghost_name ≡ t.old.asker.ghost_name }
    ensures follows { Follows A.manner (predicates_asked x.now) result t.old.asker.now t.old.trace t.new.asker.now t.new.trace }
{
    let node = NodeId::Fact(Fact::Children(x.copy(alloc)?));
    let at = match learn_node(t, node) {
        Ok(at) => at,
        Err(halt) => return Err(halt),
    };
    let names = predicates_in(alloc, t.answer(at))?;
    Ok(names)
}

fn predicates_in(alloc: Global, answer: &Answer) -> Result<Items<Name>, AllocError>
    ensures { IfOk result (λ names. names ≡ predicates_in answer.now) }
{
    match answer {
        Answer::Children(children) => predicate_ones(alloc, children.as_slice()),
        _ => Ok(Items::new(alloc)),
    }
}

fn predicate_ones(alloc: Global, children: &[(Name, Stands)]) -> Result<Items<Name>, AllocError>
    ensures { IfOk result (λ names. names ≡ predicate_ones children.now) }
{
    let mut names = Items::new(alloc);
    for child in children {
        let (x, stands) = child;
        match stands {
            Stands::Predicate => names.push(x.copy(alloc)?)?,
            Stands::Plain => {}
            Stands::Nothing => {}
        }
    }
    Ok(names)
}

fn children_node(alloc: Global, x: &Name) -> Result<NodeId, AllocError>
    ensures { IfOk result (λ own. own ≡ node.Fact (fact.Children x.now)) }
{
    Ok(NodeId::Fact(Fact::Children(x.copy(alloc)?)))
}
