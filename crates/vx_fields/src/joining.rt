//! Which predicates come to be met.
ghost use Rattle.std.specs.Prelude.{◌≡◌, ◌≤◌, ◌∷◌, ◌&&◌, not, List, drop, length, OnOk, IfOk};
ghost use Rattle.std.specs.List.{list_all};
ghost use Rattle.vx_syntax.specs.Expressions.{Bytes};
ghost use Rattle.vx_program.specs.Program.{is_name_of};
ghost use Rattle.vx_node.specs.declared.node.NodeId.TheVariants as node;
ghost use Rattle.vx_node.specs.declared.node.Fact.TheVariants as fact;
ghost use Rattle.vx_node.specs.Asking.{Asking};
ghost use Rattle.vx_node.specs.Askers.{Leaves, Learns};
ghost use Rattle.vx_answers.specs.FieldRows.{Slot, joining, may_hold};

use sqlite_items::Items;
use std::alloc::{AllocError, Global};
use vx_answers::MOST_NAMES;
use vx_names::Name;
use vx_node::{Answer, Asker, Fact, Halt, Known, NodeId, Tracer};
use vx_walks::{is_one, learn_node};

/// Meets those of the predicates that may come to hold, all of whose parents are met. The names from the place on are left
/// to be asked of.
pub fn join<A: Asker>(
    alloc: Global,
    t: &mut Tracer<A>,
    met: &mut Items<Name>,
    place: usize,
    predicates: &[Name],
) -> Result<(), Halt>
    requires within { place ≤ length met.old }
    requires ready { A.ready t.old.asker.now }
    ensures ready { A.ready t.new.asker.now }
    ensures same { t.new.asker.ghost_name ≡ t.old.asker.ghost_name }
    ensures leaves { (go : List Bytes → List Bytes → Asking (List Slot)) → Leaves A.manner (joining met.old (drop place met.old) predicates.now go)
        (λ _. go met.new (drop place met.new)) result t.old.asker.now t.old.trace t.new.asker.now t.new.trace }
    ensures longer { OnOk result (length met.old ≤ length met.new) }
{
    for x in predicates {
        match join_one(alloc, t, met, place, x) {
            Ok(()) => {}
            Err(halt) => return Err(halt),
        }
    }
    Ok(())
}

fn join_one<A: Asker>(
    alloc: Global,
    t: &mut Tracer<A>,
    met: &mut Items<Name>,
    place: usize,
    x: &Name,
) -> Result<(), Halt>
    requires within { place ≤ length met.old }
    requires ready { A.ready t.old.asker.now }
    ensures ready { A.ready t.new.asker.now }
    ensures same { t.new.asker.ghost_name ≡ t.old.asker.ghost_name }
    ensures leaves { (xs : List Bytes) (go : List Bytes → List Bytes → Asking (List Slot)) →
        Leaves A.manner (joining met.old (drop place met.old) (x.now ∷ xs) go) (λ _. joining met.new (drop place met.new) xs go) result
        t.old.asker.now t.old.trace t.new.asker.now t.new.trace }
    ensures longer { OnOk result (length met.old ≤ length met.new) }
{
    let at = match learn_decl(alloc, t, x) {
        Ok(at) => at,
        Err(halt) => return Err(halt),
    };
    if !joins(met.as_slice(), x, t.answer(at)) {
        return Ok(());
    }
    met.push(x.copy(alloc)?)?;
    if met.len() > MOST_NAMES {
        return Err(Halt::Mixed(decl_node(alloc, x)?));
    }
    Ok(())
}

// Whether it is a predicate that is not met yet, and all of whose parents are.
fn joins(met: &[Name], x: &Name, answer: &Answer) -> bool
    ensures { result ≡ (may_hold met.now answer.now && not (is_name_of met.now x.now)) }
{
    may_hold(met, answer) && !is_one(met, x.bytes())
}

fn may_hold(met: &[Name], answer: &Answer) -> bool
    ensures { result ≡ may_hold met.now answer.now }
{
    match answer {
        Answer::Decl(Known::Predicate(parents, _)) => are_met(met, parents.as_slice()),
        _ => false,
    }
}

fn are_met(met: &[Name], parents: &[Name]) -> bool
    ensures { result ≡ list_all (is_name_of met.now) parents.now }
{
    for parent in parents {
        if !is_one(met, parent.bytes()) {
            return false;
        }
    }
    true
}

fn decl_node(alloc: Global, x: &Name) -> Result<NodeId, AllocError>
    ensures { IfOk result (λ own. own ≡ node.Fact (fact.Decl x.now)) }
{
    Ok(NodeId::Fact(Fact::Decl(x.copy(alloc)?)))
}

fn learn_decl<A: Asker>(alloc: Global, t: &mut Tracer<A>, x: &Name) -> Result<usize, Halt>
    requires ready { A.ready t.old.asker.now }
    ensures ready { A.ready t.new.asker.now }
    ensures same { t.new.asker.ghost_name ≡ t.old.asker.ghost_name }
    ensures learns { Learns A.manner (node.Fact (fact.Decl x.now)) result t.old.asker.now t.old.trace t.new.asker.now t.new.trace }
{
    learn_node(t, NodeId::Fact(Fact::Decl(x.copy(alloc)?)))
}
