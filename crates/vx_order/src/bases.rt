ghost use Rattle.std.specs.Prelude.{◌≡◌, ℕ, suc, IfOk};
ghost use Rattle.vx_node.specs.Askers.{Follows, Leaves, Learns};
ghost use Rattle.vx_node.specs.declared.node.NodeId.TheVariants as n;
ghost use Rattle.vx_node.specs.declared.node.Fact.TheVariants as f;
ghost use Rattle.vx_answers.specs.OrderRows.{base_row, chain, onward_in};
ghost use Rattle.vx_order.specs.Chains.{chain_of, chained};

use sqlite_items::Items;
use std::alloc::{AllocError, Global};
use vx_answers::MOST_NAMES;
use vx_names::Name;
use vx_node::{Answer, Asker, Fact, Halt, Known, NodeId, Tracer};
use vx_walks::{is_one, learn_node};

/// Where a chain of first parents goes on.
#[derive(Drop)]
pub enum Onward {
    Nowhere,
    Here,
    First(Name),
}

/// The base of an object or a predicate: itself where it is plain, else the base of its first parent. There is none of
/// what is not there.
pub fn base<A: Asker>(alloc: Global, t: &mut Tracer<A>, x: &Name) -> Result<Option<Name>, Halt>
    requires ready { A.ready t.old.asker.now }
    ensures ready { A.ready t.new.asker.now }
    ensures same { t.new.asker.ghost_name ≡ t.old.asker.ghost_name }
    ensures follows { Follows A.manner (base_row x.now) result t.old.asker.now t.old.trace t.new.asker.now t.new.trace }
{
    let mut met = Items::new(alloc);
    met.push(x.copy(alloc)?)?;
    let mut current = x.copy(alloc)?;
    for _ in 0..MOST_NAMES {
        let onward = match step(alloc, t, &mut met, &current) {
            Ok(onward) => onward,
            Err(halt) => return Err(halt),
        };
        match onward {
            Onward::Nowhere => return Ok(None),
            Onward::Here => return Ok(Some(current)),
            Onward::First(parent) => current = parent,
        }
    }
    Err(Halt::Mixed(decl_node(alloc, &current)?))
}

// Asks of the name, and meets its first parent where the chain goes on there.
fn step<A: Asker>(
    alloc: Global,
    t: &mut Tracer<A>,
    met: &mut Items<Name>,
    x: &Name,
) -> Result<Onward, Halt>
    requires ready { A.ready t.old.asker.now }
    ensures ready { A.ready t.new.asker.now }
    ensures same { t.new.asker.ghost_name ≡ t.old.asker.ghost_name }
    ensures leaves { (steps : ℕ) → Leaves A.manner (chain (suc steps) met.old x.now) (chained steps met.new x.now) result
        t.old.asker.now t.old.trace t.new.asker.now t.new.trace }
{
    let at = match learn(alloc, t, x) {
        Ok(at) => at,
        Err(halt) => return Err(halt),
    };
    let onward = onward_in(alloc, t.answer(at))?;
    match onward {
        Onward::Nowhere => Ok(Onward::Nowhere),
        Onward::Here => Ok(Onward::Here),
        Onward::First(parent) => {
            if is_one(met.as_slice(), parent.bytes()) {
                return Err(Halt::Mixed(decl_node(alloc, x)?));
            }
            if met.len() >= MOST_NAMES {
                return Err(Halt::Mixed(decl_node(alloc, x)?));
            }
            met.push(parent.copy(alloc)?)?;
            Ok(Onward::First(parent))
        }
    }
}

fn decl_node(alloc: Global, x: &Name) -> Result<NodeId, AllocError>
    ensures { IfOk result (λ node. node ≡ n.Fact (f.Decl x.now)) }
{
    Ok(NodeId::Fact(Fact::Decl(x.copy(alloc)?)))
}

fn learn<A: Asker>(alloc: Global, t: &mut Tracer<A>, x: &Name) -> Result<usize, Halt>
    requires ready { A.ready t.old.asker.now }
    ensures ready { A.ready t.new.asker.now }
    ensures same { t.new.asker.ghost_name ≡ t.old.asker.ghost_name }
    ensures learns { Learns A.manner (n.Fact (f.Decl x.now)) result t.old.asker.now t.old.trace t.new.asker.now t.new.trace }
{
    learn_node(t, NodeId::Fact(Fact::Decl(x.copy(alloc)?)))
}

fn onward_in(alloc: Global, answer: &Answer) -> Result<Onward, AllocError>
    ensures { IfOk result (λ onward. chain_of onward ≡ onward_in answer.now) }
{
    match answer {
        Answer::Decl(Known::Plain(_)) => Ok(Onward::Here),
        Answer::Decl(Known::Predicate(parents, _)) => match parents.as_slice().first() {
            Some(parent) => Ok(Onward::First(parent.copy(alloc)?)),
            None => Ok(Onward::Nowhere),
        },
        _ => Ok(Onward::Nowhere),
    }
}
