ghost use Rattle.std.specs.Prelude.{◌≡◌};
ghost use Rattle.vx_node.specs.Askers.{Follows, Learns};
ghost use Rattle.vx_node.specs.declared.node.NodeId.TheVariants as n;
ghost use Rattle.vx_node.specs.declared.node.Fact.TheVariants as f;
ghost use Rattle.vx_answers.specs.OrderRows.{cone_row, is_plain};

use sqlite_items::Items;
use std::alloc::Global;
use vx_names::Name;
use vx_node::{Answer, Asker, Fact, Halt, NodeId, Stands, Tracer};
use vx_walks::{Way, learn_node, walk};

/// The plain objects that one is above, in byte order.
pub fn cone<A: Asker>(alloc: Global, t: &mut Tracer<A>, x: &Name) -> Result<Items<Name>, Halt>
    requires ready { A.ready t.old.asker.now }
    ensures ready { A.ready t.new.asker.now }
    ensures same { t.new.asker.ghost_name ≡ t.old.asker.ghost_name }
    ensures follows { Follows A.manner (cone_row x.now) result t.old.asker.now t.old.trace t.new.asker.now t.new.trace }
{
    let at = match learn_there(alloc, t, x) {
        Ok(at) => at,
        Err(halt) => return Err(halt),
    };
    if is_plain(t.answer(at)) {
        walk(alloc, t, Way::Downward, x)
    } else {
        Ok(Items::new(alloc))
    }
}

fn learn_there<A: Asker>(alloc: Global, t: &mut Tracer<A>, x: &Name) -> Result<usize, Halt>
    requires ready { A.ready t.old.asker.now }
    ensures ready { A.ready t.new.asker.now }
    ensures same { t.new.asker.ghost_name ≡ t.old.asker.ghost_name }
    ensures learns { Learns A.manner (n.Fact (f.There x.now)) result t.old.asker.now t.old.trace t.new.asker.now t.new.trace }
{
    learn_node(t, NodeId::Fact(Fact::There(x.copy(alloc)?)))
}

fn is_plain(answer: &Answer) -> bool
    ensures { result ≡ is_plain answer.now }
{
    match answer {
        Answer::There(Stands::Plain) => true,
        _ => false,
    }
}
