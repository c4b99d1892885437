//! Learning the answer to a node that was made for one question.
ghost use Rattle.std.specs.Prelude.{◌≡◌, ◌≤◌};
ghost use Rattle.vx_node.specs.Nodes.{rank, IsWellFormed};
ghost use Rattle.vx_node.specs.Askers.{Learns};

use vx_node::{Asker, Halt, NodeId, Tracer};

/// The place in the trace of the answer to a node that was made for this question alone.
pub fn learn_node<A: Asker>(t: &mut Tracer<A>, node: NodeId) -> Result<usize, Halt>
    requires ready { A.ready t.old.asker.now }
    requires well_formed { IsWellFormed node }
    requires low { rank node ≤ A.greatest }
    ensures ready { A.ready t.new.asker.now }
    ensures same { t.new.asker.ghost_name ≡ t.old.asker.ghost_name }
    ensures learns { Learns A.manner node result t.old.asker.now t.old.trace t.new.asker.now t.new.trace }
{
    let learned = t.learn(&node);
    forget(node);
    learned
}

fn forget(_node: NodeId) {}
