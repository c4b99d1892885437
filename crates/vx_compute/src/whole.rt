ghost use Rattle.std.specs.Prelude.{◌≡◌, ◌≤◌, ◌<◌};
ghost use Rattle.vx_node.specs.Nodes.{rank, IsWellFormed};
ghost use Rattle.vx_compute.specs.Plain.{IsMadeOf};

use crate::computing::compute;
use crate::made::Made;
use crate::plain::{PlainAsker, plain_asker};
use std::alloc::Global;
use vx_node::{Gate, NodeId};
use vx_program::Program;

/// Computes a filter or a target of a program. It never says that a node is unclean, or that answers are of no one program.
pub fn compute_plain<G: Gate>(alloc: Global, program: &Program, gate: &mut G, node: &NodeId) -> Made
    requires well_formed { IsWellFormed node.now }
    requires found_out { 0 < rank node.now }
    ensures { IsMadeOf program.now node.now result }
{
    let _decls = program.declarations();
    let mut asker = plain_asker(alloc, program);
    let made = compute(alloc, &mut asker, gate, node);
    dismiss(asker);
    made
}

fn dismiss(_asker: PlainAsker<'_>) {}
