//! The ranks of nodes.
ghost use Rattle.std.specs.Prelude.{◌≡◌};
ghost use Rattle.vx_node.specs.Nodes.{rank};

use crate::node::{Filter, NodeId};

/// How high a node stands: facts at 0, filters from 1 to 3, targets at 4.
pub fn rank(node: &NodeId) -> u8
    ensures { result ≡ rank node.now }
{
    match node {
        NodeId::Fact(_) => 0,
        NodeId::Filter(filter) => filter_rank(filter),
        NodeId::Target(_) => 4,
    }
}

fn filter_rank(filter: &Filter) -> u8
    ensures { result ≡ rank (NodeId.Filter filter.now) }
{
    match filter {
        Filter::Bind(_, _, _) => 2,
        Filter::Clones(_) => 3,
        _ => 1,
    }
}
