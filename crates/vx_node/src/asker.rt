//! Who answers nodes, and why a computation that asks stops.
//!
//! An asker tells the answers of one program as long as it tells any; what it is like to whoever asks it is its `manner`.
ghost use Rattle.std.specs.Prelude.{◌≤◌, ℕ};
ghost use Rattle.vx_node.specs.Nodes.{rank, IsWellFormed};
ghost use Rattle.vx_node.specs.Askers.{Manner, Answered};

use crate::answer::Answer;
use crate::node::NodeId;
use std::alloc::AllocError;

/// What an asker says of a node.
#[derive(Drop)]
pub enum Asked {
    Known(Answer),
    /// The node at which an answer waits to be found out.
    Unclean(NodeId),
    OutOfMemory,
}

/// Why a computation stopped.
#[derive(Drop)]
pub enum Halt {
    /// The asker said so of this node.
    Unclean(NodeId),
    /// The answer of this node is of another program than those before it.
    Mixed(NodeId),
    OutOfMemory,
}

impl From<AllocError> for Halt {
    ghost use Rattle.std.specs.Prelude.{◌≡◌};
    ghost use Rattle.vx_node.specs.declared.asker.Halt.TheVariants.{OutOfMemory};

    ghost from_gives = { λ _ e. e ≡ OutOfMemory };

    fn from(_: AllocError) -> Self {
        Halt::OutOfMemory
    }
}

/// Who answers nodes.
pub trait Asker {
    // The greatest rank of what it may be asked.
    ghost greatest: { ℕ };

    // Whether it can be asked.
    ghost ready: { Self → Type 0 };

    // Which answers it has and tells, and what an ask does to it.
    ghost manner: { Manner Self };

    fn ask(&mut self, node: &NodeId) -> Asked
        requires ready { ready self.old }
        requires well_formed { IsWellFormed node.now }
        requires low { rank node.now ≤ greatest }
        ensures ready { ready self.new }
        ensures answered { Answered manner node.now result self.old self.new };
}
