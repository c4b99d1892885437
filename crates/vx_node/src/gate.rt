//! What targets enter once they are made.
ghost use Rattle.std.specs.Prelude.{◌≡◌, ◌+◌, ◌-◌, ◌^◌, List, Option, None, min, OnOk, OnErr};
ghost use Rattle.vx_node.specs.declared.node.NodeId.{NodeId};
ghost use Rattle.vx_node.specs.Gates.{entered_too};

use crate::node::NodeId;
use std::alloc::AllocError;

/// What each target enters once that is made.
pub trait Gate {
    // The targets that entered, where the gate tells them.
    ghost entered: { Self → Option (List NodeId) };

    fn enter(&mut self, node: &NodeId) -> Result<(), AllocError>
        ensures ok { OnOk result (entered self.new ≡ entered_too node.now (entered self.old)) }
        ensures err { OnErr result (entered self.new ≡ entered self.old) };
}

/// A gate that counts the targets that entered, and holds the greatest number once there were more.
#[derive(Drop)]
pub struct CountGate {
    entries: u64,
}

impl CountGate {
    pub fn new() -> CountGate
        ensures { result.entries ≡ 0 }
    {
        CountGate { entries: 0 }
    }

    /// How many targets have entered, up to the greatest number.
    pub fn count(&self) -> u64
        ensures { result ≡ self.now.entries }
    {
        self.entries
    }
}

impl Gate for CountGate {
    ghost entered = { λ _. None };

    fn enter(&mut self, _node: &NodeId) -> Result<(), AllocError>
        ensures counted { self.new.entries ≡ min (self.old.entries + 1) (2 ^ 64 - 1) }
    {
        self.entries = self.entries.saturating_add(1);
        Ok(())
    }
}
