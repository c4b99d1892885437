//! Where a linker finds units.
ghost use Rattle.std.specs.Prelude.{◌≡◌, ◌<◌, length, IfOk};
ghost use Rattle.std.specs.Option.{option_copied};
ghost use Rattle.vx_link.specs.Link.{UnitOf, pieces_of, targets};
ghost use Rattle.vx_link.specs.Walks.{IsUnitAt};

use crate::roster::{Roster, node_at};
use std::alloc::{AllocError, Global};
use vx_node::{NodeId, Piece};

/// Who has units.
pub trait Units {
    // The unit of each node that has one.
    ghost unit_of: { Self → UnitOf };

    /// The unit of the node, if it has one.
    fn unit(&self, node: &NodeId) -> Option<&[Piece]>
        ensures { option_copied result ≡ unit_of self.now node.now };
}

/// The unit at the place, in the order of the image. Memory is taken for the node that is asked for, and given back.
pub fn unit_at<'a, U: Units>(
    alloc: Global,
    roster: &Roster,
    units: &'a U,
    place: usize,
) -> Result<&'a [Piece], AllocError>
    requires { place < length (targets roster.now) }
    ensures { IfOk result (λ unit. IsUnitAt roster.now (U.unit_of units.now) place unit.now) }
{
    let node = node_at(alloc, roster, place)?;
    Ok(pieces_of(units, &node))
}

// The pieces of the node's unit.
fn pieces_of<'a, U: Units>(units: &'a U, node: &NodeId) -> &'a [Piece]
    ensures { result.now ≡ pieces_of (U.unit_of units.now node.now) }
{
    match units.unit(node) {
        Some(pieces) => pieces,
        None => &[],
    }
}
