ghost use Rattle.std.specs.Prelude.{◌≡◌};
ghost use Rattle.vx_node.specs.Askers.{Follows};
ghost use Rattle.vx_answers.specs.OrderRows.{up_row};

use sqlite_items::Items;
use std::alloc::Global;
use vx_names::Name;
use vx_node::{Asker, Halt, Tracer};
use vx_walks::{Way, walk};

/// The names above one, itself among them, in byte order; none where it is not there.
pub fn up<A: Asker>(alloc: Global, t: &mut Tracer<A>, x: &Name) -> Result<Items<Name>, Halt>
    requires ready { A.ready t.old.asker.now }
    ensures ready { A.ready t.new.asker.now }
    ensures same { t.new.asker.ghost_name ≡ t.old.asker.ghost_name }
    ensures follows { Follows A.manner (up_row x.now) result t.old.asker.now t.old.trace t.new.asker.now t.new.trace }
{
    walk(alloc, t, Way::Upward, x)
}
