ghost use Rattle.std.specs.Prelude.{◌≡◌, ◌≤◌, ◌↔◌, IsTrue};
ghost use Rattle.vx_io.specs.Calls.{no_calls, FailsNext};
ghost use Rattle.vx_io.specs.Faults.{next_count};

use std::marker::Model;

// The calls of a source or a sink over memory: which of them fail, and how many were made and
// failed. Both counts stop at the greatest `u64`. So the call with that number and all later ones
// share it: they all fail if it is listed, and else none of them does.
#[derive(Debug, Drop)]
pub(crate) struct Calls {
    failing: Vec<u64>,
    made: u64,
    failed: u64,
}

impl Model for Calls {
    ghost use Rattle.vx_io.specs.Calls.{CallLog};

    ghost Value = { CallLog };

    ghost view = { λ c. record { failing = c.failing.items; made = c.made; failed = c.failed } };
}

impl Calls {
    pub(crate) fn new(failing: Vec<u64>) -> Calls
        ensures { result ≡ no_calls failing.items }
    {
        Calls {
            failing,
            made: 0,
            failed: 0,
        }
    }

    // Counts a call, and says whether it is to fail.
    pub(crate) fn begin(&mut self) -> bool
        ensures listed { IsTrue result ↔ FailsNext self.old }
        ensures counted { self.new ≡ record self.old { made = next_count self.old.made } }
    {
        let call = self.made;
        self.made = call.saturating_add(1);
        self.failing.contains(&call)
    }

    // Counts a fault.
    pub(crate) fn fail(&mut self)
        ensures counted { self.new ≡ record self.old { failed = next_count self.old.failed } }
        ensures kept { self.old.failed ≤ self.new.failed }
    {
        self.failed = self.failed.saturating_add(1);
    }
}
