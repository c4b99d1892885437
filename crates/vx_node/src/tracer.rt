//! Who asks for a computation and keeps what was answered, so that what it has read is exactly known.
ghost use Rattle.std.specs.Prelude.{◌≡◌, ◌≤◌, ◌<◌, ℕ, [], Some, length, slice_get};
ghost use Rattle.vx_node.specs.declared.trace.Step.{Step};
ghost use Rattle.vx_node.specs.Nodes.{rank, IsWellFormed};
ghost use Rattle.vx_node.specs.Askers.{Learns};

use crate::answer::Answer;
use crate::asker::{Asked, Asker, Halt};
use crate::node::NodeId;
use crate::trace::{Step, Trace};
use std::alloc::Global;

/// Asks each node once, and keeps what was answered.
pub struct Tracer<'a, A, T = Trace> {
    alloc: Global,
    asker: &'a mut A,
    trace: T,
}

impl<'a, A, T> Tracer<'a, A, T> {
    /// The trace. What stands behind the tracer's reference is the asker as the tracer leaves it.
    pub fn end(self) -> T
        ensures trace { result ≡ self.entry.trace }
        ensures left { self.exit.1.0.now ≡ self.entry.asker.now }
    {
        let Tracer {
            alloc: _,
            asker: _,
            trace,
        } = self;
        trace
    }
}

impl<'a, A: Asker> Tracer<'a, A> {
    /// A tracer that has asked nothing.
    pub fn new(alloc: Global, asker: &'a mut A) -> Tracer<'a, A>
        ensures same { result.asker.ghost_name ≡ asker.entry.ghost_name }
        ensures now { result.asker.now ≡ asker.old }
        ensures trace { result.trace ≡ [] }
    {
        Tracer {
            alloc,
            asker,
            trace: Trace::new(alloc),
        }
    }

    #[tactic(auto, using(crate::proofs::Leaving::said_unclean, crate::proofs::Leaving::said_nothing, crate::proofs::Leaving::wants_memory, crate::proofs::Leaving::as_it_is))]
    /// The place in the trace of the node's answer, which is asked for where it is not there.
    pub fn learn(&mut self, node: &NodeId) -> Result<usize, Halt>
        requires ready { A.ready self.old.asker.now }
        requires well_formed { IsWellFormed node.now }
        requires low { rank node.now ≤ A.greatest }
        ensures ready { A.ready self.new.asker.now }
        ensures same { self.new.asker.ghost_name ≡ self.old.asker.ghost_name }
        ensures learns { Learns A.manner node.now result self.old.asker.now self.old.trace self.new.asker.now self.new.trace }
    {
        match self.trace.place(node) {
            Ok(place) => Ok(place),
            Err(place) => {
                let own = node.copy(self.alloc)?;
                match self.asker.ask(node) {
                    Asked::Known(value) => {
                        self.trace.insert(place, Step { node: own, value })?;
                        Ok(place)
                    }
                    Asked::Unclean(at) => {
                        drop_node(own);
                        Err(Halt::Unclean(at))
                    }
                    Asked::OutOfMemory => {
                        drop_node(own);
                        Err(Halt::OutOfMemory)
                    }
                }
            }
        }
    }

    /// The answer at a place of the trace.
    pub fn answer(&self, place: usize) -> &Answer
        requires { place < length self.now.trace }
        ensures { (step : Step) → slice_get self.now.trace place ≡ Some step → result.now ≡ step.value }
    {
        self.trace.value(place)
    }
}

fn drop_node(_node: NodeId) {}
