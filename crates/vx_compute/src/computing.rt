ghost use Rattle.std.specs.Prelude.{◌≡◌, ◌≤◌, ◌<◌, ◌+◌, []};
ghost use Rattle.vx_node.specs.Nodes.{rank, IsWellFormed};
ghost use Rattle.vx_node.specs.Asking.{gives, Reaches};
ghost use Rattle.vx_node.specs.Traces.{IsTrace};
ghost use Rattle.vx_answers.specs.Answers.{row, Stands, IsBuilt};
ghost use Rattle.vx_compute.specs.Computed.{Computes, IsFinding, stopped_as};
ghost use Rattle.vx_compute.specs.Plain.{EntersWhere};

use crate::made::Made;
use crate::rows::answer;
use std::alloc::Global;
use vx_answers::{Finding, answers_stand};
use vx_node::{Answer, Asker, Gate, Halt, NodeId, Trace, Tracer, rank};

/// Computes a filter or a target over an asker. A target enters the gate where it is found.
pub fn compute<A: Asker, G: Gate>(alloc: Global, asker: &mut A, gate: &mut G, node: &NodeId) -> Made
    requires ready { A.ready asker.old }
    requires well_formed { IsWellFormed node.now }
    requires found_out { 0 < rank node.now }
    requires low { rank node.now ≤ A.greatest + 1 }
    ensures ready { A.ready asker.new }
    ensures computes { Computes A.manner node.now result asker.old asker.new }
    ensures gate { EntersWhere node.now result (G.entered gate.old) (G.entered gate.new) }
{
    let own = match node.copy(alloc) {
        Ok(own) => own,
        Err(_) => return Made::OutOfMemory,
    };
    let mut t = Tracer::new(alloc, asker);
    let answered = answer(alloc, &mut t, node);
    let trace = t.end();
    match answered {
        Ok(value) => found(gate, own, trace, value),
        Err(halt) => {
            forget(own, trace);
            stopped(halt)
        }
    }
}

// What was answered, as a finding. A target enters the gate first.
fn found<G: Gate>(gate: &mut G, node: NodeId, trace: Trace, value: Answer) -> Made
    requires built { IsBuilt node }
    requires reaches { Reaches [] trace (row node) (gives value) }
    ensures finding { IsFinding node trace result }
    ensures gate { EntersWhere node result (G.entered gate.old) (G.entered gate.new) }
{
    answers_stand();
    let _steps = trace.steps();
    if rank(&node) == 4 && gate.enter(&node).is_err() {
        discard(node, trace, value);
        return Made::OutOfMemory;
    }
    Made::Found(Finding::new(node, trace, value))
}

fn stopped(halt: Halt) -> Made
    ensures { result ≡ stopped_as halt }
{
    match halt {
        Halt::Unclean(at) => Made::Unclean(at),
        Halt::Mixed(at) => Made::Mixed(at),
        Halt::OutOfMemory => Made::OutOfMemory,
    }
}

fn forget(_node: NodeId, _trace: Trace) {}

fn discard(_node: NodeId, _trace: Trace, _value: Answer) {}
