ghost use Rattle.std.specs.Prelude.{◌≡◌, ◌≤◌, ◌<◌, ◌+◌};
ghost use Rattle.vx_node.specs.declared.node.NodeId.{NodeId};
ghost use Rattle.vx_node.specs.Nodes.{rank, IsWellFormed};
ghost use Rattle.vx_node.specs.Askers.{Answered};
ghost use Rattle.vx_compute.specs.Plain.{GivesFacts, GivesRank, SaysUnclean, of_facts, one_higher};
ghost use Rattle.vx_compute.specs.Computed.{Finds};
ghost use Rattle.vx_node.specs.Traces.{Answers};

use crate::rows::answer;
use std::alloc::Global;
use std::mem::replace;
use vx_facts::fact;
use vx_node::{Answer, Asked, Asker, Halt, NodeId, Tracer, rank};
use vx_program::Program;

/// Answers facts out of a program.
#[derive(Drop)]
pub struct Facts<'a> {
    alloc: Global,
    program: &'a Program,
}

impl Asker for Facts<'_> {
    ghost greatest = { 0 };

    ghost ready = { λ s. Unit {0} };

    ghost manner = { of_facts (λ s. s.program.now) };

    fn ask(&mut self, node: &NodeId) -> Asked {
        match node {
            NodeId::Fact(one) => match fact(self.alloc, self.program, one) {
                Ok(answer) => Asked::Known(answer),
                Err(_) => Asked::OutOfMemory,
            },
            _ => Asked::OutOfMemory,
        }
    }
}

/// An asker of one rank more: it computes what has this rank over the asker below, and hands all else to it.
#[derive(Drop)]
pub struct Above<A> {
    alloc: Global,
    below: A,
    unclean: u64,
    last: Option<NodeId>,
}

impl<A: Asker> Above<A> {
    // What the asker below says of a node that it may be asked.
    fn hand_on(&mut self, node: &NodeId) -> Asked
        requires ready { A.ready self.old.below }
        requires well_formed { IsWellFormed node.now }
        requires low { rank node.now ≤ A.greatest }
        ensures ready { A.ready self.new.below }
        ensures answered { Answered (one_higher A.manner (A.greatest + 1) (λ s. s.below) (λ s. s.unclean) (λ s. s.last)) node.now result self.old self.new }
    {
        match self.below.ask(node) {
            Asked::Known(value) => Asked::Known(value),
            Asked::Unclean(at) => self.say_unclean(at),
            Asked::OutOfMemory => Asked::OutOfMemory,
        }
    }

    // What the row of a node of one rank more comes to.
    fn find_out(&mut self, node: &NodeId) -> Asked
        requires ready { A.ready self.old.below }
        requires well_formed { IsWellFormed node.now }
        requires next { rank node.now ≡ A.greatest + 1 }
        ensures ready { A.ready self.new.below }
        ensures answered { Answered (one_higher A.manner (A.greatest + 1) (λ s. s.below) (λ s. s.unclean) (λ s. s.last)) node.now result self.old self.new }
    {
        match over(self.alloc, &mut self.below, node) {
            Ok(value) => Asked::Known(value),
            Err(Halt::Unclean(at)) => self.say_unclean(at),
            Err(Halt::Mixed(at)) => self.say_unclean(at),
            Err(Halt::OutOfMemory) => Asked::OutOfMemory,
        }
    }

    // Counts an answer `Unclean`, and keeps its node.
    fn say_unclean(&mut self, at: NodeId) -> Asked
        ensures below { self.new.below ≡ self.old.below }
        ensures said { SaysUnclean at result self.old.unclean self.new.unclean self.new.last }
    {
        match at.copy(self.alloc) {
            Ok(own) => {
                self.unclean = self.unclean.saturating_add(1);
                forget(replace(&mut self.last, Some(own)));
                Asked::Unclean(at)
            }
            Err(_) => {
                forget(Some(at));
                Asked::OutOfMemory
            }
        }
    }
}

fn forget(_node: Option<NodeId>) {}

// What the row of a node comes to over an asker.
fn over<A: Asker>(alloc: Global, asker: &mut A, node: &NodeId) -> Result<Answer, Halt>
    requires ready { A.ready asker.old }
    requires low { rank node.now ≤ A.greatest + 1 }
    ensures ready { A.ready asker.new }
    ensures finds { Finds A.manner node.now result asker.old asker.new }
{
    let mut t = Tracer::new(alloc, asker);
    let answered = answer(alloc, &mut t, node);
    let _trace = t.end();
    answered
}

impl Asker for Above<Facts<'_>> {
    ghost greatest = { 1 };

    ghost ready = { λ s. Unit {0} };

    ghost manner = { one_higher (of_facts (λ s. s.program.now)) 1 (λ s. s.below) (λ s. s.unclean) (λ s. s.last) };

    fn ask(&mut self, node: &NodeId) -> Asked {
        if rank(node) == 0 {
            self.hand_on(node)
        } else {
            self.find_out(node)
        }
    }
}

impl Asker for Above<Above<Facts<'_>>> {
    ghost greatest = { 2 };

    ghost ready = { λ s. Unit {0} };

    ghost manner = { one_higher
        (one_higher (of_facts (λ s. s.program.now)) 1 (λ s. s.below) (λ s. s.unclean) (λ s. s.last))
        2 (λ s. s.below) (λ s. s.unclean) (λ s. s.last) };

    fn ask(&mut self, node: &NodeId) -> Asked {
        if rank(node) <= 1 {
            self.hand_on(node)
        } else {
            self.find_out(node)
        }
    }
}

/// An asker over a plain program.
pub type PlainAsker<'a> = Above<Above<Above<Facts<'a>>>>;

impl Asker for Above<Above<Above<Facts<'_>>>> {
    ghost greatest = { 3 };

    ghost ready = { λ s. Unit {0} };

    ghost manner = { one_higher
        (one_higher
        (one_higher (of_facts (λ s. s.program.now)) 1 (λ s. s.below) (λ s. s.unclean) (λ s. s.last))
        2 (λ s. s.below) (λ s. s.unclean) (λ s. s.last))
        3 (λ s. s.below) (λ s. s.unclean) (λ s. s.last) };

    fn ask(&mut self, node: &NodeId) -> Asked {
        if rank(node) <= 2 {
            self.hand_on(node)
        } else {
            self.find_out(node)
        }
    }
}

fn raised<A>(alloc: Global, below: A) -> Above<A>
    ensures below { result.below ≡ below }
    ensures unclean { result.unclean ≡ 0 }
{
    Above {
        alloc,
        below,
        unclean: 0,
        last: None,
    }
}

/// An asker over the program.
pub fn plain_asker<'a>(alloc: Global, program: &'a Program) -> PlainAsker<'a>
    ensures { (answer : Answers) → GivesFacts program.now answer → GivesRank 1 answer → GivesRank 2 answer → GivesRank 3 answer
        → ⟦<PlainAsker<'a> as Asker>⟧.manner.about result answer }
{
    raised(
        alloc,
        raised(alloc, raised(alloc, Facts { alloc, program })),
    )
}
