//! What was found of a node, which stands.
ghost use Rattle.std.specs.Prelude.{◌≡◌};
ghost use Rattle.vx_answers.specs.Answers.{Stands};

use std::marker::Model;
use vx_node::{Answer, NodeId, Trace};

/// What was found of a node, and what was asked for that. Each program that gives these answers to what was asked gives the
/// node this value, and asks the same for it.
#[derive(Drop)]
pub struct Finding {
    node: NodeId,
    trace: Trace,
    value: Answer,
}

impl Model for Finding {
    ghost use Rattle.std.specs.Coded.{codes};
    ghost use Rattle.vx_node.specs.declared.trace.Step.{Step};
    ghost use Rattle.vx_node.specs.declared.node.NodeId.{NodeId};
    ghost use Rattle.vx_node.specs.declared.answer.Answer.{Answer};
    ghost use Rattle.vx_node.specs.contracts.trace.Step as step_rows;
    ghost use Rattle.vx_node.specs.contracts.node.NodeId as node_rows;
    ghost use Rattle.vx_node.specs.contracts.answer.Answer as answer_rows;
    ghost use Rattle.vx_answers.specs.Findings.{Found};

    ghost Value = { Found };

    ghost coded = { Prim.hlevel (codes, step_rows.the_row.coded, node_rows.the_row.coded, answer_rows.the_row.coded) };

    ghost use Rattle.vx_answers.specs.Answers.{Stands};

    ghost view = { λ f. record { node = f.node; trace = f.trace; value = f.value } };

    ghost invariant = { λ f. Stands f.node f.trace f.value };
}

impl Finding {
    /// What was asked for the node, and what came of it.
    pub fn new(node: NodeId, trace: Trace, value: Answer) -> Finding
        requires { Stands node trace value }
        ensures { result ≡ record { node = node; trace = trace; value = value } }
    {
        Finding { node, trace, value }
    }

    /// The node.
    pub fn node(&self) -> &NodeId
        ensures { result.now ≡ self.now.node }
    {
        &self.node
    }

    /// What was asked for it.
    pub fn trace(&self) -> &Trace
        ensures { result.now ≡ self.now.trace }
    {
        &self.trace
    }

    /// What it is answered with.
    pub fn value(&self) -> &Answer
        ensures value { result.now ≡ self.now.value }
        ensures stands { Stands self.now.node self.now.trace self.now.value }
    {
        &self.value
    }
}
