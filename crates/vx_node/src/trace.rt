//! What was asked and answered, in the order of nodes.
ghost use Rattle.std.specs.Prelude.{◌≡◌, true, false, ◌<◌, ◌≤◌, ◌⊎◌, ℕ, List, [], ◌∷◌, Some, length, slice_get, insert, IfOk, IfErr, OnOk, OnErr};
ghost use Rattle.std.specs.Ordering.{is_lt};
ghost use Rattle.vx_node.specs.Nodes.{node_cmp};
ghost use Rattle.vx_node.specs.Places.{BelongsAt, GoBefore};
ghost use Rattle.vx_node.specs.Traces.{IsTrace};
ghost use Rattle.vx_node.specs.declared.trace.Step.{Step};

use crate::answer::Answer;
use crate::node::NodeId;
use std::alloc::{AllocError, Global};
use std::cmp::Ordering;
use std::marker::Model;

/// A node, and what it was answered with.
#[derive(Drop)]
pub struct Step {
    pub node: NodeId,
    pub value: Answer,
}

impl Step {
    pub fn copy(&self, alloc: Global) -> Result<Step, AllocError>
        ensures { IfOk result (λ step. step ≡ self.now) }
    {
        Ok(Step {
            node: self.node.copy(alloc)?,
            value: self.value.copy(alloc)?,
        })
    }
}

/// What was asked, in the order of nodes, each node once.
#[derive(Drop)]
pub struct Trace {
    steps: Vec<Step>,
}

impl Model for Trace {
    ghost use Rattle.std.specs.Prelude.{List};
    ghost use Rattle.std.specs.Coded.{codes};
    ghost use Rattle.vx_node.specs.declared.trace.Step.{Step};
    ghost use Rattle.vx_node.specs.contracts.trace.Step as step;

    ghost Value = { List Step };

    ghost coded = { Prim.hlevel (codes, step.the_row.coded) };

    ghost use Rattle.vx_node.specs.Traces.{IsTrace};

    ghost view = { λ t. t.steps.items };

    ghost invariant = { λ t. IsTrace t.steps.items };
}

impl Trace {
    /// No steps.
    pub fn new(alloc: Global) -> Trace
        ensures { result ≡ [] }
    {
        Trace {
            steps: Vec::new(alloc),
        }
    }

    /// The steps in the order of nodes.
    pub fn steps(&self) -> &[Step]
        ensures steps { result.now ≡ self.now }
        ensures order { IsTrace self.now }
    {
        self.steps.as_slice()
    }

    /// What the step at the place was answered with.
    pub fn value(&self, place: usize) -> &Answer
        requires { place < length self.now }
        ensures { (step : Step) → slice_get self.now place ≡ Some step → result.now ≡ step.value }
    {
        value_at(self.steps.as_slice(), place)
    }

    /// The place of the node's step, or where it would stand.
    pub fn place(&self, node: &NodeId) -> Result<usize, usize>
        ensures found { IfOk result (λ place. (step : Step) × (slice_get self.now place ≡ Some step) × (step.node ≡ node.now)) }
        ensures missing { IfErr result (λ place. (place ≤ length self.now) × BelongsAt node.now place self.now) }
    {
        place_of(self.steps.as_slice(), node)
    }

    /// Puts a step where it belongs.
    pub fn insert(&mut self, place: usize, step: Step) -> Result<(), AllocError>
        requires within { place ≤ length self.old }
        requires belongs { BelongsAt step.node place self.old }
        ensures ok { OnOk result (self.new ≡ insert self.old place step) }
        ensures err { OnErr result (self.new ≡ self.old) }
    {
        self.steps.insert(place, step)?;
        Ok(())
    }
}

// The place of the node's step, or where it would stand.
fn place_of(steps: &[Step], node: &NodeId) -> Result<usize, usize>
    requires { IsTrace steps.now }
    ensures found { IfOk result (λ place. (step : Step) × (slice_get steps.now place ≡ Some step) × (step.node ≡ node.now)) }
    ensures missing { IfErr result (λ place. (place ≤ length steps.now) × BelongsAt node.now place steps.now) }
{
    let place = steps_before(steps, node);
    if place < steps.len() && is_of(&steps[place], node) {
        Ok(place)
    } else {
        Err(place)
    }
}

// How many steps go before the node.
fn steps_before(steps: &[Step], node: &NodeId) -> usize
    requires { IsTrace steps.now }
    ensures { GoBefore node.now result steps.now }
{
    let mut low = 0;
    let mut high = steps.len();
    while low < high {
        let middle = low + (high - low) / 2;
        if goes_before(&steps[middle], node) {
            low = middle + 1;
        } else {
            high = middle;
        }
    }
    low
}

#[tactic(auto, using(crate::proofs::Placing::same_nodes))]
fn is_of(step: &Step, node: &NodeId) -> bool
    ensures yes { result ≡ true → step.now.node ≡ node.now }
    ensures no { result ≡ false → step.now.node ≡ node.now → ⊥ }
{
    match step.node.cmp(node) {
        Ordering::Less => false,
        Ordering::Equal => true,
        Ordering::Greater => false,
    }
}

fn goes_before(step: &Step, node: &NodeId) -> bool
    ensures { result ≡ is_lt (node_cmp step.now.node node.now) }
{
    step.node.cmp(node) == Ordering::Less
}

fn value_at(steps: &[Step], place: usize) -> &Answer
    requires { place < length steps.now }
    ensures { (step : Step) → slice_get steps.now place ≡ Some step → result.now ≡ step.value }
{
    &steps[place].value
}
