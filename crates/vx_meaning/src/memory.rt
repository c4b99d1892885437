//! What an evaluation works on, and how it ends.
use crate::scope::Scope;
use sqlite_items::Items;
use vx_model::{Heap, Held, RunError, Value};
use vx_names::{FieldKey, MethodKey, Name};

/// The heap, the number of the next activation, and the lines printed.
#[derive(Drop)]
pub struct Memory {
    pub heap: Heap,
    pub next: u64,
    pub lines: Items<Items<u8>>,
}

/// An activation of a method, or of a closure in it: the method and its arguments, which a resend passes on, the activation
/// to which a return leads, and what is in scope.
#[derive(Drop)]
pub struct Activation {
    pub method: MethodKey,
    pub arguments: Items<Value>,
    pub home: u64,
    pub scope: Scope,
}

/// How an evaluation ended.
#[derive(Drop)]
pub enum Outcome {
    Gives(Value),
    /// A return is on its way to the activation of this number.
    Back(u64, Value),
    Fails(RunError),
    /// The allowance is used up.
    Out,
    /// It lacks what no program lacks.
    Stuck,
}

/// How a statement ended.
#[derive(Drop)]
pub enum Flow {
    /// The next one follows; this is the value if there is none.
    Next(Value),
    Ends(Outcome),
}

/// The fields that names mean for a class, or the first name that means none.
#[derive(Drop)]
pub enum Keys {
    All(Items<FieldKey>),
    Missing(Name),
}

/// A closure with the formals that it is to have, or how the evaluation ended for want of one.
#[derive(Drop)]
pub enum Reached {
    Closure(Held),
    Ends(Outcome),
}

/// What a primitive leaves to be done.
#[derive(Drop)]
pub enum Act {
    Ends(Outcome),
    /// The closure is to be evaluated with these arguments.
    Evaluates(Held, Items<Value>),
    /// The closure is to be evaluated again and again.
    Repeats(Held),
}
