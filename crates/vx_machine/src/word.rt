//! What the stacks hold, and what is kept of activations, closures and objects.
ghost use Rattle.std.specs.Prelude.{◌≡◌, IfOk};

use sqlite_items::{Boxed, Items};
use std::alloc::{AllocError, Global};
use vx_format::Instr;
use vx_model::RunError;

/// A value.
#[derive(Clone, Copy)]
pub enum Word<'a> {
    /// A whole number.
    Int(i128),
    /// A string of the image.
    Constant(&'a [u8]),
    /// A string that was made, by its place among these.
    Text(usize),
    /// A closure, by its place.
    Closure(usize),
    /// An object, by its place.
    Object(usize),
}

/// What a local holds.
#[derive(Clone, Copy)]
pub enum Local<'a> {
    /// Nothing yet.
    Unset,
    /// A value.
    Plain(Word<'a>),
    /// A cell, by its place.
    Cell(usize),
}

/// A closure: its code and block, its home activation, and where among all that closures captured its own part begins and how long it is.
#[derive(Clone, Copy)]
pub struct Held {
    /// The code.
    pub code: u32,
    /// The block of the code.
    pub block: u32,
    /// The number of the activation in which it was made.
    pub home: u64,
    /// Where what it captured begins.
    pub first: usize,
    /// How much it captured.
    pub count: u32,
}

/// What an activation runs.
#[derive(Clone, Copy)]
pub enum Role {
    /// A method, with the number of the activation.
    Method(u64),
    /// A closure, with its home.
    Evaluation(u64),
    /// A turn of a loop over a closure.
    Turn(Held),
}

/// An activation: the instructions of its block and how many are done, and where its locals and its operands begin on their stacks.
#[derive(Clone, Copy)]
pub struct Kept<'a> {
    /// The instructions of the block.
    pub instrs: &'a [Instr],
    /// The place of the next instruction.
    pub next: usize,
    /// The code.
    pub code: u32,
    /// Where its locals begin.
    pub base: usize,
    /// Where its operands begin.
    pub floor: usize,
    /// What it runs.
    pub role: Role,
}

/// An object: its class, and what its fields hold.
#[derive(Drop)]
pub struct Object<'a> {
    /// The class.
    pub class: u32,
    /// The slots, each with its field.
    pub slots: Items<(u32, Word<'a>)>,
}

/// What an instruction led to. Few words, since every step answers one: an error, which comes once in a run, lies apart.
#[derive(Drop)]
pub enum Step {
    /// The run goes on.
    On,
    /// `main` has returned.
    Over,
    /// The state lacked something.
    Lacks,
    /// It found an operand of a wrong class, or an object without the slot.
    Finds,
    /// The run stops.
    Stops(Boxed<RunError>),
}

/// What the row that a message found led to.
#[derive(Drop)]
pub enum Led {
    /// It was done.
    Done(Step),
    /// It is a primitive, which is left to be performed.
    Perform(u8),
}

/// An error in a place of its own, which no run reaches twice.
#[cold]
#[inline(never)]
pub fn apart(alloc: Global, error: RunError) -> Result<Boxed<RunError>, AllocError>
    ensures { IfOk result (λ boxed. boxed ≡ error) }
{
    Boxed::new(alloc, error)
}
