//! What the reader of tests holds between two tokens.
use sqlite_items::Boxed;
use vx_bodies::Stack;
use vx_names::Name;
use vx_syntax::{Compare, Test};

/// What waits for a comparison, or for the test in a bracket.
#[derive(Drop)]
pub struct Pending {
    /// The test before the `or`.
    pub either: Option<Boxed<Test>>,
    /// The test before the `and`, which ends after the `or`.
    pub both: Option<Boxed<Test>>,
    /// How many `not`s stand before what is awaited.
    pub nots: u64,
}

/// What is read of a test. Each state has the brackets that are open, the innermost first, each with what waits outside it.
#[derive(Drop)]
pub enum TestState {
    /// A comparison, a `not` or a bracket is wanted.
    Operand(Pending, Stack<Pending>),
    /// The name of a field is read.
    Field(Pending, Stack<Pending>, Name),
    /// The name of a field and how it is compared are read.
    Compared(Pending, Stack<Pending>, Name, Compare),
    /// These and a minus sign are read.
    Signed(Pending, Stack<Pending>, Name, Compare),
    /// The test before the `or`, where there is one, and the comparisons after it are read.
    Joined(Option<Boxed<Test>>, Stack<Pending>, Test),
}
