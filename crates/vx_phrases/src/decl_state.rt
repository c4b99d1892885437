//! What the reader of declarations holds between two tokens.
use crate::head::{OpenHead, WholeHead};
use crate::test_state::TestState;
use sqlite_items::Items;
use vx_bodies::State;
use vx_names::{FieldKey, Name, Operator};
use vx_syntax::Decl;

/// Names that commas separate, and which of the two is read last.
#[derive(Drop)]
pub enum NamesState {
    /// A name is wanted after these.
    Wanted(Items<Name>),
    /// These are read, and may be all.
    Given(Items<Name>),
}

/// What is read of a field, from the word `field` on.
#[derive(Drop)]
pub enum FieldState {
    /// `field`
    Begun,
    /// `field name`
    Named(Name),
    /// `field name (`
    Open(Name),
    /// `field name ( name`, where the second name says nothing
    Formal(Name),
    /// `field name ( .. @`
    At(Name),
    /// `field name ( .. @ name`
    Holder(FieldKey),
    /// `field name ( .. @ name )`, which may be all
    Held(FieldKey),
    /// `field name ( .. @ name ) :=`
    Becomes(FieldKey),
    /// `field name ( .. @ name ) := -`
    Signed(FieldKey),
}

/// The name of a method, its formals and their specialisers.
#[derive(Drop)]
pub struct Head {
    pub name: Name,
    pub formals: Items<Option<Name>>,
    pub specialisers: Items<Name>,
}

/// The message that a method answers, with the formals before the one that is read. An operator has two.
#[derive(Drop)]
pub enum Message {
    Named(OpenHead),
    /// No formal is read yet.
    Sign(Operator),
    /// The first formal is read: its name and its specialiser.
    Half(Operator, Option<Name>, Name),
}

/// What is read of a method before its body, from the word `method` on.
#[derive(Drop)]
pub enum MethodState {
    /// `method`
    Begun,
    /// `method name`
    Named(Name),
    /// `method` and an operator
    Sign(Operator),
    /// `method name (`
    Open(Name),
    /// A formal is wanted.
    Formal(Message),
    /// The name of a formal is read.
    FormalNamed(Message, Name),
    /// `@` is read after the name of a formal, or after none.
    At(Message, Option<Name>),
    /// A formal and its specialiser are read.
    Specialised(Message, Option<Name>, Name),
    /// `method name ( .. )`
    Formed(WholeHead),
}

/// What is read of a declaration.
#[derive(Drop)]
pub enum DeclState {
    /// Nothing is read.
    Begun,
    /// `object`
    Object,
    /// `object name`, which may be all
    ObjectNamed(Name),
    /// `object name isa ..`
    Parents(Name, NamesState),
    /// `predicate`
    Predicate,
    /// `predicate name`
    PredicateNamed(Name),
    /// `predicate name isa ..`
    PredicateParents(Name, NamesState),
    /// `predicate name isa .. when ..`
    PredicateTest(Name, Items<Name>, TestState),
    /// `var`
    Var,
    /// A field, and whether it may change.
    Field(bool, FieldState),
    Method(MethodState),
    /// A method whose body is open.
    Body(WholeHead, State),
    /// A declaration that nothing can go on with.
    Whole(Decl),
}
