//! One token of a declaration.
ghost use Rattle.std.specs.Prelude.{◌≡◌, [], ◌∷◌, IfOk, is_some};
ghost use Rattle.vx_syntax.specs.Declarations.{any};
ghost use Rattle.vx_bodies.specs.Machine.{IsSmall, step};
ghost use Rattle.vx_phrases.specs.TestMachine.{test_step, test_finished};
ghost use Rattle.vx_phrases.specs.DeclMachine as spec;

use crate::decl_state::{DeclState, FieldState, MethodState, NamesState};
use crate::field_steps::field;
use crate::head::WholeHead;
use crate::method_steps::method;
use crate::test_state::TestState;
use crate::test_steps::{test_begun, test_finished, test_may_end, test_step};
use crate::words::any_name;
use sqlite_items::Items;
use std::alloc::{AllocError, Global};
use vx_bodies::{Next, State};
use vx_names::Name;
use vx_syntax::{Decl, Keyword, Mark, Start, Test, Token};

// Lets go of what was read, at a token with which no declaration goes on. A function of its own, since a function pays at
// each call for what it may let go of.
fn stopped<T: Drop>(read: T) -> Option<DeclState>
    ensures { result ≡ None }
{
    drop(read);
    None
}

fn decl_begins(token: Token) -> Option<DeclState>
    ensures { result ≡ spec.decl_begins token }
{
    match token {
        Token::Keyword(Keyword::Object) => Some(DeclState::Object),
        Token::Keyword(Keyword::Predicate) => Some(DeclState::Predicate),
        Token::Keyword(Keyword::Var) => Some(DeclState::Var),
        Token::Keyword(Keyword::Field) => Some(DeclState::Field(false, FieldState::Begun)),
        Token::Keyword(Keyword::Method) => Some(DeclState::Method(MethodState::Begun)),
        _ => None,
    }
}

fn object(token: Token) -> Option<DeclState>
    ensures { result ≡ spec.object token }
{
    match token {
        Token::Word(name) => Some(DeclState::ObjectNamed(name)),
        _ => None,
    }
}

fn object_named(alloc: Global, name: Name, token: Token) -> Option<DeclState>
    ensures { result ≡ spec.object_named name token }
{
    match token {
        Token::Keyword(Keyword::Isa) => Some(DeclState::Parents(
            name,
            NamesState::Wanted(Items::new(alloc)),
        )),
        _ => None,
    }
}

fn with_name(mut given: Items<Name>, name: Name) -> Result<Items<Name>, AllocError>
    ensures { IfOk result (λ more. more ≡ spec.with_name given name) }
{
    given.push(name)?;
    Ok(given)
}

fn name_wanted(given: Items<Name>, token: Token) -> Result<Option<NamesState>, AllocError>
    ensures { IfOk result (λ next. next ≡ spec.names (NamesState.Wanted given) token) }
{
    match token {
        Token::Word(name) => Ok(Some(NamesState::Given(with_name(given, name)?))),
        _ => Ok(None),
    }
}

fn name_given(given: Items<Name>, token: Token) -> Option<NamesState>
    ensures { result ≡ spec.names (NamesState.Given given) token }
{
    match token {
        Token::Mark(Mark::Comma) => Some(NamesState::Wanted(given)),
        _ => None,
    }
}

fn names(state: NamesState, token: Token) -> Result<Option<NamesState>, AllocError>
    ensures { IfOk result (λ next. next ≡ spec.names state token) }
{
    match state {
        NamesState::Wanted(given) => name_wanted(given, token),
        NamesState::Given(given) => Ok(name_given(given, token)),
    }
}

fn in_parents(name: Name, next: Option<NamesState>) -> Option<DeclState>
    ensures { result ≡ spec.in_parents name next }
{
    match next {
        Some(state) => Some(DeclState::Parents(name, state)),
        None => None,
    }
}

fn predicate(token: Token) -> Option<DeclState>
    ensures { result ≡ spec.predicate token }
{
    match token {
        Token::Word(name) => Some(DeclState::PredicateNamed(name)),
        _ => None,
    }
}

fn predicate_named(alloc: Global, name: Name, token: Token) -> Option<DeclState>
    ensures { result ≡ spec.predicate_named name token }
{
    match token {
        Token::Keyword(Keyword::Isa) => Some(DeclState::PredicateParents(
            name,
            NamesState::Wanted(Items::new(alloc)),
        )),
        _ => None,
    }
}

fn in_predicate(name: Name, next: Option<NamesState>) -> Option<DeclState>
    ensures { result ≡ spec.in_predicate name next }
{
    match next {
        Some(state) => Some(DeclState::PredicateParents(name, state)),
        None => None,
    }
}

fn predicate_given(alloc: Global, name: Name, given: Items<Name>, token: Token) -> Option<DeclState>
    ensures { result ≡ spec.predicate_parents name (NamesState.Given given) token }
{
    match token {
        Token::Keyword(Keyword::When) => Some(DeclState::PredicateTest(
            name,
            given,
            test_begun(alloc),
        )),
        token => in_predicate(name, name_given(given, token)),
    }
}

fn predicate_parents(
    alloc: Global,
    name: Name,
    state: NamesState,
    token: Token,
) -> Result<Option<DeclState>, AllocError>
    ensures { IfOk result (λ next. next ≡ spec.predicate_parents name state token) }
{
    match state {
        NamesState::Wanted(given) => Ok(in_predicate(name, name_wanted(given, token)?)),
        NamesState::Given(given) => Ok(predicate_given(alloc, name, given, token)),
    }
}

fn in_test(name: Name, parents: Items<Name>, next: Option<TestState>) -> Option<DeclState>
    ensures { result ≡ spec.in_test name parents next }
{
    match next {
        Some(state) => Some(DeclState::PredicateTest(name, parents, state)),
        None => None,
    }
}

fn predicate_test(
    alloc: Global,
    name: Name,
    parents: Items<Name>,
    state: TestState,
    token: Token,
) -> Result<Option<DeclState>, AllocError>
    requires { IsSmall token }
    ensures { IfOk result (λ next. next ≡ spec.in_test name parents (test_step state token)) }
{
    let next = test_step(alloc, state, token)?;
    Ok(in_test(name, parents, next))
}

fn var(token: Token) -> Option<DeclState>
    ensures { result ≡ spec.var token }
{
    match token {
        Token::Keyword(Keyword::Field) => Some(DeclState::Field(true, FieldState::Begun)),
        _ => None,
    }
}

fn in_body(head: WholeHead, next: Next) -> Option<DeclState>
    ensures { result ≡ spec.in_body head next }
{
    match next {
        Next::On(state) => Some(DeclState::Body(head, state)),
        Next::Done(body) => Some(DeclState::Whole(head.method(body))),
        Next::Stuck => stopped(head),
    }
}

fn body(
    alloc: Global,
    head: WholeHead,
    state: State,
    token: Token,
) -> Result<Option<DeclState>, AllocError>
    requires { IsSmall token }
    ensures { IfOk result (λ next. next ≡ spec.in_body head (step state token)) }
{
    let next = vx_bodies::step(alloc, state, token)?;
    Ok(in_body(head, next))
}

/// The state before the first token of a declaration.
pub fn decl_begun() -> DeclState
    ensures { result ≡ spec.decl_begun }
{
    DeclState::Begun
}

/// The state after the token, and None where no declaration goes on with it.
#[tactic(auto, unfolding(crate::specs::DeclMachine::decl_step))]
pub fn decl_step(
    alloc: Global,
    state: DeclState,
    token: Token,
) -> Result<Option<DeclState>, AllocError>
    requires { IsSmall token }
    ensures { IfOk result (λ next. next ≡ spec.decl_step state token) }
{
    match state {
        // First, since most tokens stand in bodies, and a function pays at each call for the room of all its arms.
        DeclState::Body(head, state) => body(alloc, head, state, token),
        state => stepped(alloc, state, token),
    }
}

// The same, whatever the state is.
#[tactic(auto, unfolding(crate::specs::DeclMachine::decl_step))]
fn stepped(alloc: Global, state: DeclState, token: Token) -> Result<Option<DeclState>, AllocError>
    requires { IsSmall token }
    ensures { IfOk result (λ next. next ≡ spec.decl_step state token) }
{
    match state {
        DeclState::Begun => Ok(decl_begins(token)),
        DeclState::Object => Ok(object(token)),
        DeclState::ObjectNamed(name) => Ok(object_named(alloc, name, token)),
        DeclState::Parents(name, state) => Ok(in_parents(name, names(state, token)?)),
        DeclState::Predicate => Ok(predicate(token)),
        DeclState::PredicateNamed(name) => Ok(predicate_named(alloc, name, token)),
        DeclState::PredicateParents(name, state) => predicate_parents(alloc, name, state, token),
        DeclState::PredicateTest(name, parents, state) => predicate_test(
            alloc, name, parents, state, token,
        ),
        DeclState::Var => Ok(var(token)),
        DeclState::Field(changeable, state) => Ok(field(changeable, state, token)),
        DeclState::Method(state) => method(alloc, state, token),
        DeclState::Body(head, state) => body(alloc, head, state, token),
        DeclState::Whole(decl) => Ok(stopped(decl)),
    }
}

fn only_any(alloc: Global) -> Result<Items<Name>, AllocError>
    ensures { IfOk result (λ parents. parents ≡ any ∷ []) }
{
    let mut parents = Items::new(alloc);
    parents.push(any_name(alloc)?)?;
    Ok(parents)
}

fn whole_object(alloc: Global, name: Name) -> Result<Decl, AllocError>
    ensures { IfOk result (λ decl. decl ≡ spec.whole_object name) }
{
    let parents = only_any(alloc)?;
    Ok(Decl::Object { name, parents })
}

fn whole_parents(name: Name, state: NamesState) -> Option<Decl>
    ensures { result ≡ spec.whole_parents name state }
{
    match state {
        NamesState::Given(parents) => Some(Decl::Object { name, parents }),
        NamesState::Wanted(_) => None,
    }
}

fn with_test(name: Name, parents: Items<Name>, test: Option<Test>) -> Option<Decl>
    ensures { result ≡ spec.with_test name parents test }
{
    match test {
        Some(test) => Some(Decl::Predicate {
            name,
            parents,
            test,
        }),
        None => None,
    }
}

fn whole_test(
    alloc: Global,
    name: Name,
    parents: Items<Name>,
    state: TestState,
) -> Result<Option<Decl>, AllocError>
    ensures { IfOk result (λ decl. decl ≡ spec.with_test name parents (test_finished state)) }
{
    let test = test_finished(alloc, state)?;
    Ok(with_test(name, parents, test))
}

fn whole_field(changeable: bool, state: FieldState) -> Option<Decl>
    ensures { result ≡ spec.whole_field changeable state }
{
    match state {
        FieldState::Held(key) => Some(Decl::Field {
            key,
            start: Start::Nil,
            changeable,
        }),
        state => {
            drop(state);
            None
        }
    }
}

/// The declaration that is read, and None where more is needed.
#[tactic(auto, unfolding(crate::specs::DeclMachine::decl_finished))]
pub fn decl_finished(alloc: Global, state: DeclState) -> Result<Option<Decl>, AllocError>
    ensures { IfOk result (λ decl. decl ≡ spec.decl_finished state) }
{
    match state {
        DeclState::ObjectNamed(name) => Ok(Some(whole_object(alloc, name)?)),
        DeclState::Parents(name, state) => Ok(whole_parents(name, state)),
        DeclState::PredicateTest(name, parents, state) => whole_test(alloc, name, parents, state),
        DeclState::Field(changeable, state) => Ok(whole_field(changeable, state)),
        DeclState::Whole(decl) => Ok(Some(decl)),
        state => {
            drop(state);
            Ok(None)
        }
    }
}

/// Whether the declaration may end here.
#[tactic(auto, unfolding(crate::specs::DeclMachine::decl_finished))]
pub fn decl_may_end(state: &DeclState) -> bool
    ensures { result ≡ is_some (spec.decl_finished state.now) }
{
    match state {
        DeclState::ObjectNamed(_) => true,
        DeclState::Parents(_, NamesState::Given(_)) => true,
        DeclState::PredicateTest(_, _, state) => test_may_end(state),
        DeclState::Field(_, FieldState::Held(_)) => true,
        DeclState::Whole(_) => true,
        _ => false,
    }
}
