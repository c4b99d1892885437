//! A constructor and its fields.
ghost use Rattle.std.specs.Prelude.{◌≡◌, IfOk};
ghost use Rattle.vx_bodies.specs.Machine as spec;

use crate::after::{after_operand, bracketed, stuck};
use crate::fields::Fields;
use crate::state::{Bracket, Next, Part, Pending, State, Within};
use sqlite_items::{Boxed, Items};
use std::alloc::{AllocError, Global};
use vx_names::{FIELD_NAME_BYTES, Name};
use vx_syntax::{Expr, Keyword, Mark, Token};

/// After `object`.
#[tactic(auto, unfolding(crate::specs::Machine::object))]
pub fn object(pending: Pending, within: Within, token: Token) -> Next
    ensures { result ≡ spec.object pending within token }
{
    match token {
        Token::Keyword(Keyword::Isa) => Next::On(State::Inside(Part::Isa, pending, within)),
        token => stuck((pending, within, token)),
    }
}

/// After `object isa`.
#[tactic(auto, unfolding(crate::specs::Machine::isa))]
pub fn isa(pending: Pending, within: Within, token: Token) -> Next
    ensures { result ≡ spec.isa pending within token }
{
    match token {
        Token::Word(x) => Next::On(State::Inside(Part::Parent(x), pending, within)),
        token => stuck((pending, within, token)),
    }
}

/// After `object isa name`.
#[tactic(auto, unfolding(crate::specs::Machine::parent))]
pub fn parent(
    alloc: Global,
    name: Name,
    pending: Pending,
    within: Within,
    token: Token,
) -> Result<Next, AllocError>
    ensures { IfOk result (λ next. next ≡ spec.parent name pending within token) }
{
    match token {
        Token::Mark(Mark::OpenBlock) => Ok(Next::On(State::Inside(
            Part::FirstField(name),
            pending,
            within,
        ))),
        token => after_operand(
            alloc,
            pending,
            Expr::New(name, Items::new(alloc)),
            within,
            token,
        ),
    }
}

#[tactic(auto, unfolding(crate::specs::Machine::field))]
fn field(parent: Name, given: Boxed<Fields>, f: Name, pending: Pending, within: Within) -> Next
    ensures { result ≡ spec.field parent given f pending within }
{
    if f.bytes().len() > FIELD_NAME_BYTES || given.get().has(&f) {
        stuck((parent, given, f, pending, within))
    } else {
        Next::On(State::Inside(Part::FieldName(parent, given, f), pending, within))
    }
}

/// After `object isa name {`.
#[tactic(auto, unfolding(crate::specs::Machine::first_field))]
pub fn first_field(
    alloc: Global,
    parent: Name,
    pending: Pending,
    within: Within,
    token: Token,
) -> Result<Next, AllocError>
    ensures { IfOk result (λ next. next ≡ spec.first_field parent pending within token) }
{
    match token {
        Token::Mark(Mark::CloseBlock) => Ok(Next::On(State::Operated(
            pending,
            Expr::New(parent, Items::new(alloc)),
            within,
        ))),
        Token::Word(f) => {
            let given = Boxed::new(alloc, Fields::new(alloc))?;
            Ok(field(parent, given, f, pending, within))
        }
        token => Ok(stuck((parent, pending, within, token))),
    }
}

/// After `object isa name { .. ,`.
#[tactic(auto, unfolding(crate::specs::Machine::next_field))]
pub fn next_field(
    parent: Name,
    given: Boxed<Fields>,
    pending: Pending,
    within: Within,
    token: Token,
) -> Next
    ensures { result ≡ spec.next_field parent given pending within token }
{
    match token {
        Token::Word(f) => field(parent, given, f, pending, within),
        token => stuck((parent, given, pending, within, token)),
    }
}

/// A constructor whose next field is named.
#[derive(Drop)]
pub struct Named {
    pub parent: Name,
    pub given: Boxed<Fields>,
    pub field: Name,
}

/// After `object isa name { .. field`.
#[tactic(auto, unfolding(crate::specs::Machine::field_name))]
pub fn field_name(
    named: Named,
    pending: Pending,
    within: Within,
    token: Token,
) -> Result<Next, AllocError>
    ensures { IfOk result (λ next. next ≡ spec.field_name named.parent named.given named.field pending within token) }
{
    match token {
        Token::Mark(Mark::Becomes) => becomes(named, pending, within),
        token => Ok(stuck((named, pending, within, token))),
    }
}

#[tactic(auto, unfolding(crate::specs::Machine::field_name))]
fn becomes(named: Named, pending: Pending, within: Within) -> Result<Next, AllocError>
    ensures { IfOk result (λ next. next ≡ spec.field_name named.parent named.given named.field pending within (Token.Mark Mark.Becomes)) }
{
    let Named {
        parent,
        given,
        field,
    } = named;
    Ok(Next::On(bracketed(Bracket::Fields(pending, parent, given, field), within)?))
}
