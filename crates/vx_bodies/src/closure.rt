//! The formals of a closure.
ghost use Rattle.std.specs.Prelude.{◌≡◌, ◌∷◌, ◌++◌, [], IfOk};
ghost use Rattle.vx_bodies.specs.Machine as spec;

use crate::after::stuck;
use crate::operand::opened;
use crate::scope::is_bound_after;
use crate::state::{Next, Part, Pending, State, Within};
use sqlite_items::Items;
use std::alloc::{AllocError, Global};
use vx_names::Name;
use vx_syntax::{MAX_CLOSURE_FORMALS, Mark, Token};

#[tactic(auto, unfolding(crate::specs::Machine::formal))]
fn formal(given: Items<Name>, x: Name, pending: Pending, within: Within) -> Next
    ensures { result ≡ spec.formal given x pending within }
{
    if is_bound_after(given.as_slice(), within.block.get(), &x) {
        stuck((given, x, pending, within))
    } else {
        Next::On(State::Inside(Part::Formed(given, x), pending, within))
    }
}

/// After `&`.
#[tactic(auto, unfolding(crate::specs::Machine::ampersand))]
pub fn ampersand(pending: Pending, within: Within, token: Token) -> Next
    ensures { result ≡ spec.ampersand pending within token }
{
    match token {
        Token::Mark(Mark::Open) => Next::On(State::Inside(Part::FirstFormal, pending, within)),
        token => stuck((pending, within, token)),
    }
}

/// After `& (`.
#[tactic(auto, unfolding(crate::specs::Machine::first_formal))]
pub fn first_formal(alloc: Global, pending: Pending, within: Within, token: Token) -> Next
    ensures { result ≡ spec.first_formal pending within token }
{
    match token {
        Token::Mark(Mark::Close) => Next::On(State::Inside(
            Part::Formals(Items::new(alloc)),
            pending,
            within,
        )),
        Token::Word(x) => formal(Items::new(alloc), x, pending, within),
        token => stuck((pending, within, token)),
    }
}

/// After `& ( .. ,`.
#[tactic(auto, unfolding(crate::specs::Machine::next_formal))]
pub fn next_formal(given: Items<Name>, pending: Pending, within: Within, token: Token) -> Next
    ensures { result ≡ spec.next_formal given pending within token }
{
    match token {
        Token::Word(x) => formal(given, x, pending, within),
        token => stuck((given, pending, within, token)),
    }
}

#[tactic(auto, unfolding(crate::specs::Machine::formed))]
fn last_formal(
    mut given: Items<Name>,
    x: Name,
    pending: Pending,
    within: Within,
) -> Result<Next, AllocError>
    ensures { IfOk result (λ next. next ≡ spec.formed given x pending within (Token.Mark Mark.Close)) }
{
    given.push(x)?;
    Ok(Next::On(State::Inside(Part::Formals(given), pending, within)))
}

fn with_formal(mut given: Items<Name>, x: Name) -> Result<Part, AllocError>
    ensures { IfOk result (λ part. part ≡ Part.Formal (given ++ x ∷ [])) }
{
    given.push(x)?;
    Ok(Part::Formal(given))
}

#[tactic(auto, unfolding(crate::specs::Machine::formed))]
fn another_formal(
    given: Items<Name>,
    x: Name,
    pending: Pending,
    within: Within,
) -> Result<Next, AllocError>
    ensures { IfOk result (λ next. next ≡ spec.formed given x pending within (Token.Mark Mark.Comma)) }
{
    if given.len() + 1 < MAX_CLOSURE_FORMALS {
        Ok(Next::On(State::Inside(with_formal(given, x)?, pending, within)))
    } else {
        Ok(stuck((given, x, pending, within)))
    }
}

/// After `& ( .. name`.
#[tactic(auto, unfolding(crate::specs::Machine::formed))]
pub fn formed(
    given: Items<Name>,
    x: Name,
    pending: Pending,
    within: Within,
    token: Token,
) -> Result<Next, AllocError>
    ensures { IfOk result (λ next. next ≡ spec.formed given x pending within token) }
{
    match token {
        Token::Mark(Mark::Close) => last_formal(given, x, pending, within),
        Token::Mark(Mark::Comma) => another_formal(given, x, pending, within),
        token => Ok(stuck((given, x, pending, within, token))),
    }
}

/// After `& ( .. )`.
#[tactic(auto, unfolding(crate::specs::Machine::formals))]
pub fn formals(
    alloc: Global,
    given: Items<Name>,
    pending: Pending,
    within: Within,
    token: Token,
) -> Result<Next, AllocError>
    ensures { IfOk result (λ next. next ≡ spec.formals given pending within token) }
{
    match token {
        Token::Mark(Mark::OpenBlock) => opened(alloc, given, pending, within),
        token => Ok(stuck((given, pending, within, token))),
    }
}
