//! Where an operand begins.
ghost use Rattle.std.specs.Prelude.{◌≡◌, ◌<◌, ◌^◌, [], pos, neg_ℤ, IfOk};
ghost use Rattle.vx_bodies.specs.Machine as spec;
ghost use Rattle.vx_bodies.specs.Machine.{IsSmall};

use crate::after::{after_operand, bracketed, stuck};
use crate::arguments::Arguments;
use crate::declared::Declared;
use crate::operators::{no_pending, sent};
use crate::stack::Stack;
use crate::state::{Block, Bracket, Level, Next, Part, Pending, State, Within};
use sqlite_items::{Boxed, Items};
use std::alloc::{AllocError, Global};
use vx_names::{Name, Operator};
use vx_syntax::{Expr, Keyword, Mark, Token};

fn number(n: u128) -> Expr
    requires { n < 2 ^ 127 }
    ensures { result ≡ Expr.Int (pos n) }
{
    Expr::Int(n as i128)
}

fn negative(n: u128) -> Expr
    requires { n < 2 ^ 127 }
    ensures { result ≡ Expr.Int (neg_ℤ (pos n)) }
{
    Expr::Int(-(n as i128))
}

/// The body of a closure with these formals begins.
#[tactic(auto, unfolding(crate::specs::Machine::opened))]
pub fn opened(
    alloc: Global,
    formals: Items<Name>,
    pending: Pending,
    within: Within,
) -> Result<Next, AllocError>
    ensures { IfOk result (λ next. next ≡ Next.On (State.Statement (spec.opened formals pending within))) }
{
    let Within {
        brackets,
        kind,
        block,
    } = within;
    let Block {
        mut levels,
        declared,
        statements,
    } = block.into_inner();
    levels.push(Level {
        pending,
        brackets,
        kind,
        declared,
        statements,
        formals,
    })?;
    Ok(Next::On(State::Statement(Boxed::new(
        alloc,
        Block {
            levels,
            declared: Declared::new(alloc),
            statements: Items::new(alloc),
        },
    )?)))
}

#[tactic(auto, unfolding(crate::specs::Machine::operand))]
fn minus(operator: Operator, pending: Pending, within: Within) -> Next
    ensures { result ≡ spec.operand pending within (Token.Operator operator) }
{
    match operator {
        Operator::Minus => Next::On(State::Inside(Part::Signed, pending, within)),
        _ => stuck((pending, within)),
    }
}

#[tactic(auto, unfolding(crate::specs::Machine::operand))]
fn opening(alloc: Global, mark: Mark, pending: Pending, within: Within) -> Result<Next, AllocError>
    ensures { IfOk result (λ next. next ≡ spec.operand pending within (Token.Mark mark)) }
{
    match mark {
        Mark::Open => Ok(Next::On(bracketed(Bracket::Paren(pending), within)?)),
        Mark::OpenBlock => opened(alloc, Items::new(alloc), pending, within),
        Mark::Ampersand => Ok(Next::On(State::Inside(Part::Ampersand, pending, within))),
        _ => Ok(stuck((pending, within))),
    }
}

#[tactic(auto, unfolding(crate::specs::Machine::operand))]
fn reserved(keyword: Keyword, pending: Pending, within: Within) -> Next
    ensures { result ≡ spec.operand pending within (Token.Keyword keyword) }
{
    match keyword {
        Keyword::Object => Next::On(State::Inside(Part::Object, pending, within)),
        Keyword::Resend => Next::On(State::Inside(Part::Resend, pending, within)),
        _ => stuck((pending, within)),
    }
}

/// Where an operand is wanted.
#[tactic(auto, unfolding(crate::specs::Machine::operand))]
pub fn operand(
    alloc: Global,
    pending: Pending,
    within: Within,
    token: Token,
) -> Result<Next, AllocError>
    requires { IsSmall token }
    ensures { IfOk result (λ next. next ≡ spec.operand pending within token) }
{
    match token {
        Token::Number(n) => Ok(Next::On(State::Operated(pending, number(n), within))),
        Token::Text(bytes) => Ok(Next::On(State::Operated(pending, Expr::Text(bytes), within))),
        Token::Word(x) => Ok(Next::On(State::Inside(Part::Called(x), pending, within))),
        Token::Operator(operator) => Ok(minus(operator, pending, within)),
        Token::Mark(mark) => opening(alloc, mark, pending, within),
        Token::Keyword(keyword) => Ok(reserved(keyword, pending, within)),
        Token::Bad => Ok(stuck((pending, within))),
    }
}

/// After a `-` that is no operator.
#[tactic(auto, unfolding(crate::specs::Machine::signed))]
pub fn signed(pending: Pending, within: Within, token: Token) -> Next
    requires { IsSmall token }
    ensures { result ≡ spec.signed pending within token }
{
    match token {
        Token::Number(n) => Next::On(State::Operated(pending, negative(n), within)),
        token => stuck((pending, within, token)),
    }
}

/// After a name, which may be called.
#[tactic(auto, unfolding(crate::specs::Machine::called))]
pub fn called(
    alloc: Global,
    name: Name,
    pending: Pending,
    within: Within,
    token: Token,
) -> Result<Next, AllocError>
    ensures { IfOk result (λ next. next ≡ spec.called name pending within token) }
{
    match token {
        Token::Mark(Mark::Open) => Ok(Next::On(State::Inside(
            Part::FirstArgument(name),
            pending,
            within,
        ))),
        token => after_operand(alloc, pending, Expr::Name(name), within, token),
    }
}

fn in_call(
    alloc: Global,
    name: Name,
    pending: Pending,
    mut within: Within,
) -> Result<Within, AllocError>
    ensures { IfOk result (λ w. w ≡ spec.bracketed (Bracket.Arguments pending name []) within) }
{
    within
        .brackets
        .push(Bracket::Arguments(pending, name, Arguments::new(alloc)))?;
    Ok(within)
}

/// After `name (`.
#[tactic(auto, unfolding(crate::specs::Machine::first_argument))]
pub fn first_argument(
    alloc: Global,
    name: Name,
    pending: Pending,
    within: Within,
    token: Token,
) -> Result<Next, AllocError>
    requires { IsSmall token }
    ensures { IfOk result (λ next. next ≡ spec.first_argument name pending within token) }
{
    match token {
        Token::Mark(Mark::Close) => Ok(Next::On(State::Operated(
            pending,
            sent(name, Items::new(alloc)),
            within,
        ))),
        token => {
            let within = in_call(alloc, name, pending, within)?;
            operand(alloc, no_pending(), within, token)
        }
    }
}

/// After `resend`.
#[tactic(auto, unfolding(crate::specs::Machine::resend))]
pub fn resend(pending: Pending, within: Within, token: Token) -> Next
    ensures { result ≡ spec.resend pending within token }
{
    match token {
        Token::Mark(Mark::Open) => Next::On(State::Inside(Part::ResendOpen, pending, within)),
        token => stuck((pending, within, token)),
    }
}

/// After `resend (`.
#[tactic(auto, unfolding(crate::specs::Machine::resend_open))]
pub fn resend_open(pending: Pending, within: Within, token: Token) -> Next
    ensures { result ≡ spec.resend_open pending within token }
{
    match token {
        Token::Mark(Mark::Dots) => Next::On(State::Inside(Part::ResendDots, pending, within)),
        token => stuck((pending, within, token)),
    }
}

/// After `resend ( ...`.
#[tactic(auto, unfolding(crate::specs::Machine::resend_dots))]
pub fn resend_dots(pending: Pending, within: Within, token: Token) -> Next
    ensures { result ≡ spec.resend_dots pending within token }
{
    match token {
        Token::Mark(Mark::Close) => Next::On(State::Operated(pending, Expr::Resend, within)),
        token => stuck((pending, within, token)),
    }
}
