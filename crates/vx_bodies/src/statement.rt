//! Where a statement begins.
ghost use Rattle.std.specs.Prelude.{◌≡◌, IfOk};
ghost use Rattle.vx_bodies.specs.Machine as spec;
ghost use Rattle.vx_bodies.specs.Machine.{IsSmall};

use crate::after::{closed, stuck};
use crate::operand::{called, operand};
use crate::operators::no_pending;
use crate::scope::{is_in_scope, is_variable_in_scope};
use crate::stack::Stack;
use crate::state::{Block, Kind, Next, State, Within};
use sqlite_items::Boxed;
use std::alloc::{AllocError, Global};
use vx_names::Name;
use vx_syntax::{Keyword, Mark, Token};

fn as_statement(alloc: Global, kind: Kind, block: Boxed<Block>) -> Within
    ensures { result ≡ spec.as_statement kind block }
{
    Within {
        brackets: Stack::new(alloc),
        kind,
        block,
    }
}

fn expression(alloc: Global, kind: Kind, block: Boxed<Block>) -> Next
    ensures { result ≡ Next.On (State.Operand spec.no_pending (spec.as_statement kind block)) }
{
    Next::On(State::Operand(no_pending(), as_statement(alloc, kind, block)))
}

fn ended(alloc: Global, block: Boxed<Block>) -> Result<Next, AllocError>
    ensures { IfOk result (λ next. next ≡ spec.closed block.levels block.statements) }
{
    let Block {
        levels,
        declared,
        statements,
    } = block.into_inner();
    drop(declared);
    closed(alloc, levels, statements)
}

#[tactic(auto, unfolding(crate::specs::Machine::semicolon))]
fn semicolon(block: Boxed<Block>) -> Next
    ensures { result ≡ spec.semicolon block.statements block }
{
    if block.get().statements.is_empty() {
        Next::On(State::Closing(block))
    } else {
        stuck(block)
    }
}

/// Where a statement may begin.
#[tactic(auto, unfolding(crate::specs::Machine::statement))]
pub fn statement(alloc: Global, block: Boxed<Block>, token: Token) -> Result<Next, AllocError>
    requires { IsSmall token }
    ensures { IfOk result (λ next. next ≡ spec.statement block token) }
{
    match token {
        Token::Keyword(Keyword::Let) => Ok(Next::On(State::Let(block))),
        Token::Mark(Mark::Caret) => Ok(expression(alloc, Kind::Answer, block)),
        Token::Word(x) => Ok(Next::On(State::Named(block, x))),
        Token::Mark(Mark::CloseBlock) => ended(alloc, block),
        Token::Mark(Mark::Semicolon) => Ok(semicolon(block)),
        token => operand(
            alloc,
            no_pending(),
            as_statement(alloc, Kind::Plain, block),
            token,
        ),
    }
}

#[tactic(auto, unfolding(crate::specs::Machine::named))]
fn assigned(alloc: Global, block: Boxed<Block>, name: Name) -> Next
    ensures { result ≡ spec.named block name (Token.Mark Mark.Becomes) }
{
    if is_variable_in_scope(block.get(), &name) {
        expression(alloc, Kind::Changed(name), block)
    } else {
        stuck((block, name))
    }
}

/// After the first name of a statement.
#[tactic(auto, unfolding(crate::specs::Machine::named))]
pub fn named(
    alloc: Global,
    block: Boxed<Block>,
    name: Name,
    token: Token,
) -> Result<Next, AllocError>
    ensures { IfOk result (λ next. next ≡ spec.named block name token) }
{
    match token {
        Token::Mark(Mark::Becomes) => Ok(assigned(alloc, block, name)),
        token => called(
            alloc,
            name,
            no_pending(),
            as_statement(alloc, Kind::Plain, block),
            token,
        ),
    }
}

#[tactic(auto, unfolding(crate::specs::Machine::fresh))]
fn fresh(block: Boxed<Block>, is_variable: bool, name: Name) -> Next
    ensures { result ≡ spec.fresh block is_variable name }
{
    if is_in_scope(block.get(), &name) {
        stuck((block, name))
    } else {
        Next::On(State::Bound(block, is_variable, name))
    }
}

/// After `let`.
#[tactic(auto, unfolding(crate::specs::Machine::after_let))]
pub fn after_let(block: Boxed<Block>, token: Token) -> Next
    ensures { result ≡ spec.after_let block token }
{
    match token {
        Token::Keyword(Keyword::Var) => Next::On(State::LetVar(block)),
        Token::Word(x) => fresh(block, false, x),
        token => stuck((block, token)),
    }
}

/// After `let var`.
#[tactic(auto, unfolding(crate::specs::Machine::after_var))]
pub fn after_var(block: Boxed<Block>, token: Token) -> Next
    ensures { result ≡ spec.after_var block token }
{
    match token {
        Token::Word(x) => fresh(block, true, x),
        token => stuck((block, token)),
    }
}

/// After `let name` or `let var name`.
#[tactic(auto, unfolding(crate::specs::Machine::bound))]
pub fn bound(
    alloc: Global,
    block: Boxed<Block>,
    is_variable: bool,
    name: Name,
    token: Token,
) -> Next
    ensures { result ≡ spec.bound block is_variable name token }
{
    match token {
        Token::Mark(Mark::Becomes) => expression(alloc, Kind::Value(is_variable, name), block),
        token => stuck((block, name, token)),
    }
}

/// Where only the end of the body may follow.
#[tactic(auto, unfolding(crate::specs::Machine::closing))]
pub fn closing(alloc: Global, block: Boxed<Block>, token: Token) -> Result<Next, AllocError>
    ensures { IfOk result (λ next. next ≡ spec.closing block token) }
{
    match token {
        Token::Mark(Mark::CloseBlock) => ended(alloc, block),
        token => Ok(stuck((block, token))),
    }
}
