//! The ends of bodies, statements, expressions and operands.
ghost use Rattle.std.specs.Prelude.{◌≡◌, ◌∷◌, ◌++◌, ◌+◌, ◌<◌, [], length, IfOk};
ghost use Rattle.vx_syntax.specs.Expressions.{is_back, brings, max_arguments};
ghost use Rattle.vx_bodies.specs.Machine as spec;

use crate::arguments::Arguments;
use crate::declared::Declared;
use crate::fields::Fields;
use crate::operators::{no_pending, operated, sent, value};
use crate::stack::Stack;
use crate::state::{Block, Bracket, Kind, Level, Next, Part, Pending, State, Within};
use sqlite_items::{Boxed, Items};
use std::alloc::{AllocError, Global};
use vx_names::Name;
use vx_syntax::{Body, Expr, Mark, Stmt, Token};

/// Lets go of what was read, at a token with which no body goes on.
pub fn stuck<T: Drop>(read: T) -> Next
    ensures { result ≡ Next.Stuck }
{
    drop(read);
    Next::Stuck
}

// The closure's body is read, and the statement that it stands in goes on.
#[tactic(auto, unfolding(crate::specs::Machine::closed))]
fn reopened(
    alloc: Global,
    level: Level,
    levels: Stack<Level>,
    body: Items<Stmt>,
) -> Result<Next, AllocError>
    ensures { IfOk result (λ next. next ≡ spec.closed (level ∷ levels) body) }
{
    let Level {
        pending,
        brackets,
        kind,
        declared,
        statements,
        formals,
    } = level;
    let block = Boxed::new(
        alloc,
        Block {
            levels,
            declared,
            statements,
        },
    )?;
    let within = Within {
        brackets,
        kind,
        block,
    };
    Ok(Next::On(State::Operated(pending, Expr::Closure(formals, Body(body)), within)))
}

/// After the `}` of a body.
#[tactic(auto, unfolding(crate::specs::Machine::closed))]
pub fn closed(
    alloc: Global,
    mut levels: Stack<Level>,
    body: Items<Stmt>,
) -> Result<Next, AllocError>
    ensures { IfOk result (λ next. next ≡ spec.closed levels body) }
{
    match levels.pop() {
        None => {
            drop(levels);
            Ok(Next::Done(Body(body)))
        }
        Some(level) => reopened(alloc, level, levels, body),
    }
}

fn is_back(a: &Stmt) -> bool
    ensures { result ≡ is_back a.now }
{
    match a {
        Stmt::Back(_) => true,
        _ => false,
    }
}

fn brought(alloc: Global, declared: Declared, a: &Stmt) -> Result<Declared, AllocError>
    ensures { IfOk result (λ d. d ≡ brings declared a.now) }
{
    match a {
        Stmt::Let(x, _) => declared.with(alloc, x.copy(alloc)?, false),
        Stmt::LetVar(x, _) => declared.with(alloc, x.copy(alloc)?, true),
        _ => Ok(declared),
    }
}

fn with_statement(alloc: Global, block: Boxed<Block>, a: Stmt) -> Result<Boxed<Block>, AllocError>
    ensures { IfOk result (λ b. b ≡ spec.with_statement block a) }
{
    let Block {
        levels,
        declared,
        mut statements,
    } = block.into_inner();
    let declared = brought(alloc, declared, &a)?;
    statements.push(a)?;
    Boxed::new(
        alloc,
        Block {
            levels,
            declared,
            statements,
        },
    )
}

#[tactic(auto, unfolding(crate::specs::Machine::stated))]
fn next_statement(alloc: Global, a: Stmt, block: Boxed<Block>) -> Result<Next, AllocError>
    ensures { IfOk result (λ next. next ≡ spec.stated a block (Token.Mark Mark.Semicolon)) }
{
    let is_last = is_back(&a);
    let block = with_statement(alloc, block, a)?;
    let state = if is_last {
        State::Closing(block)
    } else {
        State::Statement(block)
    };
    Ok(Next::On(state))
}

#[tactic(auto, unfolding(crate::specs::Machine::stated))]
fn last_statement(alloc: Global, a: Stmt, block: Boxed<Block>) -> Result<Next, AllocError>
    ensures { IfOk result (λ next. next ≡ spec.stated a block (Token.Mark Mark.CloseBlock)) }
{
    let Block {
        levels,
        declared,
        mut statements,
    } = block.into_inner();
    drop(declared);
    statements.push(a)?;
    closed(alloc, levels, statements)
}

#[tactic(auto, unfolding(crate::specs::Machine::stated))]
fn stated(alloc: Global, a: Stmt, block: Boxed<Block>, token: Token) -> Result<Next, AllocError>
    ensures { IfOk result (λ next. next ≡ spec.stated a block token) }
{
    match token {
        Token::Mark(Mark::Semicolon) => next_statement(alloc, a, block),
        Token::Mark(Mark::CloseBlock) => last_statement(alloc, a, block),
        token => Ok(stuck((a, block, token))),
    }
}

fn made(kind: Kind, a: Expr) -> Stmt
    ensures { result ≡ spec.made kind a }
{
    match kind {
        Kind::Value(true, x) => Stmt::LetVar(x, a),
        Kind::Value(false, x) => Stmt::Let(x, a),
        Kind::Changed(x) => Stmt::Set(x, a),
        Kind::Plain => Stmt::Do(a),
        Kind::Answer => Stmt::Back(a),
    }
}

/// What waits for an operand in one more bracket.
pub fn bracketed(bracket: Bracket, mut within: Within) -> Result<State, AllocError>
    ensures { IfOk result (λ state. state ≡ State.Operand spec.no_pending (spec.bracketed bracket within)) }
{
    within.brackets.push(bracket)?;
    Ok(State::Operand(no_pending(), within))
}

// A call, whose arguments before this one are read.
#[derive(Drop)]
struct Call {
    pending: Pending,
    name: Name,
    given: Arguments<Expr>,
}

#[tactic(auto, unfolding(crate::specs::Machine::ended))]
fn last_argument(call: Call, a: Expr, within: Within) -> Result<Next, AllocError>
    ensures { IfOk result (λ next. next ≡ spec.ended (Bracket.Arguments call.pending call.name call.given ∷ within.brackets) within.kind within.block a (Token.Mark Mark.Close)) }
{
    let Call {
        pending,
        name,
        given,
    } = call;
    let arguments = given.with_last(a)?;
    Ok(Next::On(State::Operated(pending, sent(name, arguments), within)))
}

fn another(call: Call, a: Expr, within: Within) -> Result<State, AllocError>
    requires { length call.given + 1 < max_arguments }
    ensures { IfOk result (λ state. state ≡ State.Operand spec.no_pending (spec.bracketed (Bracket.Arguments call.pending call.name (call.given ++ a ∷ [])) within)) }
{
    let Call {
        pending,
        name,
        given,
    } = call;
    let given = given.with(a)?;
    bracketed(Bracket::Arguments(pending, name, given), within)
}

#[tactic(auto, unfolding(crate::specs::Machine::ended))]
fn next_argument(call: Call, a: Expr, within: Within) -> Result<Next, AllocError>
    ensures { IfOk result (λ next. next ≡ spec.ended (Bracket.Arguments call.pending call.name call.given ∷ within.brackets) within.kind within.block a (Token.Mark Mark.Comma)) }
{
    if call.given.may_go_on() {
        Ok(Next::On(another(call, a, within)?))
    } else {
        Ok(stuck((call, a, within)))
    }
}

#[tactic(auto, unfolding(crate::specs::Machine::ended))]
fn after_argument(call: Call, a: Expr, within: Within, token: Token) -> Result<Next, AllocError>
    ensures { IfOk result (λ next. next ≡ spec.ended (Bracket.Arguments call.pending call.name call.given ∷ within.brackets) within.kind within.block a token) }
{
    match token {
        Token::Mark(Mark::Close) => last_argument(call, a, within),
        Token::Mark(Mark::Comma) => next_argument(call, a, within),
        token => Ok(stuck((call, a, within, token))),
    }
}

#[tactic(auto, unfolding(crate::specs::Machine::ended))]
fn after_paren(pending: Pending, a: Expr, within: Within, token: Token) -> Next
    ensures { result ≡ spec.ended (Bracket.Paren pending ∷ within.brackets) within.kind within.block a token }
{
    match token {
        Token::Mark(Mark::Close) => Next::On(State::Operated(pending, a, within)),
        token => stuck((pending, a, within, token)),
    }
}

// A constructor, whose fields before this one are read.
#[derive(Drop)]
struct Construction {
    pending: Pending,
    parent: Name,
    given: Boxed<Fields>,
    field: Name,
}

#[tactic(auto, unfolding(crate::specs::Machine::ended))]
fn last_field(construction: Construction, a: Expr, within: Within) -> Result<Next, AllocError>
    ensures { IfOk result (λ next. next ≡ spec.ended (Bracket.Fields construction.pending construction.parent construction.given construction.field ∷ within.brackets) within.kind within.block a (Token.Mark Mark.CloseBlock)) }
{
    let Construction {
        pending,
        parent,
        given,
        field,
    } = construction;
    let given = given.into_inner().with_last(field, a)?;
    Ok(Next::On(State::Operated(pending, Expr::New(parent, given), within)))
}

#[tactic(auto, unfolding(crate::specs::Machine::ended))]
fn next_field(
    alloc: Global,
    construction: Construction,
    a: Expr,
    within: Within,
) -> Result<Next, AllocError>
    ensures { IfOk result (λ next. next ≡ spec.ended (Bracket.Fields construction.pending construction.parent construction.given construction.field ∷ within.brackets) within.kind within.block a (Token.Mark Mark.Comma)) }
{
    let Construction {
        pending,
        parent,
        given,
        field,
    } = construction;
    let given = Boxed::new(alloc, given.into_inner().with(alloc, field, a)?)?;
    Ok(Next::On(State::Inside(Part::Field(parent, given), pending, within)))
}

#[tactic(auto, unfolding(crate::specs::Machine::ended))]
fn after_field(
    alloc: Global,
    construction: Construction,
    a: Expr,
    within: Within,
    token: Token,
) -> Result<Next, AllocError>
    ensures { IfOk result (λ next. next ≡ spec.ended (Bracket.Fields construction.pending construction.parent construction.given construction.field ∷ within.brackets) within.kind within.block a token) }
{
    match token {
        Token::Mark(Mark::CloseBlock) => last_field(construction, a, within),
        Token::Mark(Mark::Comma) => next_field(alloc, construction, a, within),
        token => Ok(stuck((construction, a, within, token))),
    }
}

fn after_bracket(
    alloc: Global,
    bracket: Bracket,
    a: Expr,
    within: Within,
    token: Token,
) -> Result<Next, AllocError>
    ensures { IfOk result (λ next. next ≡ spec.ended (bracket ∷ within.brackets) within.kind within.block a token) }
{
    match bracket {
        Bracket::Paren(pending) => Ok(after_paren(pending, a, within, token)),
        Bracket::Arguments(pending, name, given) => after_argument(
            Call {
                pending,
                name,
                given,
            },
            a,
            within,
            token,
        ),
        Bracket::Fields(pending, parent, given, field) => after_field(
            alloc,
            Construction {
                pending,
                parent,
                given,
                field,
            },
            a,
            within,
            token,
        ),
    }
}

#[tactic(auto, unfolding(crate::specs::Machine::ended))]
fn ended(alloc: Global, a: Expr, within: Within, token: Token) -> Result<Next, AllocError>
    ensures { IfOk result (λ next. next ≡ spec.ended within.brackets within.kind within.block a token) }
{
    let Within {
        mut brackets,
        kind,
        block,
    } = within;
    match brackets.pop() {
        None => {
            drop(brackets);
            stated(alloc, made(kind, a), block, token)
        }
        Some(bracket) => {
            let within = Within {
                brackets,
                kind,
                block,
            };
            after_bracket(alloc, bracket, a, within, token)
        }
    }
}

/// After an operand: an operator, or the end of the expression.
#[tactic(auto, unfolding(crate::specs::Machine::after_operand))]
pub fn after_operand(
    alloc: Global,
    pending: Pending,
    a: Expr,
    within: Within,
    token: Token,
) -> Result<Next, AllocError>
    ensures { IfOk result (λ next. next ≡ spec.after_operand pending a within token) }
{
    match token {
        Token::Operator(operator) => Ok(Next::On(State::Operand(
            operated(alloc, operator, pending, a)?,
            within,
        ))),
        token => {
            let a = value(alloc, pending, a)?;
            ended(alloc, a, within, token)
        }
    }
}
