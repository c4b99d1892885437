//! What operands and operators make.
ghost use Rattle.std.specs.Prelude.{◌≡◌, ◌≤◌, length, IfOk};
ghost use Rattle.vx_syntax.specs.Expressions.{comparing, adding, multiplying, level, operation, max_arguments};
ghost use Rattle.vx_bodies.specs.Machine as spec;

use crate::state::{Left, Pending};
use sqlite_items::{Boxed, Items};
use std::alloc::{AllocError, Global};
use vx_names::{Name, Operator, Selector};
use vx_syntax::Expr;

fn operation(alloc: Global, operator: Operator, a: Expr, b: Expr) -> Result<Expr, AllocError>
    ensures { IfOk result (λ v. v ≡ operation operator a b) }
{
    let name = operator.name(alloc)?;
    let mut operands = Items::new(alloc);
    operands.push(a)?;
    operands.push(b)?;
    Ok(Expr::Send(Selector { name, arity: 2 }, operands))
}

fn joined(alloc: Global, left: Option<Boxed<Left>>, a: Expr) -> Result<Expr, AllocError>
    ensures { IfOk result (λ v. v ≡ spec.joined left a) }
{
    match left {
        None => Ok(a),
        Some(left) => {
            let Left { operand, operator } = left.into_inner();
            operation(alloc, operator, operand, a)
        }
    }
}

/// What an operand ends, where no operator follows.
pub fn value(alloc: Global, pending: Pending, a: Expr) -> Result<Expr, AllocError>
    ensures { IfOk result (λ v. v ≡ spec.value pending a) }
{
    let Pending {
        comparing,
        adding,
        multiplying,
    } = pending;
    let product = joined(alloc, multiplying, a)?;
    let sum = joined(alloc, adding, product)?;
    joined(alloc, comparing, sum)
}

/// Nothing waits.
pub fn no_pending() -> Pending
    ensures { result ≡ spec.no_pending }
{
    Pending {
        comparing: None,
        adding: None,
        multiplying: None,
    }
}

/// A call.
pub fn sent(name: Name, arguments: Items<Expr>) -> Expr
    requires { length arguments ≤ max_arguments }
    ensures { result ≡ spec.sent name arguments }
{
    let arity = arguments.len() as u8;
    Expr::Send(Selector { name, arity }, arguments)
}

#[tactic(auto, unfolding(crate::specs::Machine::operated))]
fn multiplied(
    alloc: Global,
    operator: Operator,
    pending: Pending,
    a: Expr,
) -> Result<Pending, AllocError>
    ensures { IfOk result (λ p. p ≡ spec.operated multiplying operator pending a) }
{
    let Pending {
        comparing,
        adding,
        multiplying,
    } = pending;
    let operand = joined(alloc, multiplying, a)?;
    Ok(Pending {
        comparing,
        adding,
        multiplying: Some(Boxed::new(alloc, Left { operand, operator })?),
    })
}

#[tactic(auto, unfolding(crate::specs::Machine::operated))]
fn added(
    alloc: Global,
    operator: Operator,
    pending: Pending,
    a: Expr,
) -> Result<Pending, AllocError>
    ensures { IfOk result (λ p. p ≡ spec.operated adding operator pending a) }
{
    let Pending {
        comparing,
        adding,
        multiplying,
    } = pending;
    let product = joined(alloc, multiplying, a)?;
    let operand = joined(alloc, adding, product)?;
    Ok(Pending {
        comparing,
        adding: Some(Boxed::new(alloc, Left { operand, operator })?),
        multiplying: None,
    })
}

#[tactic(auto, unfolding(crate::specs::Machine::operated))]
fn compared(
    alloc: Global,
    operator: Operator,
    pending: Pending,
    a: Expr,
) -> Result<Pending, AllocError>
    ensures { IfOk result (λ p. p ≡ spec.operated comparing operator pending a) }
{
    let operand = value(alloc, pending, a)?;
    Ok(Pending {
        comparing: Some(Boxed::new(alloc, Left { operand, operator })?),
        adding: None,
        multiplying: None,
    })
}

/// What waits after an operand and an operator.
pub fn operated(
    alloc: Global,
    operator: Operator,
    pending: Pending,
    a: Expr,
) -> Result<Pending, AllocError>
    ensures { IfOk result (λ p. p ≡ spec.operated (level operator) operator pending a) }
{
    match operator {
        Operator::Star | Operator::Slash | Operator::Percent => multiplied(
            alloc, operator, pending, a,
        ),
        Operator::Plus | Operator::Minus | Operator::PlusPlus => added(alloc, operator, pending, a),
        Operator::Less
        | Operator::Greater
        | Operator::LessEqual
        | Operator::GreaterEqual
        | Operator::Equal
        | Operator::EqualEqual => compared(alloc, operator, pending, a),
    }
}
