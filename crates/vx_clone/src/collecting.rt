//! The sends of a body, each by its arguments that are names alone.
ghost use Rattle.std.specs.Prelude.{◌≡◌, ◌∷◌, ◌++◌, [], map, IfOk, OnOk};
ghost use Rattle.vx_compilation.specs.Cloning as spec;
ghost use Rattle.vx_clone.specs.Sends.{parts_sends, fields_sends};

use sqlite_items::Items;
use std::alloc::{AllocError, Global};
use vx_names::{Name, Selector};
use vx_syntax::{Body, Expr, Stmt};

/// A send: its selector, and for each argument the name that it is, where it is a name alone.
pub type Sending = (Selector, Items<Option<Name>>);

/// The sends of a body, in the order in which they begin, those in closures among them.
pub fn sends_of(alloc: Global, body: &Body) -> Result<Items<Sending>, AllocError>
    ensures { IfOk result (λ sendings. sendings ≡ spec.sends_of body.now.0) }
{
    let mut sendings = Items::new(alloc);
    push_body(alloc, &mut sendings, body)?;
    Ok(sendings)
}

#[cycle(sends)]
fn push_body(alloc: Global, sendings: &mut Items<Sending>, body: &Body) -> Result<(), AllocError>
    ensures { OnOk result (sendings.new ≡ sendings.old ++ spec.sends_of body.now.0) }
{
    for statement in body.0.as_slice() {
        push_statement(alloc, sendings, statement)?;
    }
    Ok(())
}

#[cycle(sends)]
fn push_statement(
    alloc: Global,
    sendings: &mut Items<Sending>,
    statement: &Stmt,
) -> Result<(), AllocError>
    ensures { OnOk result (sendings.new ≡ sendings.old ++ spec.sends_in_statement statement.now) }
{
    match statement {
        Stmt::Let(_, part)
        | Stmt::LetVar(_, part)
        | Stmt::Set(_, part)
        | Stmt::Do(part)
        | Stmt::Back(part) => push_part(alloc, sendings, part),
    }
}

#[cycle(sends)]
fn push_part(alloc: Global, sendings: &mut Items<Sending>, part: &Expr) -> Result<(), AllocError>
    ensures { OnOk result (sendings.new ≡ sendings.old ++ spec.sends part.now) }
{
    match part {
        Expr::Int(_) | Expr::Text(_) | Expr::Name(_) | Expr::Resend => Ok(()),
        Expr::Send(selector, parts) => {
            push_send(alloc, sendings, selector, parts.as_slice())?;
            push_parts(alloc, sendings, parts.as_slice())
        }
        Expr::Closure(_, body) => push_body(alloc, sendings, body),
        Expr::New(_, fields) => push_fields(alloc, sendings, fields.as_slice()),
    }
}

#[cycle(sends)]
fn push_parts(
    alloc: Global,
    sendings: &mut Items<Sending>,
    parts: &[Expr],
) -> Result<(), AllocError>
    ensures { OnOk result (sendings.new ≡ sendings.old ++ parts_sends parts.now) }
{
    for part in parts {
        push_part(alloc, sendings, part)?;
    }
    Ok(())
}

#[cycle(sends)]
fn push_fields(
    alloc: Global,
    sendings: &mut Items<Sending>,
    fields: &[(Name, Expr)],
) -> Result<(), AllocError>
    ensures { OnOk result (sendings.new ≡ sendings.old ++ fields_sends fields.now) }
{
    for field in fields {
        push_part(alloc, sendings, &field.1)?;
    }
    Ok(())
}

// The send itself, without those in its arguments.
fn push_send(
    alloc: Global,
    sendings: &mut Items<Sending>,
    selector: &Selector,
    parts: &[Expr],
) -> Result<(), AllocError>
    ensures { OnOk result (sendings.new ≡ sendings.old ++ (selector.now, map spec.name_alone parts.now) ∷ []) }
{
    sendings.push((selector.copy(alloc)?, names_alone(alloc, parts)?))?;
    Ok(())
}

fn names_alone(alloc: Global, parts: &[Expr]) -> Result<Items<Option<Name>>, AllocError>
    ensures { IfOk result (λ names. names ≡ map spec.name_alone parts.now) }
{
    let mut names = Items::new(alloc);
    for part in parts {
        names.push(name_alone(alloc, part)?)?;
    }
    Ok(names)
}

fn name_alone(alloc: Global, part: &Expr) -> Result<Option<Name>, AllocError>
    ensures { IfOk result (λ name. name ≡ spec.name_alone part.now) }
{
    match part {
        Expr::Name(name) => Ok(Some(name.copy(alloc)?)),
        _ => Ok(None),
    }
}
