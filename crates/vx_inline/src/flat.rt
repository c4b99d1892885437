//! What keeps a body from being put in place of its sends.
ghost use Rattle.std.specs.Prelude.{◌≡◌};
ghost use Rattle.vx_compilation.specs.Inlining as spec;
ghost use Rattle.vx_inline.specs.Flat.{all_flat, fields_flat};

use vx_names::Name;
use vx_syntax::{Expr, Stmt};

/// Whether there is no closure, variable or resend in a body.
pub fn is_flat_body(body: &[Stmt]) -> bool
    ensures { result ≡ spec.is_flat_body body.now }
{
    for statement in body {
        if !is_flat_statement(statement) {
            return false;
        }
    }
    true
}

fn is_flat_statement(statement: &Stmt) -> bool
    ensures { result ≡ spec.is_flat_statement statement.now }
{
    match statement {
        Stmt::LetVar(_, _) => false,
        Stmt::Let(_, part) | Stmt::Set(_, part) | Stmt::Do(part) | Stmt::Back(part) => is_flat(
            part,
        ),
    }
}

#[cycle(flat)]
fn is_flat(part: &Expr) -> bool
    ensures { result ≡ spec.is_flat part.now }
{
    match part {
        Expr::Int(_) | Expr::Text(_) | Expr::Name(_) => true,
        Expr::Send(_, parts) => are_flat(parts.as_slice()),
        Expr::New(_, fields) => are_fields_flat(fields.as_slice()),
        Expr::Closure(_, _) | Expr::Resend => false,
    }
}

#[cycle(flat)]
fn are_flat(parts: &[Expr]) -> bool
    ensures { result ≡ all_flat parts.now }
{
    for part in parts {
        if !is_flat(part) {
            return false;
        }
    }
    true
}

#[cycle(flat)]
fn are_fields_flat(fields: &[(Name, Expr)]) -> bool
    ensures { result ≡ fields_flat fields.now }
{
    for field in fields {
        if !is_flat(&field.1) {
            return false;
        }
    }
    true
}
