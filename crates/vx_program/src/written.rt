//! Which expressions and bodies stand in some text.
ghost use Rattle.std.specs.Prelude.{◌≡◌, ◌∷◌, ◌≤◌, false, true, length, map, IfOk};
ghost use Rattle.std.specs.Bool.{Decides};
ghost use Rattle.vx_syntax.specs.declared.expr.Expr.TheVariants as e;
ghost use Rattle.vx_syntax.specs.Words.{IsWord};
ghost use Rattle.vx_syntax.specs.Expressions.{brings, field_names, is_among, is_back, is_bound, max_field_bytes, with_formals};
ghost use Rattle.vx_syntax.specs.Written.{AreNew, AreStated, IsStmtWritten, IsWritten};

use crate::scope::Scope;
use crate::words::{is_literal, is_selector, is_text, is_word};
use std::alloc::AllocError;
use vx_names::{FIELD_NAME_BYTES, Name, Selector};
use vx_syntax::{Body, Expr, MAX_CLOSURE_FORMALS, Stmt};

/// Whether the statements are a body of some text where these names are in scope. If so, the same names are in scope after it.
#[cycle(written)]
pub fn is_body_written<'a>(body: &'a [Stmt], scope: &mut Scope<'a>) -> Result<bool, AllocError>
    ensures decides { IfOk result (λ yes. Decides yes (AreStated body.now scope.old)) }
    ensures scope { IfOk result (λ yes. yes ≡ true → scope.new ≡ scope.old) }
{
    let len = scope.len();
    for (place, stmt) in body.iter().enumerate() {
        if is_back(stmt) && place + 1 < body.len() {
            return Ok(false);
        }
        if !is_stmt_written(stmt, scope)? {
            return Ok(false);
        }
    }
    scope.leave(len);
    Ok(true)
}

// If so, what the statement brings is in scope after it.
#[cycle(written)]
fn is_stmt_written<'a>(stmt: &'a Stmt, scope: &mut Scope<'a>) -> Result<bool, AllocError>
    ensures decides { IfOk result (λ yes. Decides yes (IsStmtWritten stmt.now scope.old)) }
    ensures brings { IfOk result (λ yes. yes ≡ true → scope.new ≡ brings scope.old stmt.now) }
{
    match stmt {
        Stmt::Let(x, expr) => is_let_written(x, expr, false, scope),
        Stmt::LetVar(x, expr) => is_let_written(x, expr, true, scope),
        Stmt::Set(x, expr) => {
            if !is_word(x) || !scope.is_variable(x) {
                return Ok(false);
            }
            is_expr_written(expr, scope)
        }
        Stmt::Do(expr) => is_expr_written(expr, scope),
        Stmt::Back(expr) => is_expr_written(expr, scope),
    }
}

#[cycle(written)]
fn is_let_written<'a>(
    x: &'a Name,
    expr: &'a Expr,
    changeable: bool,
    scope: &mut Scope<'a>,
) -> Result<bool, AllocError>
    ensures decides { IfOk result (λ yes. Decides yes (IsWord x.now × (is_bound scope.old x.now ≡ false) × IsWritten expr.now scope.old)) }
    ensures brings { IfOk result (λ yes. yes ≡ true → scope.new ≡ (x.now, changeable) ∷ scope.old) }
{
    if !is_word(x) || scope.is_bound(x) {
        return Ok(false);
    }
    if !is_expr_written(expr, scope)? {
        return Ok(false);
    }
    scope.bring(x, changeable)?;
    Ok(true)
}

#[cycle(written)]
fn is_expr_written<'a>(expr: &'a Expr, scope: &mut Scope<'a>) -> Result<bool, AllocError>
    ensures decides { IfOk result (λ yes. Decides yes (IsWritten expr.now scope.old)) }
    ensures scope { IfOk result (λ yes. yes ≡ true → scope.new ≡ scope.old) }
{
    match expr {
        Expr::Int(n) => Ok(is_literal(*n)),
        Expr::Text(bytes) => Ok(is_text(bytes.as_slice())),
        Expr::Name(x) => Ok(is_word(x)),
        Expr::Send(selector, arguments) => is_send_written(selector, arguments.as_slice(), scope),
        Expr::Closure(formals, body) => is_closure_written(formals.as_slice(), body, scope),
        Expr::New(x, fields) => is_new_written(x, fields.as_slice(), scope),
        Expr::Resend => Ok(true),
    }
}

#[cycle(written)]
fn is_send_written<'a>(
    selector: &Selector,
    arguments: &'a [Expr],
    scope: &mut Scope<'a>,
) -> Result<bool, AllocError>
    ensures decides { IfOk result (λ yes. Decides yes (IsWritten (e.Send selector.now arguments.now) scope.old)) }
    ensures scope { IfOk result (λ yes. yes ≡ true → scope.new ≡ scope.old) }
{
    if !is_selector(selector, arguments.len()) {
        return Ok(false);
    }
    for argument in arguments {
        if !is_expr_written(argument, scope)? {
            return Ok(false);
        }
    }
    Ok(true)
}

#[cycle(written)]
fn is_closure_written<'a>(
    formals: &'a [Name],
    body: &'a Body,
    scope: &mut Scope<'a>,
) -> Result<bool, AllocError>
    ensures decides { IfOk result (λ yes. Decides yes (IsWritten (e.Closure formals.now body.now) scope.old)) }
    ensures scope { IfOk result (λ yes. yes ≡ true → scope.new ≡ scope.old) }
{
    if formals.len() > MAX_CLOSURE_FORMALS {
        return Ok(false);
    }
    let len = scope.len();
    if !are_new(formals, scope)? {
        return Ok(false);
    }
    if !is_body_written(body.0.as_slice(), scope)? {
        return Ok(false);
    }
    scope.leave(len);
    Ok(true)
}

#[cycle(written)]
fn is_new_written<'a>(
    x: &Name,
    fields: &'a [(Name, Expr)],
    scope: &mut Scope<'a>,
) -> Result<bool, AllocError>
    ensures decides { IfOk result (λ yes. Decides yes (IsWritten (e.New x.now fields.now) scope.old)) }
    ensures scope { IfOk result (λ yes. yes ≡ true → scope.new ≡ scope.old) }
{
    if !is_word(x) {
        return Ok(false);
    }
    for (place, field) in fields.iter().enumerate() {
        if !is_field_name(&field.0) || is_field(&fields[..place], &field.0) {
            return Ok(false);
        }
        if !is_expr_written(&field.1, scope)? {
            return Ok(false);
        }
    }
    Ok(true)
}

// Whether the names are words, are not in scope and differ. If so, they are in scope after it, the last of them innermost.
fn are_new<'a>(names: &'a [Name], scope: &mut Scope<'a>) -> Result<bool, AllocError>
    ensures decides { IfOk result (λ yes. Decides yes (AreNew scope.old names.now)) }
    ensures scope { IfOk result (λ yes. yes ≡ true → scope.new ≡ with_formals scope.old names.now) }
{
    for name in names {
        if !is_word(name) || scope.is_bound(name) {
            return Ok(false);
        }
        scope.bring(name, false)?;
    }
    Ok(true)
}

fn is_back(stmt: &Stmt) -> bool
    ensures { result ≡ is_back stmt.now }
{
    match stmt {
        Stmt::Back(_) => true,
        _ => false,
    }
}

/// Whether a field may have the name.
pub fn is_field_name(name: &Name) -> bool
    ensures { Decides result (IsWord name.now × (length name.now ≤ max_field_bytes)) }
{
    is_word(name) && name.bytes().len() <= FIELD_NAME_BYTES
}

// Whether one of the fields has the name.
fn is_field(fields: &[(Name, Expr)], x: &Name) -> bool
    ensures { result ≡ is_among (field_names fields.now) x.now }
{
    for field in fields {
        if field.0.bytes() == x.bytes() {
            return true;
        }
    }
    false
}
