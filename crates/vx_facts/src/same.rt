//! Whether two declarations are the same.
ghost use Rattle.std.specs.Prelude.{◌≡◌};
ghost use Rattle.std.specs.Bool.{Decides};
ghost use Rattle.vx_syntax.specs.Keys.{key_of};

use vx_names::{Name, Selector};
use vx_syntax::{Body, Decl, Expr, Start, Stmt, Test};

/// Whether two declarations that have one key are the same.
pub fn same_decl(a: &Decl, b: &Decl) -> bool
    requires { key_of a.now ≡ key_of b.now }
    ensures { Decides result (a.now ≡ b.now) }
{
    match (a, b) {
        (
            Decl::Object { parents, .. },
            Decl::Object {
                parents: others,
                ..
            },
        ) => same_names(parents.as_slice(), others.as_slice()),
        (
            Decl::Predicate { parents, test, .. },
            Decl::Predicate {
                parents: others,
                test: other,
                ..
            },
        ) => same_names(parents.as_slice(), others.as_slice()) && same_test(test, other),
        (
            Decl::Field {
                start,
                changeable,
                ..
            },
            Decl::Field {
                start: other,
                changeable: can_change,
                ..
            },
        ) => changeable == can_change && same_start(start, other),
        (
            Decl::Method { formals, body, .. },
            Decl::Method {
                formals: others,
                body: other,
                ..
            },
        ) => same_formals(formals.as_slice(), others.as_slice()) && same_body(body, other),
        _ => false,
    }
}

fn same_names(a: &[Name], b: &[Name]) -> bool
    ensures { Decides result (a.now ≡ b.now) }
{
    a == b
}

fn same_formals(a: &[Option<Name>], b: &[Option<Name>]) -> bool
    ensures { Decides result (a.now ≡ b.now) }
{
    if a.len() != b.len() {
        return false;
    }
    for (place, formal) in a.iter().enumerate() {
        if !same_formal(formal, &b[place]) {
            return false;
        }
    }
    true
}

fn same_formal(a: &Option<Name>, b: &Option<Name>) -> bool
    ensures { Decides result (a.now ≡ b.now) }
{
    match (a, b) {
        (None, None) => true,
        (Some(a), Some(b)) => a.bytes() == b.bytes(),
        _ => false,
    }
}

fn same_start(a: &Start, b: &Start) -> bool
    ensures { Decides result (a.now ≡ b.now) }
{
    match (a, b) {
        (Start::Nil, Start::Nil) => true,
        (Start::True, Start::True) => true,
        (Start::False, Start::False) => true,
        (Start::Int(a), Start::Int(b)) => a == b,
        (Start::Text(a), Start::Text(b)) => a.as_slice() == b.as_slice(),
        _ => false,
    }
}

fn same_test(a: &Test, b: &Test) -> bool
    ensures { Decides result (a.now ≡ b.now) }
{
    match (a, b) {
        (Test::Compare(x, how, n), Test::Compare(y, other, m)) => {
            x.bytes() == y.bytes() && how == other && n == m
        }
        (Test::And(a, b), Test::And(c, d)) => same_test(a.get(), c.get())
            && same_test(b.get(), d.get()),
        (Test::Or(a, b), Test::Or(c, d)) => same_test(a.get(), c.get())
            && same_test(b.get(), d.get()),
        (Test::Not(a), Test::Not(c)) => same_test(a.get(), c.get()),
        _ => false,
    }
}

#[cycle(same)]
fn same_body(a: &Body, b: &Body) -> bool
    ensures { Decides result (a.now ≡ b.now) }
{
    same_stmts(a.0.as_slice(), b.0.as_slice())
}

#[cycle(same)]
fn same_stmts(a: &[Stmt], b: &[Stmt]) -> bool
    ensures { Decides result (a.now ≡ b.now) }
{
    if a.len() != b.len() {
        return false;
    }
    for (place, stmt) in a.iter().enumerate() {
        if !same_stmt(stmt, &b[place]) {
            return false;
        }
    }
    true
}

#[cycle(same)]
fn same_stmt(a: &Stmt, b: &Stmt) -> bool
    ensures { Decides result (a.now ≡ b.now) }
{
    match (a, b) {
        (Stmt::Let(x, a), Stmt::Let(y, b)) => x.bytes() == y.bytes() && same_expr(a, b),
        (Stmt::LetVar(x, a), Stmt::LetVar(y, b)) => x.bytes() == y.bytes() && same_expr(a, b),
        (Stmt::Set(x, a), Stmt::Set(y, b)) => x.bytes() == y.bytes() && same_expr(a, b),
        (Stmt::Do(a), Stmt::Do(b)) => same_expr(a, b),
        (Stmt::Back(a), Stmt::Back(b)) => same_expr(a, b),
        _ => false,
    }
}

#[cycle(same)]
fn same_expr(a: &Expr, b: &Expr) -> bool
    ensures { Decides result (a.now ≡ b.now) }
{
    match (a, b) {
        (Expr::Int(n), Expr::Int(m)) => n == m,
        (Expr::Text(a), Expr::Text(b)) => a.as_slice() == b.as_slice(),
        (Expr::Name(x), Expr::Name(y)) => x.bytes() == y.bytes(),
        (Expr::Send(to, a), Expr::Send(other, b)) => {
            same_selector(to, other) && same_exprs(a.as_slice(), b.as_slice())
        }
        (Expr::Closure(xs, a), Expr::Closure(ys, b)) => {
            same_names(xs.as_slice(), ys.as_slice()) && same_body(a, b)
        }
        (Expr::New(x, a), Expr::New(y, b)) => {
            x.bytes() == y.bytes() && same_fields(a.as_slice(), b.as_slice())
        }
        (Expr::Resend, Expr::Resend) => true,
        _ => false,
    }
}

fn same_selector(a: &Selector, b: &Selector) -> bool
    ensures { Decides result (a.now ≡ b.now) }
{
    a.name.bytes() == b.name.bytes() && a.arity == b.arity
}

#[cycle(same)]
fn same_exprs(a: &[Expr], b: &[Expr]) -> bool
    ensures { Decides result (a.now ≡ b.now) }
{
    if a.len() != b.len() {
        return false;
    }
    for (place, expr) in a.iter().enumerate() {
        if !same_expr(expr, &b[place]) {
            return false;
        }
    }
    true
}

#[cycle(same)]
fn same_fields(a: &[(Name, Expr)], b: &[(Name, Expr)]) -> bool
    ensures { Decides result (a.now ≡ b.now) }
{
    if a.len() != b.len() {
        return false;
    }
    for (place, field) in a.iter().enumerate() {
        let other = &b[place];
        if field.0.bytes() != other.0.bytes() || !same_expr(&field.1, &other.1) {
            return false;
        }
    }
    true
}
