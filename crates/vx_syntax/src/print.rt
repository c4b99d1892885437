//! The canonical text of declarations.

ghost use Rattle.std.specs.Prelude.{◌≡◌, ◌++◌, [], not, map, codes, get_or, IfOk, OnOk};
ghost use Rattle.std.specs.Fmt.{signed_decimal};
ghost use Rattle.std.specs.List.{zip};
ghost use Rattle.std.specs.Str.{bytes_eq};
ghost use Rattle.vx_names.specs.Bytes.{is_letter};
ghost use Rattle.vx_syntax.specs.declared.decl.Decl.TheVariants as d;
ghost use Rattle.vx_syntax.specs.Declarations.{any};
ghost use Rattle.vx_syntax.specs.Print as spec;

use crate::decl::{Decl, Start};
use crate::expr::{Body, Expr, Stmt};
use crate::key::append_field_key;
use crate::test::{Compare, Test};
use std::alloc::{AllocError, Global};
use vx_names::{FieldKey, MethodKey, Name, is_letter};

/// The canonical text of the declaration.
pub fn print_decl(alloc: Global, decl: &Decl) -> Result<Vec<u8>, AllocError>
    ensures { IfOk result (λ text. text.items ≡ spec.decl_text decl.now) }
{
    let mut text = Vec::new(alloc);
    match decl {
        Decl::Object { name, parents } => append_object(&mut text, name, parents.as_slice())?,
        Decl::Predicate {
            name,
            parents,
            test,
        } => append_predicate(alloc, &mut text, name, parents.as_slice(), test)?,
        Decl::Field {
            key,
            start,
            changeable,
        } => append_field(alloc, &mut text, key, start, *changeable)?,
        Decl::Method { key, formals, body } => {
            append_head(&mut text, key, formals.as_slice())?;
            append_body(alloc, &mut text, body)?;
        }
    }
    Ok(text)
}

fn append_number(alloc: Global, text: &mut Vec<u8>, n: i128) -> Result<(), AllocError>
    ensures { OnOk result (text.new.items ≡ text.old.items ++ signed_decimal n) }
{
    text.extend_from_slice(format!(in alloc; "{n}")?.as_bytes())
}

fn append_string(text: &mut Vec<u8>, bytes: &[u8]) -> Result<(), AllocError>
    ensures { OnOk result (text.new.items ≡ text.old.items ++ spec.string_text bytes.now) }
{
    text.push(b'"')?;
    for byte in bytes {
        if *byte == b'"' || *byte == b'\\' {
            text.push(b'\\')?;
        }
        text.push(*byte)?;
    }
    text.push(b'"')?;
    Ok(())
}

fn append_names(text: &mut Vec<u8>, names: &[Name]) -> Result<(), AllocError>
    ensures { OnOk result (text.new.items ≡ text.old.items ++ spec.listed names.now) }
{
    let mut lead = b"".as_slice();
    for name in names {
        text.extend_from_slice(lead)?;
        text.extend_from_slice(name.bytes())?;
        lead = b", ".as_slice();
    }
    Ok(())
}

#[cycle(print)]
fn append_body(alloc: Global, text: &mut Vec<u8>, body: &Body) -> Result<(), AllocError>
    ensures { OnOk result (text.new.items ≡ text.old.items ++ spec.body_text body.now) }
{
    text.push(b'{')?;
    let mut lead = b" ".as_slice();
    for stmt in body.0.as_slice() {
        text.extend_from_slice(lead)?;
        append_stmt(alloc, text, stmt)?;
        lead = b"; ".as_slice();
    }
    text.extend_from_slice(b" }")
}

#[cycle(print)]
fn append_stmt(alloc: Global, text: &mut Vec<u8>, stmt: &Stmt) -> Result<(), AllocError>
    ensures { OnOk result (text.new.items ≡ text.old.items ++ spec.stmt_text stmt.now) }
{
    match stmt {
        Stmt::Let(name, expr) => {
            text.extend_from_slice(b"let ")?;
            append_becomes(text, name)?;
            append_expr(alloc, text, expr)
        }
        Stmt::LetVar(name, expr) => {
            text.extend_from_slice(b"let var ")?;
            append_becomes(text, name)?;
            append_expr(alloc, text, expr)
        }
        Stmt::Set(name, expr) => {
            append_becomes(text, name)?;
            append_expr(alloc, text, expr)
        }
        Stmt::Do(expr) => append_expr(alloc, text, expr),
        Stmt::Back(expr) => {
            text.extend_from_slice(b"^ ")?;
            append_expr(alloc, text, expr)
        }
    }
}

// A name, and what stands between it and what it becomes.
fn append_becomes(text: &mut Vec<u8>, name: &Name) -> Result<(), AllocError>
    ensures { OnOk result (text.new.items ≡ text.old.items ++ name.now ++ codes " := ") }
{
    text.extend_from_slice(name.bytes())?;
    text.extend_from_slice(b" := ")
}

#[cycle(print)]
#[tactic(auto, using(crate::proofs::Texts::text_of_send, crate::proofs::Texts::text_of_closure, crate::proofs::Texts::text_of_new))]
fn append_expr(alloc: Global, text: &mut Vec<u8>, expr: &Expr) -> Result<(), AllocError>
    ensures { OnOk result (text.new.items ≡ text.old.items ++ spec.expr_text expr.now) }
{
    match expr {
        Expr::Int(n) => append_number(alloc, text, *n),
        Expr::Text(bytes) => append_string(text, bytes.as_slice()),
        Expr::Name(name) => text.extend_from_slice(name.bytes()),
        Expr::Send(selector, arguments) => {
            append_send(alloc, text, &selector.name, arguments.as_slice())
        }
        Expr::Closure(formals, body) => {
            append_closure_formals(text, formals.as_slice())?;
            append_body(alloc, text, body)
        }
        Expr::New(parent, fields) => append_new(alloc, text, parent, fields.as_slice()),
        Expr::Resend => {
            text.extend_from_slice(b"resend(...)")?;
            Ok(())
        }
    }
}

#[cycle(print)]
fn append_send(
    alloc: Global,
    text: &mut Vec<u8>,
    name: &Name,
    arguments: &[Expr],
) -> Result<(), AllocError>
    ensures { OnOk result (text.new.items ≡ text.old.items ++ spec.send_text name.now (map spec.expr_text arguments.now)) }
{
    match arguments {
        [a, b] if is_sign(name) => {
            text.push(b'(')?;
            append_expr(alloc, text, a)?;
            append_sign(text, name)?;
            append_expr(alloc, text, b)?;
            text.push(b')')?;
            Ok(())
        }
        _ => {
            text.extend_from_slice(name.bytes())?;
            text.push(b'(')?;
            append_arguments(alloc, text, arguments)?;
            text.push(b')')?;
            Ok(())
        }
    }
}

// Whether the name is an operator, and no identifier.
fn is_sign(name: &Name) -> bool
    ensures { result ≡ not (is_letter (get_or name.now 0 0)) }
{
    match name.bytes().first() {
        Some(byte) => !is_letter(*byte),
        None => true,
    }
}

// An operator between its arguments.
fn append_sign(text: &mut Vec<u8>, name: &Name) -> Result<(), AllocError>
    ensures { OnOk result (text.new.items ≡ text.old.items ++ codes " " ++ name.now ++ codes " ") }
{
    text.push(b' ')?;
    text.extend_from_slice(name.bytes())?;
    text.push(b' ')?;
    Ok(())
}

#[cycle(print)]
fn append_arguments(alloc: Global, text: &mut Vec<u8>, arguments: &[Expr]) -> Result<(), AllocError>
    ensures { OnOk result (text.new.items ≡ text.old.items ++ spec.listed (map spec.expr_text arguments.now)) }
{
    let mut lead = b"".as_slice();
    for argument in arguments {
        text.extend_from_slice(lead)?;
        append_expr(alloc, text, argument)?;
        lead = b", ".as_slice();
    }
    Ok(())
}

fn append_closure_formals(text: &mut Vec<u8>, formals: &[Name]) -> Result<(), AllocError>
    ensures { OnOk result (text.new.items ≡ text.old.items ++ spec.closure_formals_text formals.now) }
{
    if formals.is_empty() {
        return Ok(());
    }
    text.extend_from_slice(b"&(")?;
    append_names(text, formals)?;
    text.extend_from_slice(b") ")
}

#[cycle(print)]
fn append_new(
    alloc: Global,
    text: &mut Vec<u8>,
    parent: &Name,
    fields: &[(Name, Expr)],
) -> Result<(), AllocError>
    ensures { OnOk result (text.new.items ≡ text.old.items ++ spec.new_text parent.now (map (λ field. spec.field_text (field.0, spec.expr_text field.1)) fields.now)) }
{
    text.extend_from_slice(b"object isa ")?;
    text.extend_from_slice(parent.bytes())?;
    if fields.is_empty() {
        return Ok(());
    }
    text.push(b' ')?;
    append_fields(alloc, text, fields)
}

#[cycle(print)]
fn append_fields(
    alloc: Global,
    text: &mut Vec<u8>,
    fields: &[(Name, Expr)],
) -> Result<(), AllocError>
    ensures { OnOk result (text.new.items ≡ text.old.items ++ spec.braced (codes ", ") (map (λ field. spec.field_text (field.0, spec.expr_text field.1)) fields.now)) }
{
    text.push(b'{')?;
    let mut lead = b" ".as_slice();
    for field in fields {
        text.extend_from_slice(lead)?;
        append_becomes(text, &field.0)?;
        append_expr(alloc, text, &field.1)?;
        lead = b", ".as_slice();
    }
    text.extend_from_slice(b" }")
}

fn compare_text(compare: Compare) -> &'static [u8]
    ensures { result.now ≡ spec.compare_text compare }
{
    match compare {
        Compare::Less => b"<".as_slice(),
        Compare::AtMost => b"<=".as_slice(),
        Compare::More => b">".as_slice(),
        Compare::AtLeast => b">=".as_slice(),
        Compare::Equal => b"=".as_slice(),
    }
}

fn append_test(alloc: Global, text: &mut Vec<u8>, test: &Test, part: bool) -> Result<(), AllocError>
    ensures { OnOk result (text.new.items ≡ text.old.items ++ spec.test_text test.now part) }
{
    match test {
        Test::Compare(field, compare, n) => {
            text.extend_from_slice(field.bytes())?;
            text.push(b' ')?;
            text.extend_from_slice(compare_text(*compare))?;
            text.push(b' ')?;
            append_number(alloc, text, *n)
        }
        Test::And(a, b) => {
            text.push(b'(')?;
            append_test(alloc, text, a.get(), true)?;
            text.extend_from_slice(b" and ")?;
            append_test(alloc, text, b.get(), true)?;
            text.extend_from_slice(b")")
        }
        Test::Or(a, b) => {
            text.push(b'(')?;
            append_test(alloc, text, a.get(), true)?;
            text.extend_from_slice(b" or ")?;
            append_test(alloc, text, b.get(), true)?;
            text.extend_from_slice(b")")
        }
        Test::Not(a) if part => {
            text.extend_from_slice(b"(not ")?;
            append_test(alloc, text, a.get(), false)?;
            text.extend_from_slice(b")")
        }
        Test::Not(a) => {
            text.extend_from_slice(b"not ")?;
            append_test(alloc, text, a.get(), false)
        }
    }
}

fn is_any(name: &Name) -> bool
    ensures { result ≡ bytes_eq name.now any }
{
    name.bytes() == b"any".as_slice()
}

fn is_plain(parents: &[Name]) -> bool
    ensures { result ≡ spec.is_plain parents.now }
{
    match parents {
        [] => true,
        [parent] => is_any(parent),
        _ => false,
    }
}

fn append_parents(text: &mut Vec<u8>, parents: &[Name]) -> Result<(), AllocError>
    ensures { OnOk result (text.new.items ≡ text.old.items ++ spec.parents_text parents.now) }
{
    text.extend_from_slice(b" isa ")?;
    append_names(text, parents)
}

fn append_start(alloc: Global, text: &mut Vec<u8>, start: &Start) -> Result<(), AllocError>
    ensures { OnOk result (text.new.items ≡ text.old.items ++ spec.start_text start.now) }
{
    match start {
        Start::Nil => Ok(()),
        Start::True => text.extend_from_slice(b" := true"),
        Start::False => text.extend_from_slice(b" := false"),
        Start::Int(n) => {
            text.extend_from_slice(b" := ")?;
            append_number(alloc, text, *n)
        }
        Start::Text(bytes) => {
            text.extend_from_slice(b" := ")?;
            append_string(text, bytes.as_slice())
        }
    }
}

fn append_formal(
    text: &mut Vec<u8>,
    formal: &Option<Name>,
    specialiser: &Name,
) -> Result<(), AllocError>
    ensures { OnOk result (text.new.items ≡ text.old.items ++ spec.formal_text (formal.now, specialiser.now)) }
{
    if let Some(name) = formal {
        text.extend_from_slice(name.bytes())?;
        if is_any(specialiser) {
            return Ok(());
        }
    }
    text.push(b'@')?;
    text.extend_from_slice(specialiser.bytes())
}

fn append_formals(
    text: &mut Vec<u8>,
    formals: &[Option<Name>],
    specialisers: &[Name],
) -> Result<(), AllocError>
    ensures { OnOk result (text.new.items ≡ text.old.items ++ spec.listed (map spec.formal_text (zip formals.now specialisers.now))) }
{
    let mut lead = b"".as_slice();
    for (formal, specialiser) in formals.iter().zip(specialisers.iter()) {
        text.extend_from_slice(lead)?;
        append_formal(text, formal, specialiser)?;
        lead = b", ".as_slice();
    }
    Ok(())
}

fn append_object(text: &mut Vec<u8>, name: &Name, parents: &[Name]) -> Result<(), AllocError>
    ensures { OnOk result (text.new.items ≡ text.old.items ++ spec.decl_text (d.Object name.now parents.now)) }
{
    text.extend_from_slice(b"object ")?;
    text.extend_from_slice(name.bytes())?;
    if is_plain(parents) {
        return Ok(());
    }
    append_parents(text, parents)
}

fn append_predicate(
    alloc: Global,
    text: &mut Vec<u8>,
    name: &Name,
    parents: &[Name],
    test: &Test,
) -> Result<(), AllocError>
    ensures { OnOk result (text.new.items ≡ text.old.items ++ spec.decl_text (d.Predicate name.now parents.now test.now)) }
{
    text.extend_from_slice(b"predicate ")?;
    text.extend_from_slice(name.bytes())?;
    append_parents(text, parents)?;
    text.extend_from_slice(b" when ")?;
    append_test(alloc, text, test, false)
}

fn append_field(
    alloc: Global,
    text: &mut Vec<u8>,
    key: &FieldKey,
    start: &Start,
    changeable: bool,
) -> Result<(), AllocError>
    ensures { OnOk result (text.new.items ≡ text.old.items ++ spec.decl_text (d.Field key.now start.now changeable)) }
{
    if changeable {
        text.extend_from_slice(b"var ")?;
    }
    append_field_key(text, key)?;
    append_start(alloc, text, start)
}

// All of a method before its body.
fn append_head(
    text: &mut Vec<u8>,
    key: &MethodKey,
    formals: &[Option<Name>],
) -> Result<(), AllocError>
    ensures { OnOk result (text.new.items ≡ text.old.items ++ spec.head_text key.now formals.now) }
{
    text.extend_from_slice(b"method ")?;
    text.extend_from_slice(key.selector.name.bytes())?;
    text.push(b'(')?;
    append_formals(text, formals, key.specialisers.as_slice())?;
    text.extend_from_slice(b") ")
}
