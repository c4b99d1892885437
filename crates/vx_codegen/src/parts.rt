//! The code of expressions and statements.
ghost use Rattle.std.specs.Prelude.{◌≡◌, ◌++◌, ℕ, List, Some, IfOk, OnOk};
ghost use Rattle.vx_compilation.specs.Code.{part_code, stores_code};
ghost use Rattle.vx_compilation.specs.Machine as machine;
ghost use Rattle.vx_compilation.specs.TreeMeaning.{Resends};
ghost use Rattle.vx_units.specs.CodeUnit.{instruction_signs, field_signs};
ghost use Rattle.vx_units.specs.Signs.{each};
ghost use Rattle.vx_codegen.specs.Emitted.{Emits, Comes, Turns, is_over, end_signs, end_over, return_signs, parts_code, fields_code, keys};

use crate::instructions::{
    append_error, append_field, append_local, append_locals, append_named, append_plain, append_row,
};
use crate::unit::Unit;
use std::alloc::{AllocError, Global};
use vx_compilation::{Act, Part};
use vx_model::RunError;
use vx_names::{FieldKey, MethodKey, Name, name_of};
use vx_node::{Symbol, Variant};

/// Appends the code of an expression.
#[cycle(code)]
pub fn append_part(alloc: Global, unit: &mut Unit, part: &Part) -> Result<(), AllocError>
    ensures { OnOk result (Emits unit.old unit.new (part_code part.now)) }
{
    match part {
        Part::Int(n) => append_int(unit, n),
        Part::Text(own) => append_text(unit, own.as_slice()),
        Part::Local(local) => append_local(unit, 4, *local),
        Part::Cell(local) => append_local(unit, 7, *local),
        Part::Object(name) => append_object(alloc, unit, name),
        Part::Closure(block, locals) => append_closure(unit, *block, locals.as_slice()),
        Part::New(class, fields) => {
            append_values(alloc, unit, fields.as_slice())?;
            append_new(alloc, unit, class, fields.as_slice())
        }
        Part::Send(selector, parts) => {
            append_parts(alloc, unit, parts.as_slice())?;
            append_named(alloc, unit, 10, Symbol::Table(selector.copy(alloc)?))
        }
        Part::Resend(method, row, parts) => {
            append_parts(alloc, unit, parts.as_slice())?;
            append_resend(alloc, unit, method, *row)
        }
        Part::Prim(number, parts) => {
            append_parts(alloc, unit, parts.as_slice())?;
            append_primitive(unit, *number)
        }
        Part::Get(field, parts) => {
            append_parts(alloc, unit, parts.as_slice())?;
            append_named(alloc, unit, 14, Symbol::Field(field.copy(alloc)?))
        }
        Part::Set(field, parts) => {
            append_parts(alloc, unit, parts.as_slice())?;
            append_named(alloc, unit, 15, Symbol::Field(field.copy(alloc)?))
        }
        Part::Call(method, variant, parts) => {
            append_parts(alloc, unit, parts.as_slice())?;
            append_call(alloc, unit, method, variant)
        }
        Part::Inlined(parts, locals, acts) => {
            append_parts(alloc, unit, parts.as_slice())?;
            append_plain(unit, 20)?;
            append_stores(unit, locals.as_slice())?;
            append_acts(alloc, unit, false, acts.as_slice())?;
            Ok(())
        }
        Part::Fail(error, parts) => {
            append_parts(alloc, unit, parts.as_slice())?;
            append_fail(unit, error)
        }
    }
}

#[cycle(code)]
fn append_parts(alloc: Global, unit: &mut Unit, parts: &[Part]) -> Result<(), AllocError>
    ensures { OnOk result (Emits unit.old unit.new (parts_code parts.now)) }
{
    for part in parts {
        append_part(alloc, unit, part)?;
    }
    Ok(())
}

// The values of fields.
#[cycle(code)]
fn append_values(
    alloc: Global,
    unit: &mut Unit,
    fields: &[(FieldKey, Part)],
) -> Result<(), AllocError>
    ensures { OnOk result (Emits unit.old unit.new (fields_code fields.now)) }
{
    for field in fields {
        append_part(alloc, unit, &field.1)?;
    }
    Ok(())
}

/// Appends the code of statements, of a closure or of a method, and says whether they have left the activation.
#[cycle(code)]
pub fn append_acts(
    alloc: Global,
    unit: &mut Unit,
    is_closure: bool,
    acts: &[Act],
) -> Result<bool, AllocError>
    ensures { IfOk result (λ left. Comes unit.old unit.new left is_closure acts.now) }
{
    let count = acts.len();
    for (place, act) in acts.iter().enumerate() {
        if let Some(left) = append_act(alloc, unit, is_closure, act, place + 1 == count)? {
            return Ok(left);
        }
    }
    append_object(alloc, unit, &name_of(alloc, b"nil")?)?;
    Ok(false)
}

// Appends the code of a statement. Where it is over with it, it says whether the activation is left.
#[cycle(code)]
fn append_act(
    alloc: Global,
    unit: &mut Unit,
    is_closure: bool,
    act: &Act,
    is_last: bool,
) -> Result<Option<bool>, AllocError>
    ensures { IfOk result (λ over. (rest : List Act) → is_last ≡ is_over rest → Turns unit.old unit.new over is_closure act.now rest) }
{
    match act {
        Act::Let(local, part) => {
            append_part(alloc, unit, part)?;
            append_local(unit, 5, *local)?;
            Ok(None)
        }
        Act::LetVar(local, part) => {
            append_part(alloc, unit, part)?;
            append_local(unit, 6, *local)?;
            Ok(None)
        }
        Act::Set(local, part) => {
            append_part(alloc, unit, part)?;
            append_local(unit, 8, *local)?;
            Ok(None)
        }
        Act::Do(part) => {
            append_part(alloc, unit, part)?;
            append_end(unit, is_last)
        }
        Act::Back(part) => {
            append_part(alloc, unit, part)?;
            append_return(unit, is_closure)
        }
    }
}

// The value of the last statement stays; that of another is dropped.
fn append_end(unit: &mut Unit, is_last: bool) -> Result<Option<bool>, AllocError>
    ensures signs { OnOk result (unit.new ≡ unit.old ++ end_signs is_last) }
    ensures over { IfOk result (λ over. over ≡ end_over is_last) }
{
    if is_last {
        return Ok(Some(false));
    }
    append_plain(unit, 17)?;
    Ok(None)
}

// A return from a closure leaves the activation in which it was made.
fn append_return(unit: &mut Unit, is_closure: bool) -> Result<Option<bool>, AllocError>
    ensures signs { OnOk result (unit.new ≡ unit.old ++ return_signs is_closure) }
    ensures over { IfOk result (λ over. over ≡ Some is_closure) }
{
    if is_closure {
        append_plain(unit, 19)?;
    }
    Ok(Some(is_closure))
}

fn append_int(unit: &mut Unit, n: &i128) -> Result<(), AllocError>
    ensures { OnOk result (unit.new ≡ unit.old ++ instruction_signs (machine.PushInt n.now)) }
{
    unit.byte(1)?;
    unit.integer(n)
}

fn append_text(unit: &mut Unit, own: &[u8]) -> Result<(), AllocError>
    ensures { OnOk result (unit.new ≡ unit.old ++ instruction_signs (machine.PushText own.now)) }
{
    unit.byte(2)?;
    unit.count(own.len() as u64)?;
    unit.text(own)
}

fn append_object(alloc: Global, unit: &mut Unit, name: &Name) -> Result<(), AllocError>
    ensures { OnOk result (unit.new ≡ unit.old ++ instruction_signs (machine.PushObject name.now)) }
{
    append_named(alloc, unit, 3, Symbol::Object(name.copy(alloc)?))
}

fn append_closure(unit: &mut Unit, block: u64, locals: &[u64]) -> Result<(), AllocError>
    ensures { OnOk result (unit.new ≡ unit.old ++ instruction_signs (machine.Close block locals.now)) }
{
    unit.byte(9)?;
    unit.count(block)?;
    append_locals(unit, locals)
}

fn append_new(
    alloc: Global,
    unit: &mut Unit,
    class: &Name,
    fields: &[(FieldKey, Part)],
) -> Result<(), AllocError>
    ensures { (operands : ℕ) → OnOk result (unit.new ≡ unit.old ++ instruction_signs (machine.Make class.now (keys fields.now) operands)) }
{
    append_named(alloc, unit, 16, Symbol::Object(class.copy(alloc)?))?;
    unit.count(fields.len() as u64)?;
    append_keys(alloc, unit, fields)
}

fn append_keys(
    alloc: Global,
    unit: &mut Unit,
    fields: &[(FieldKey, Part)],
) -> Result<(), AllocError>
    ensures { OnOk result (unit.new ≡ unit.old ++ each field_signs (keys fields.now)) }
{
    for field in fields {
        append_field(alloc, unit, &field.0)?;
    }
    Ok(())
}

fn append_resend(
    alloc: Global,
    unit: &mut Unit,
    method: &MethodKey,
    row: Option<u8>,
) -> Result<(), AllocError>
    ensures { (operands : ℕ) → OnOk result (unit.new ≡ unit.old ++ instruction_signs (machine.Send (Resends method.now row) operands)) }
{
    append_named(alloc, unit, 12, Symbol::Table(method.selector.copy(alloc)?))?;
    append_row(unit, row)
}

fn append_primitive(unit: &mut Unit, number: u8) -> Result<(), AllocError>
    ensures { (operands : ℕ) → OnOk result (unit.new ≡ unit.old ++ instruction_signs (machine.Perform number operands)) }
{
    unit.byte(13)?;
    unit.small(number as u64)
}

fn append_call(
    alloc: Global,
    unit: &mut Unit,
    method: &MethodKey,
    variant: &Variant,
) -> Result<(), AllocError>
    ensures { (operands : ℕ) →
        OnOk result (unit.new ≡ unit.old ++ instruction_signs (machine.Enter (record { method = method.now; variant = variant.now }) operands)) }
{
    let symbol = Symbol::Code(method.copy(alloc)?, variant.copy(alloc)?);
    append_named(alloc, unit, 11, symbol)
}

fn append_fail(unit: &mut Unit, error: &RunError) -> Result<(), AllocError>
    ensures { OnOk result (unit.new ≡ unit.old ++ instruction_signs (machine.Fail error.now)) }
{
    unit.byte(21)?;
    append_error(unit, error)
}

// The last formal is stored first, since its argument is on top.
fn append_stores(unit: &mut Unit, locals: &[u64]) -> Result<(), AllocError>
    ensures { OnOk result (Emits unit.old unit.new (stores_code locals.now)) }
{
    let mut left = locals.len();
    while left > 0 {
        left -= 1;
        append_local(unit, 5, locals[left])?;
    }
    Ok(())
}
