//! Instructions as bytes and names.
ghost use Rattle.std.specs.Prelude.{◌≡◌, ◌++◌, [], length, OnOk};
ghost use Rattle.vx_units.specs.Signs.{named, each};
ghost use Rattle.vx_units.specs.CodeUnit.{operation, count, small, row_signs, failure, error_signs, field_signs};

use crate::unit::Unit;
use std::alloc::{AllocError, Global};
use vx_model::RunError;
use vx_names::FieldKey;
use vx_node::Symbol;

/// An operation with nothing behind it.
pub fn append_plain(unit: &mut Unit, op: u8) -> Result<(), AllocError>
    ensures { OnOk result (unit.new ≡ unit.old ++ operation op []) }
{
    unit.byte(op)
}

/// An operation on a local.
pub fn append_local(unit: &mut Unit, op: u8, local: u64) -> Result<(), AllocError>
    ensures { OnOk result (unit.new ≡ unit.old ++ operation op (count local)) }
{
    unit.byte(op)?;
    unit.count(local)
}

/// An operation on what a symbol names.
pub fn append_named(
    alloc: Global,
    unit: &mut Unit,
    op: u8,
    symbol: Symbol,
) -> Result<(), AllocError>
    ensures { OnOk result (unit.new ≡ unit.old ++ operation op (named symbol)) }
{
    unit.byte(op)?;
    unit.name(alloc, symbol)
}

/// Locals, behind how many there are.
pub fn append_locals(unit: &mut Unit, locals: &[u64]) -> Result<(), AllocError>
    ensures { OnOk result (unit.new ≡ unit.old ++ (count (length locals.now) ++ each count locals.now)) }
{
    unit.count(locals.len() as u64)?;
    append_each_local(unit, locals)
}

fn append_each_local(unit: &mut Unit, locals: &[u64]) -> Result<(), AllocError>
    ensures { OnOk result (unit.new ≡ unit.old ++ each count locals.now) }
{
    for local in locals {
        unit.count(*local)?;
    }
    Ok(())
}

/// The row of a resend.
pub fn append_row(unit: &mut Unit, row: Option<u8>) -> Result<(), AllocError>
    ensures { OnOk result (unit.new ≡ unit.old ++ row_signs row) }
{
    match row {
        Some(row) => unit.small(row as u64),
        None => unit.byte(255),
    }
}

/// A field.
pub fn append_field(alloc: Global, unit: &mut Unit, key: &FieldKey) -> Result<(), AllocError>
    ensures { OnOk result (unit.new ≡ unit.old ++ field_signs key.now) }
{
    unit.name(alloc, Symbol::Field(key.copy(alloc)?))
}

/// The error that ends a run.
pub fn append_error(unit: &mut Unit, error: &RunError) -> Result<(), AllocError>
    ensures { OnOk result (unit.new ≡ unit.old ++ error_signs error.now) }
{
    match error {
        RunError::NoField(name) => append_failure(unit, 0, name.bytes(), 0),
        RunError::UnknownObject(name) => append_failure(unit, 1, name.bytes(), 0),
        RunError::NotUnderstood(selector) => append_failure(
            unit,
            2,
            selector.name.bytes(),
            selector.arity,
        ),
        _ => append_failure(unit, 255, b"", 0),
    }
}

fn append_failure(unit: &mut Unit, kind: u8, name: &[u8], arity: u8) -> Result<(), AllocError>
    ensures { OnOk result (unit.new ≡ unit.old ++ failure kind name.now arity) }
{
    unit.byte(kind)?;
    unit.small(name.len() as u64)?;
    unit.text(name)?;
    unit.small(arity as u64)
}
