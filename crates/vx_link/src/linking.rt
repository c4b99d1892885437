//! The bytes of an image.
ghost use Rattle.std.specs.Prelude.{◌≡◌, ◌++◌, OnOk};
ghost use Rattle.vx_format.specs.Numbers.{each};
ghost use Rattle.vx_names.specs.Key.{name_cmp};
ghost use Rattle.vx_link.specs.Roster.{IsKeyList, IsRoster};
ghost use Rattle.vx_link.specs.Link.{LinksAs, beginning, counts, head, object_bytes, piece_bytes, six, targets, unit_bytes};

use crate::fault::LinkFault;
use crate::measure::measure;
use crate::numbers::{write_number, write_optional};
use crate::places::{name_place, place, table_place};
use crate::roster::{Roster, count};
use crate::units::{Units, unit_at};
use std::alloc::{AllocError, Global};
use vx_names::Name;
use vx_node::Piece;

/// Links the units of the roster's shapes, tests, tables and codes. What has no unit adds nothing to the image, and a symbol that the roster does not have
/// is ffffffff. The length of the image is found first, and there is room for all of it before a byte is written.
pub fn link<U: Units>(alloc: Global, roster: &Roster, units: &U) -> Result<Vec<u8>, LinkFault>
    requires { IsRoster roster.now }
    ensures { LinksAs (λ image. image.items) result roster.now (U.unit_of units.now) }
{
    let size = measure(alloc, roster, units)?;
    let mut image = Vec::with_capacity(alloc, size)?;
    write_head(roster, &mut image)?;
    write_units(alloc, roster, units, &mut image)?;
    Ok(image)
}

fn write_units<U: Units>(
    alloc: Global,
    roster: &Roster,
    units: &U,
    out: &mut Vec<u8>,
) -> Result<(), AllocError>
    requires { IsRoster roster.now }
    ensures { OnOk result (out.new.items ≡ out.old.items ++ each (unit_bytes roster.now (U.unit_of units.now)) (targets roster.now)) }
{
    for place in 0..count(roster) {
        let unit = unit_at(alloc, roster, units, place)?;
        write_unit(roster, unit, out)?;
    }
    Ok(())
}

fn write_unit(roster: &Roster, unit: &[Piece], out: &mut Vec<u8>) -> Result<(), AllocError>
    requires { IsRoster roster.now }
    ensures { OnOk result (out.new.items ≡ out.old.items ++ each (piece_bytes roster.now) unit.now) }
{
    for piece in unit {
        write_piece(roster, piece, out)?;
    }
    Ok(())
}

fn write_piece(roster: &Roster, piece: &Piece, out: &mut Vec<u8>) -> Result<(), AllocError>
    requires { IsRoster roster.now }
    ensures { OnOk result (out.new.items ≡ out.old.items ++ piece_bytes roster.now piece.now) }
{
    match piece {
        Piece::Bytes(bytes) => out.extend_from_slice(bytes.as_slice()),
        Piece::Symbol(symbol) => write_optional(place(roster, symbol), out),
    }
}

fn write_head(roster: &Roster, out: &mut Vec<u8>) -> Result<(), AllocError>
    requires { IsRoster roster.now }
    ensures { OnOk result (out.new.items ≡ out.old.items ++ head roster.now) }
{
    write_beginning(out)?;
    write_counts(roster, out)?;
    write_six(roster.objects.as_slice(), out)?;
    write_optional(table_place(roster.tables.as_slice(), b"main", 0), out)
}

// By what an image is told, and its version.
#[tactic(auto, using(crate::proofs::Bytes::version_two))]
fn write_beginning(out: &mut Vec<u8>) -> Result<(), AllocError>
    ensures { OnOk result (out.new.items ≡ out.old.items ++ beginning) }
{
    out.extend_from_slice(b"VXIC\x02")
}

fn write_counts(roster: &Roster, out: &mut Vec<u8>) -> Result<(), AllocError>
    requires { IsRoster roster.now }
    ensures { OnOk result (out.new.items ≡ out.old.items ++ counts roster.now) }
{
    write_number(roster.fields.len() as u32, out)?;
    write_number(roster.objects.len() as u32, out)?;
    write_number(roster.tests.len() as u32, out)?;
    write_number(roster.tables.len() as u32, out)?;
    write_number(roster.codes.len() as u32, out)
}

// The objects that a machine must know.
fn write_six(objects: &[Name], out: &mut Vec<u8>) -> Result<(), AllocError>
    requires { IsKeyList name_cmp objects.now }
    ensures { OnOk result (out.new.items ≡ out.old.items ++ six objects.now) }
{
    write_object(objects, b"closure", out)?;
    write_object(objects, b"false", out)?;
    write_object(objects, b"int", out)?;
    write_object(objects, b"nil", out)?;
    write_object(objects, b"string", out)?;
    write_object(objects, b"true", out)
}

fn write_object(objects: &[Name], name: &[u8], out: &mut Vec<u8>) -> Result<(), AllocError>
    requires { IsKeyList name_cmp objects.now }
    ensures { OnOk result (out.new.items ≡ out.old.items ++ object_bytes objects.now name.now) }
{
    write_optional(name_place(objects, name), out)
}
