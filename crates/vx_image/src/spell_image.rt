//! The bytes of instructions, blocks and codes, and of whole images.
ghost use Rattle.std.specs.Prelude.{◌≡◌, ◌++◌, ℕ, OnOk, IfOk};
ghost use Rattle.vx_format.specs.Layout.{image_bytes, op, operands, own};
ghost use Rattle.vx_image.specs.Spelled.{counts, lists};

use crate::spelling::{
    Spell, spell_all, spell_count, spell_i128, spell_list, spell_name, spell_sized, spell_text,
    spell_u8, spell_u32,
};
use sqlite_items::Items;
use std::alloc::{AllocError, Global};
use vx_format::{Block, Image, Instr, Own, Version};

// The byte of an operation.
fn operation(instr: &Instr) -> u8
    ensures { result ≡ op instr.now }
{
    match instr {
        Instr::Int(_) => 1,
        Instr::Text(_) => 2,
        Instr::Object(_) => 3,
        Instr::Load(_) => 4,
        Instr::Store(_) => 5,
        Instr::Cell(_) => 6,
        Instr::CellGet(_) => 7,
        Instr::CellSet(_) => 8,
        Instr::Closure(_, _) => 9,
        Instr::Send(_) => 10,
        Instr::Call(_) => 11,
        Instr::Resend(_, _) => 12,
        Instr::Prim(_) => 13,
        Instr::Get(_) => 14,
        Instr::Set(_) => 15,
        Instr::New(_, _) => 16,
        Instr::Pop => 17,
        Instr::Ret => 18,
        Instr::Home => 19,
        Instr::Mark => 20,
        Instr::Fail(_, _, _) => 21,
    }
}

// What stands behind the byte of the operation.
fn spell_operands(alloc: Global, instr: &Instr, out: &mut Vec<u8>) -> Result<(), AllocError>
    ensures { OnOk result (out.new.items ≡ out.old.items ++ operands instr.now) }
{
    match instr {
        Instr::Int(z) => spell_i128(z, out),
        Instr::Text(text) => spell_text(text.as_slice(), out),
        Instr::Object(x) => spell_u32(*x, out),
        Instr::Load(x) => spell_u32(*x, out),
        Instr::Store(x) => spell_u32(*x, out),
        Instr::Cell(x) => spell_u32(*x, out),
        Instr::CellGet(x) => spell_u32(*x, out),
        Instr::CellSet(x) => spell_u32(*x, out),
        Instr::Closure(block, captures) => {
            spell_u32(*block, out)?;
            spell_list(alloc, Version::Two, captures.as_slice(), out)
        }
        Instr::Send(x) => spell_u32(*x, out),
        Instr::Call(x) => spell_u32(*x, out),
        Instr::Resend(table, row) => {
            spell_u32(*table, out)?;
            spell_u8(*row, out)
        }
        Instr::Prim(prim) => spell_u8(*prim, out),
        Instr::Get(x) => spell_u32(*x, out),
        Instr::Set(x) => spell_u32(*x, out),
        Instr::New(object, fields) => {
            spell_u32(*object, out)?;
            spell_list(alloc, Version::Two, fields.as_slice(), out)
        }
        Instr::Pop => Ok(()),
        Instr::Ret => Ok(()),
        Instr::Home => Ok(()),
        Instr::Mark => Ok(()),
        Instr::Fail(kind, name, arity) => {
            spell_u8(*kind, out)?;
            spell_name(name.as_slice(), out)?;
            spell_u8(*arity, out)
        }
    }
}

impl Spell for Instr {
    ghost use Rattle.vx_format.specs.Layout.{instr};

    ghost spelling = { λ v. instr };

    fn spell(&self, alloc: Global, _version: Version, out: &mut Vec<u8>) -> Result<(), AllocError> {
        spell_u8(operation(self), out)?;
        spell_operands(alloc, self, out)
    }
}

impl Spell for Block {
    ghost use Rattle.vx_format.specs.Layout.{block};

    ghost spelling = { λ v. block };

    fn spell(&self, alloc: Global, version: Version, out: &mut Vec<u8>) -> Result<(), AllocError> {
        spell_u32(self.locals, out)?;
        spell_u32(self.captures, out)?;
        spell_u8(self.formals, out)?;
        spell_sized(alloc, version, self.code.as_slice(), out)
    }
}

impl Spell for Items<Block> {
    ghost use Rattle.vx_format.specs.Layout.{code};

    ghost spelling = { λ v. code };

    fn spell(&self, alloc: Global, version: Version, out: &mut Vec<u8>) -> Result<(), AllocError> {
        spell_list(alloc, version, self.as_slice(), out)
    }
}

// The six objects that an image names itself.
fn spell_own(six: &Own, out: &mut Vec<u8>) -> Result<(), AllocError>
    ensures { OnOk result (out.new.items ≡ out.old.items ++ own six.now) }
{
    spell_u32(six.closure, out)?;
    spell_u32(six.false_, out)?;
    spell_u32(six.int, out)?;
    spell_u32(six.nil, out)?;
    spell_u32(six.string, out)?;
    spell_u32(six.true_, out)
}

// The numbers of fields, objects, tests, tables and codes.
fn spell_counts(image: &Image, out: &mut Vec<u8>) -> Result<(), AllocError>
    ensures { OnOk result (out.new.items ≡ out.old.items ++ counts image.now) }
{
    spell_u32(image.fields, out)?;
    spell_count(image.shapes.len(), out)?;
    spell_count(image.tests.len(), out)?;
    spell_count(image.tables.len(), out)?;
    spell_count(image.codes.len(), out)
}

// The shapes, tests, tables and codes.
fn spell_lists(
    alloc: Global,
    version: Version,
    image: &Image,
    out: &mut Vec<u8>,
) -> Result<(), AllocError>
    ensures { OnOk result (out.new.items ≡ out.old.items ++ lists version image.now) }
{
    spell_all(alloc, version, image.shapes.as_slice(), out)?;
    spell_all(alloc, version, image.tests.as_slice(), out)?;
    spell_all(alloc, version, image.tables.as_slice(), out)?;
    spell_all(alloc, version, image.codes.as_slice(), out)
}

/// The bytes of an image in a version.
pub fn spell_image(alloc: Global, version: Version, image: &Image) -> Result<Vec<u8>, AllocError>
    ensures { IfOk result (λ bytes. bytes.items ≡ image_bytes version image.now) }
{
    let mut out = Vec::from_slice(alloc, b"VXIC")?;
    match version {
        Version::One => spell_u8(1, &mut out)?,
        Version::Two => spell_u8(2, &mut out)?,
    }
    spell_counts(image, &mut out)?;
    spell_own(&image.own, &mut out)?;
    image.main.spell(alloc, version, &mut out)?;
    spell_lists(alloc, version, image, &mut out)?;
    Ok(out)
}
