//! The bytes of shapes, tests and tables.
ghost use Rattle.std.specs.Prelude.{◌≡◌, ◌++◌, ℕ, OnOk};
ghost use Rattle.vx_format.specs.Layout.{does, initial, mask, split};

use crate::spelling::{
    Spell, spell_all, spell_count, spell_i128, spell_list, spell_name, spell_sized,
    spell_small_count, spell_text, spell_u8, spell_u32, spell_u64, spell_u128,
};
use sqlite_items::Items;
use std::alloc::{AllocError, Global};
use vx_format::{
    ClassMask, ClassTest, Does, Initial, Position, Row, Slot, Split, Step, Table, Test, Version,
};

// What a slot holds at first: a tag, and what stands behind it.
fn spell_initial(start: &Initial, out: &mut Vec<u8>) -> Result<(), AllocError>
    ensures { OnOk result (out.new.items ≡ out.old.items ++ initial start.now) }
{
    match start {
        Initial::Nil => spell_u8(0, out),
        Initial::False => spell_u8(1, out),
        Initial::True => spell_u8(2, out),
        Initial::Int(z) => {
            spell_u8(3, out)?;
            spell_i128(z, out)
        }
        Initial::Text(text) => {
            spell_u8(4, out)?;
            spell_text(text.as_slice(), out)
        }
    }
}

impl Spell for Slot {
    ghost use Rattle.vx_format.specs.Layout.{slot};

    ghost spelling = { λ v. slot };

    fn spell(
        &self,
        _alloc: Global,
        _version: Version,
        out: &mut Vec<u8>,
    ) -> Result<(), AllocError> {
        spell_u32(self.field, out)?;
        spell_initial(&self.start, out)
    }
}

impl Spell for Items<Slot> {
    ghost use Rattle.vx_format.specs.Layout.{shape};

    ghost spelling = { λ v. shape };

    fn spell(&self, alloc: Global, version: Version, out: &mut Vec<u8>) -> Result<(), AllocError> {
        spell_list(alloc, version, self.as_slice(), out)
    }
}

impl Spell for ClassTest {
    ghost use Rattle.vx_format.specs.Layout.{class_test};

    ghost spelling = { λ v. class_test };

    fn spell(&self, alloc: Global, version: Version, out: &mut Vec<u8>) -> Result<(), AllocError> {
        spell_u32(self.object, out)?;
        spell_all(alloc, version, self.fields.as_slice(), out)
    }
}

impl Spell for Step {
    ghost use Rattle.vx_format.specs.Layout.{step};

    ghost spelling = { λ v. step };

    fn spell(
        &self,
        _alloc: Global,
        _version: Version,
        out: &mut Vec<u8>,
    ) -> Result<(), AllocError> {
        match self {
            Step::Compare(operator, name, z) => {
                spell_u8(0, out)?;
                spell_u8(*operator, out)?;
                spell_u32(*name, out)?;
                spell_i128(z, out)
            }
            Step::And => spell_u8(1, out),
            Step::Or => spell_u8(2, out),
            Step::Not => spell_u8(3, out),
        }
    }
}

impl Spell for Test {
    ghost use Rattle.vx_format.specs.Layout.{test};

    ghost spelling = { λ v. test };

    fn spell(&self, alloc: Global, version: Version, out: &mut Vec<u8>) -> Result<(), AllocError> {
        spell_count(self.classes.len(), out)?;
        spell_u32(self.names, out)?;
        spell_all(alloc, version, self.classes.as_slice(), out)?;
        spell_sized(alloc, version, self.steps.as_slice(), out)
    }
}

// A mask of as many bytes as the version has. An image that fits has no bit beyond them.
fn spell_mask(bits: u128, version: Version, out: &mut Vec<u8>) -> Result<(), AllocError>
    ensures { OnOk result (out.new.items ≡ out.old.items ++ mask version bits) }
{
    match version {
        Version::One => {
            if bits > u64::MAX as u128 {
                return Err(AllocError);
            }
            spell_u64(bits as u64, out)
        }
        Version::Two => spell_u128(bits, out),
    }
}

impl Spell for (u32, u32) {
    ghost use Rattle.vx_format.specs.Layout.{pair};

    ghost spelling = { λ v. pair };

    fn spell(
        &self,
        _alloc: Global,
        _version: Version,
        out: &mut Vec<u8>,
    ) -> Result<(), AllocError> {
        spell_u32(self.0, out)?;
        spell_u32(self.1, out)
    }
}

// The position on which it depends what a row enters, and the codes for its classes. Without one the byte is ff.
fn spell_split(alloc: Global, clones: &Option<Split>, out: &mut Vec<u8>) -> Result<(), AllocError>
    ensures { OnOk result (out.new.items ≡ out.old.items ++ split clones.now) }
{
    match clones {
        None => spell_u8(255, out),
        Some(found) => {
            spell_u8(found.position, out)?;
            spell_small_count(found.pairs.len(), out)?;
            spell_all(alloc, Version::Two, found.pairs.as_slice(), out)
        }
    }
}

// What a row leads to: a tag, and what stands behind it.
fn spell_does(alloc: Global, deed: &Does, out: &mut Vec<u8>) -> Result<(), AllocError>
    ensures { OnOk result (out.new.items ≡ out.old.items ++ does deed.now) }
{
    match deed {
        Does::Code(code, clones) => {
            spell_u8(0, out)?;
            spell_u32(*code, out)?;
            spell_split(alloc, clones, out)
        }
        Does::Prim(prim) => {
            spell_u8(1, out)?;
            spell_u8(*prim, out)
        }
        Does::Get(field) => {
            spell_u8(2, out)?;
            spell_u32(*field, out)
        }
        Does::Set(field) => {
            spell_u8(3, out)?;
            spell_u32(*field, out)
        }
    }
}

impl Spell for Row {
    ghost use Rattle.vx_format.specs.Layout.{row};

    ghost spelling = { row };

    fn spell(&self, alloc: Global, version: Version, out: &mut Vec<u8>) -> Result<(), AllocError> {
        spell_does(alloc, &self.does, out)?;
        spell_mask(self.beats, version, out)
    }
}

impl Spell for ClassMask {
    ghost use Rattle.vx_format.specs.Layout.{class_mask};

    ghost spelling = { class_mask };

    fn spell(&self, _alloc: Global, version: Version, out: &mut Vec<u8>) -> Result<(), AllocError> {
        spell_u32(self.symbol, out)?;
        spell_mask(self.mask, version, out)
    }
}

impl Spell for Position {
    ghost use Rattle.vx_format.specs.Layout.{position};

    ghost spelling = { position };

    fn spell(&self, alloc: Global, version: Version, out: &mut Vec<u8>) -> Result<(), AllocError> {
        spell_mask(self.default, version, out)?;
        spell_list(alloc, version, self.classes.as_slice(), out)?;
        spell_list(alloc, version, self.tests.as_slice(), out)
    }
}

impl Spell for Table {
    ghost use Rattle.vx_format.specs.Layout.{table};

    ghost spelling = { table };

    fn spell(&self, alloc: Global, version: Version, out: &mut Vec<u8>) -> Result<(), AllocError> {
        spell_name(self.name.as_slice(), out)?;
        spell_u8(self.arity, out)?;
        spell_small_count(self.rows.len(), out)?;
        spell_all(alloc, version, self.rows.as_slice(), out)?;
        spell_all(alloc, version, self.positions.as_slice(), out)
    }
}
