//! A unit while it is spelled.
ghost use Rattle.std.specs.Prelude.{◌≡◌, ◌++◌, ◌-◌, ◌^◌, min, [], IfOk, OnOk};
ghost use Rattle.vx_format.specs.Numbers.{number, integer};
ghost use Rattle.vx_units.specs.Signs.{bytes, named, fitted, size, grouped};
ghost use Rattle.vx_codegen.specs.Ungrouped.{ungrouped, stretch_piece, stretches_pieces};

use sqlite_items::Items;
use std::alloc::{AllocError, Global};
use std::marker::Model;
use vx_image::{spell_i128, spell_u8, spell_u32};
use vx_node::{Piece, Symbol};

/// A unit while it is spelled, from the left. Contracts see the bytes and names that it has so far.
#[derive(Drop)]
pub struct Unit {
    // Stretches of bytes, each with the name behind it.
    stretches: Vec<(Items<u8>, Symbol)>,
    // The bytes behind the last name.
    tail: Vec<u8>,
}

impl Model for Unit {
    ghost use Rattle.std.specs.Prelude.{List, ◌++◌};
    ghost use Rattle.vx_units.specs.Signs.{Sign, bytes};
    ghost use Rattle.vx_codegen.specs.Ungrouped.{ungrouped};

    ghost Value = { List Sign };

    ghost view = { λ u. ungrouped u.stretches.items ++ bytes u.tail.items };
}

impl Unit {
    /// Nothing.
    pub fn new(alloc: Global) -> Unit
        ensures { result ≡ [] }
    {
        Unit {
            stretches: Vec::new(alloc),
            tail: Vec::new(alloc),
        }
    }

    /// Appends bytes.
    pub fn text(&mut self, own: &[u8]) -> Result<(), AllocError>
        ensures { OnOk result (self.new ≡ self.old ++ bytes own.now) }
    {
        self.tail.extend_from_slice(own)
    }

    /// Appends a byte.
    pub fn byte(&mut self, n: u8) -> Result<(), AllocError>
        ensures { OnOk result (self.new ≡ self.old ++ bytes (number 1 n)) }
    {
        spell_u8(n, &mut self.tail)
    }

    /// Appends a number of four bytes, all of which are 255 where it does not fit.
    pub fn count(&mut self, n: u64) -> Result<(), AllocError>
        ensures { OnOk result (self.new ≡ self.old ++ bytes (fitted 4 n)) }
    {
        spell_u32(four_bytes(n), &mut self.tail)
    }

    /// Appends a number of one byte, which is 255 where it does not fit.
    pub fn small(&mut self, n: u64) -> Result<(), AllocError>
        ensures { OnOk result (self.new ≡ self.old ++ bytes (fitted 1 n)) }
    {
        spell_u8(one_byte(n), &mut self.tail)
    }

    /// Appends a whole number of 16 bytes.
    pub fn integer(&mut self, n: &i128) -> Result<(), AllocError>
        ensures { OnOk result (self.new ≡ self.old ++ bytes (integer n.now)) }
    {
        spell_i128(n, &mut self.tail)
    }

    /// Appends a name.
    #[tactic(auto, using(crate::proofs::Grouping::stretch_behind))]
    pub fn name(&mut self, alloc: Global, symbol: Symbol) -> Result<(), AllocError>
        ensures { OnOk result (self.new ≡ self.old ++ named symbol) }
    {
        let own = Items::from_slice(alloc, self.tail.as_slice())?;
        self.stretches.push((own, symbol))?;
        self.tail.clear();
        Ok(())
    }

    /// Appends all of another unit.
    pub fn append(&mut self, alloc: Global, other: &Unit) -> Result<(), AllocError>
        ensures { OnOk result (self.new ≡ self.old ++ other.now) }
    {
        self.append_stretches(alloc, other.stretches.as_slice())?;
        self.text(other.tail.as_slice())
    }

    fn append_stretches(
        &mut self,
        alloc: Global,
        stretches: &[(Items<u8>, Symbol)],
    ) -> Result<(), AllocError>
        ensures { OnOk result (self.new ≡ self.old ++ ungrouped stretches.now) }
    {
        for stretch in stretches {
            self.text(stretch.0.as_slice())?;
            self.name(alloc, stretch.1.copy(alloc)?)?;
        }
        Ok(())
    }

    /// How many bytes it has in an image, where a name has four; a greater number counts as the greatest of 64 bits.
    #[tactic(auto, using(crate::proofs::Grouping::size_behind, crate::proofs::Grouping::bytes_size))]
    pub fn size(&self) -> u64
        ensures { result ≡ min (size self.now) (2 ^ 64 - 1) }
    {
        stretches_size(self.stretches.as_slice()).saturating_add(self.tail.len() as u64)
    }

    /// Appends the size of another unit, as a count.
    pub fn count_size(&mut self, other: &Unit) -> Result<(), AllocError>
        ensures { OnOk result (self.new ≡ self.old ++ bytes (fitted 4 (size other.now))) }
    {
        spell_u32(bytes_of_size(other), &mut self.tail)
    }

    /// The pieces of the unit.
    #[tactic(auto, using(crate::proofs::Grouping::pieces_are))]
    pub fn end(self, alloc: Global) -> Result<Items<Piece>, AllocError>
        ensures { IfOk result (λ unit. unit ≡ grouped self) }
    {
        let mut pieces = Vec::new(alloc);
        append_pieces(alloc, &mut pieces, self.stretches.as_slice())?;
        append_bytes(alloc, &mut pieces, self.tail.as_slice())?;
        Ok(Items::from_vec(pieces))
    }
}

fn stretches_size(stretches: &[(Items<u8>, Symbol)]) -> u64
    ensures { result ≡ min (size (ungrouped stretches.now)) (2 ^ 64 - 1) }
{
    let mut total = 0u64;
    for stretch in stretches {
        total = total
            .saturating_add(4)
            .saturating_add(stretch.0.len() as u64);
    }
    total
}

fn append_pieces(
    alloc: Global,
    pieces: &mut Vec<Piece>,
    stretches: &[(Items<u8>, Symbol)],
) -> Result<(), AllocError>
    ensures { OnOk result (pieces.new.items ≡ pieces.old.items ++ stretches_pieces stretches.now) }
{
    for stretch in stretches {
        append_bytes(alloc, pieces, stretch.0.as_slice())?;
        pieces.push(Piece::Symbol(stretch.1.copy(alloc)?))?;
    }
    Ok(())
}

fn append_bytes(alloc: Global, pieces: &mut Vec<Piece>, own: &[u8]) -> Result<(), AllocError>
    ensures { OnOk result (pieces.new.items ≡ pieces.old.items ++ stretch_piece own.now) }
{
    if own.is_empty() {
        return Ok(());
    }
    pieces.push(Piece::Bytes(Items::from_slice(alloc, own)?))?;
    Ok(())
}

// The size of a unit, or the greatest number of four bytes.
fn bytes_of_size(unit: &Unit) -> u32
    ensures { number 4 result ≡ fitted 4 (size unit.now) }
{
    let n = unit.size();
    if n > u32::MAX as u64 {
        u32::MAX
    } else {
        n as u32
    }
}

// The number, or the greatest of four bytes.
fn four_bytes(n: u64) -> u32
    ensures { number 4 result ≡ fitted 4 n }
{
    if n > u32::MAX as u64 {
        u32::MAX
    } else {
        n as u32
    }
}

// The number, or the greatest of one byte.
fn one_byte(n: u64) -> u8
    ensures { number 1 result ≡ fitted 1 n }
{
    if n > u8::MAX as u64 { u8::MAX } else { n as u8 }
}
