//! An image made ready to run.
ghost use Rattle.std.specs.Prelude.{◌≡◌, ◌<◌, true, Some, IfOk, IfSome, length, map, slice_get};
ghost use Rattle.vx_places.specs.Dispatch.{dispatched};
ghost use Rattle.std.specs.Option.{option_copied};
ghost use Rattle.vx_format.specs.declared.image.Table.{Table};
ghost use Rattle.vx_names.specs.Name.{IsName};
ghost use Rattle.vx_places.specs.ImageMachine.{block_at};
ghost use Rattle.std.specs.List.{list_all};
ghost use Rattle.vx_format.specs.declared.image.Version.{Version};
ghost use Rattle.vx_format.specs.Layout.{is_image};
ghost use Rattle.vx_machine.specs.Meaning.{IsFine, Texts, beats_in, things_of, value_of};
ghost use Rattle.vx_machine.specs.Opening.{rising};

use crate::dispatch::rows_left;
use crate::truths::Truths;
use crate::word::{Object, Word};
use sqlite_items::{Items, at};
use std::alloc::{AllocError, Global};
use std::marker::Model;
use vx_format::{Block, ClassMask, Image, Position, Row, Slot, Table};
use vx_image::names_are_names;
use vx_tables::{Picked, pick_left};

/// An image with what its rows beat, table by table, and whether all classes rise, which contracts see as the image.
#[derive(Drop)]
pub struct Ready<'a> {
    image: &'a Image,
    beats: Items<Items<u128>>,
    rise: bool,
}

impl<'a> Model for Ready<'a> {
    ghost use Rattle.vx_format.specs.declared.image.Image.{Image};
    ghost use Rattle.vx_machine.specs.Meaning.{IsReady};

    ghost Value = { Image };

    ghost view = { λ r. r.image.now };

    ghost invariant = { λ r. IsReady r.image.now r.beats r.rise };
}

impl<'a> Ready<'a> {
    /// Makes an image ready that fits a version of the format.
    pub fn new(alloc: Global, image: &'a Image) -> Result<Ready<'a>, AllocError>
        requires { (v : Version) × (is_image v image.now ≡ true) }
        ensures { IfOk result (λ ready. ready ≡ image.entry.now) }
    {
        names_are_names();
        let tables = image.tables.as_slice();
        let beats = all_beats(alloc, tables)?;
        let rise = all_rise(tables);
        Ok(Ready { image, beats, rise })
    }

    /// The image.
    #[inline(always)]
    pub fn image(&self) -> &'a Image
        ensures image { result.now ≡ self.now }
        ensures fine { IsFine self.now }
    {
        self.image
    }

    /// The block of a code.
    #[inline(always)]
    pub fn block(&self, code: u32, block: u32) -> Option<&'a Block>
        ensures { option_copied result ≡ block_at self.now code block }
    {
        let image = self.image;
        match image.codes.get(code as usize) {
            None => None,
            Some(blocks) => blocks.get(block as usize),
        }
    }

    /// The slots of an object of the image, as they are at first.
    #[inline(always)]
    pub fn shape(&self, class: u32) -> Option<&'a Items<Slot>>
        ensures { option_copied result ≡ slice_get self.now.shapes class }
    {
        let image = self.image;
        at(image.shapes.as_slice(), class as usize)
    }

    /// The table of a place.
    #[inline(always)]
    pub fn table(&self, t: u32) -> Option<&'a Table>
        ensures table { option_copied result ≡ slice_get self.now.tables t }
        ensures name { (own : Table) → option_copied result ≡ Some own → IsName own.name }
    {
        let image = self.image;
        at(image.tables.as_slice(), t as usize)
    }

    /// What a table makes of values, on from a row where there is one.
    #[inline(always)]
    pub fn picked(
        &self,
        t: u32,
        table: &Table,
        objects: &[Object<'_>],
        words: &[Word<'_>],
        below: Option<u8>,
        truths: &mut Truths,
    ) -> Result<Picked, AllocError>
        requires table { slice_get self.now.tables t ≡ Some table.now }
        requires row { IfSome below (λ row. row < length table.now.rows) }
        ensures { IfOk result (λ picked. (texts : Texts)
            → picked ≡ dispatched self.now (things_of texts objects.entry.now) table.now (map (value_of texts) words.entry.now) below) }
    {
        let positions = table.positions.as_slice();
        let left = rows_left(self.image, objects, words, positions, self.rise, truths)?;
        let beats = self.beats.as_slice();
        Ok(pick_left(beats[t as usize].as_slice(), left, below))
    }
}

// What the rows of each table beat.
fn all_beats(alloc: Global, tables: &[Table]) -> Result<Items<Items<u128>>, AllocError>
    ensures { IfOk result (λ beats. beats ≡ map beats_in tables.now) }
{
    let mut beats = Items::new(alloc);
    for table in tables {
        beats.push(row_beats(alloc, table.rows.as_slice())?)?;
    }
    Ok(beats)
}

// What each row beats.
fn row_beats(alloc: Global, rows: &[Row]) -> Result<Items<u128>, AllocError>
    ensures { IfOk result (λ beats. beats ≡ map (λ row. row.beats) rows.now) }
{
    let mut beats = Items::new(alloc);
    for row in rows {
        beats.push(row.beats)?;
    }
    Ok(beats)
}

// Whether the classes of each position of each table rise.
fn all_rise(tables: &[Table]) -> bool
    ensures { result ≡ list_all (λ table. list_all (λ position. rising 0 position.classes) table.positions) tables.now }
{
    for table in tables {
        if !positions_rise(table.positions.as_slice()) {
            return false;
        }
    }
    true
}

// Whether the classes of each position rise.
fn positions_rise(positions: &[Position]) -> bool
    ensures { result ≡ list_all (λ position. rising 0 position.classes) positions.now }
{
    for position in positions {
        if !rises(position.classes.as_slice()) {
            return false;
        }
    }
    true
}

// Whether the classes rise.
fn rises(entries: &[ClassMask]) -> bool
    ensures { result ≡ rising 0 entries.now }
{
    let mut least = 0u64;
    for entry in entries {
        if (entry.symbol as u64) < least {
            return false;
        }
        least = entry.symbol as u64 + 1;
    }
    true
}
