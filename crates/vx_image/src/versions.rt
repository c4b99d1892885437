//! The same image in the other version.
ghost use Rattle.std.specs.Prelude.{◌≡◌, ◌<◌, ◌^◌, ℕ, not, Ok, length, IfOk};
ghost use Rattle.std.specs.List.{list_all, position_from};
ghost use Rattle.vx_format.specs.declared.image.Version.TheVariants.{Two};
ghost use Rattle.vx_format.specs.Format.{loaded, widen};
ghost use Rattle.vx_image.specs.declared.versions.NarrowFault.TheVariants.{OutOfMemory};
ghost use Rattle.vx_image.specs.Gives.{Gives};
ghost use Rattle.vx_image.specs.Narrow.{NarrowsAs, is_narrow, is_narrow_mask, is_narrow_position};
ghost use Rattle.vx_image.specs.Parts.{image_of};

use crate::fault::LoadFault;
use crate::image::read_image;
use crate::spell_image::spell_image;
use std::alloc::{AllocError, Global};
use thiserror::Error;
use vx_format::{ClassMask, Position, Row, Table, Version, images_are_loaded};

/// Why an image has no version 1.
#[derive(Clone, Copy, Debug, PartialEq, Eq, Error)]
pub enum NarrowFault {
    /// The bytes are no image. The fault is never want of memory.
    #[error("{0}")]
    Load(LoadFault),
    /// The table at this place, counted from 0, is the first with more than 64 rows or with a mask that has a bit at 64 or above.
    #[error("table {0} is too wide for version 1")]
    TooWide(u32),
    /// There was no memory. Nothing is said of the bytes.
    #[error("out of memory")]
    OutOfMemory,
}

impl From<AllocError> for NarrowFault {
    ghost from_gives = { λ _ e. e ≡ OutOfMemory };

    fn from(_: AllocError) -> NarrowFault {
        NarrowFault::OutOfMemory
    }
}

/// The same image in version 2, where each mask has 64 further bits, which are 0. The faults are those of loading.
pub fn upgrade(alloc: Global, bytes: &[u8]) -> Result<Vec<u8>, LoadFault>
    // The bytes are those of the definition, or the fault is.
    ensures exact { Gives (λ wide. wide.items) result (widen bytes.now) }
    // They load as version 2, with the same parts.
    ensures loads { IfOk result (λ wide. loaded wide.items ≡ Ok (Two, image_of bytes.now)) }
{
    images_are_loaded();
    let (_, image) = read_image(alloc, bytes)?;
    let wide = spell_image(alloc, Version::Two, &image)?;
    Ok(wide)
}

/// The same image in version 1, if there it fits. What has a fault is told before what is too wide.
pub fn narrow(alloc: Global, bytes: &[u8]) -> Result<Vec<u8>, NarrowFault>
    // What is answered, by what the bytes mean.
    ensures exact { NarrowsAs (λ narrow. narrow.items) result (loaded bytes.now) }
    // Widening the answer gives what widening the bytes gives.
    ensures widens { IfOk result (λ narrow. widen narrow.items ≡ widen bytes.now) }
{
    images_are_loaded();
    let image = match read_image(alloc, bytes) {
        Ok((_, image)) => image,
        Err(LoadFault::OutOfMemory) => return Err(NarrowFault::OutOfMemory),
        Err(fault) => return Err(NarrowFault::Load(fault)),
    };
    match too_wide(image.tables.as_slice()) {
        Some(table) => Err(NarrowFault::TooWide(table)),
        None => Ok(spell_image(alloc, Version::One, &image)?),
    }
}

// The first table that does not fit version 1.
fn too_wide(tables: &[Table]) -> Option<u32>
    requires { length tables.now < 2 ^ 32 }
    ensures { result ≡ position_from (λ t. not (is_narrow t)) 0 tables.now }
{
    for (i, table) in tables.iter().enumerate() {
        if !is_narrow(table) {
            return Some(i as u32);
        }
    }
    None
}

// Whether a table fits version 1.
#[tactic(auto, unfolding(crate::specs::Narrow::is_narrow))]
fn is_narrow(table: &Table) -> bool
    ensures { result ≡ is_narrow table.now }
{
    let few = table.rows.len() <= 64;
    let rows = are_narrow_rows(table.rows.as_slice());
    let positions = are_narrow_positions(table.positions.as_slice());
    few & (rows & positions)
}

// Whether each row beats rows below 64 alone.
fn are_narrow_rows(rows: &[Row]) -> bool
    ensures { result ≡ list_all (λ r. is_narrow_mask r.beats) rows.now }
{
    for row in rows {
        if !is_narrow_mask(row.beats) {
            return false;
        }
    }
    true
}

// Whether all masks of each position have bits below 64 alone.
fn are_narrow_positions(positions: &[Position]) -> bool
    ensures { result ≡ list_all is_narrow_position positions.now }
{
    for position in positions {
        if !is_narrow_position(position) {
            return false;
        }
    }
    true
}

fn is_narrow_position(position: &Position) -> bool
    ensures { result ≡ is_narrow_position position.now }
{
    let default = is_narrow_mask(position.default);
    let classes = are_narrow_masks(position.classes.as_slice());
    let tests = are_narrow_masks(position.tests.as_slice());
    default & (classes & tests)
}

fn are_narrow_masks(masks: &[ClassMask]) -> bool
    ensures { result ≡ list_all (λ m. is_narrow_mask m.mask) masks.now }
{
    for mask in masks {
        if !is_narrow_mask(mask.mask) {
            return false;
        }
    }
    true
}

// Whether a mask has no bit at 64 or above.
#[tactic(auto, unfolding(crate::specs::Narrow::is_narrow_mask))]
fn is_narrow_mask(mask: u128) -> bool
    ensures { result ≡ is_narrow_mask mask }
{
    mask <= u64::MAX as u128
}
