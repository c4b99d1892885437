//! Whole images.
ghost use Rattle.std.specs.Prelude.{◌≡◌, true, IfOk};
ghost use Rattle.vx_format.specs.Layout.{is_image};
ghost use Rattle.vx_format.specs.Reading.{Cursor};
ghost use Rattle.vx_format.specs.Format.{a_magic, an_image, an_own, loaded, the_parts, versioned};
ghost use Rattle.vx_image.specs.Gives.{Gives};

use crate::cursor::{At, bytes_at, optional_at, symbol_at, u8_at, u32_at};
use crate::fault::LoadFault;
use crate::part::{Context, Part, list_at};
use crate::shapes::shape_at;
use sqlite_items::Items;
use std::alloc::Global;
use vx_format::{Image, Own, Roster, Slot, Version, images_are_loaded};

impl Part for Items<Slot> {
    ghost use Rattle.vx_format.specs.Format.{a_shape};

    ghost read = { λ c i. a_shape c.roster };

    fn read_part<'a>(
        alloc: Global,
        context: &Context,
        _number: u32,
        at: At<'a>,
    ) -> Result<(Items<Slot>, At<'a>), LoadFault> {
        shape_at(alloc, at, context)
    }
}

// The objects that an image names itself.
#[tactic(auto, unfolding(vx_format::specs::Format::an_own))]
fn own_at<'a>(at: At<'a>, r: Roster) -> Result<(Own, At<'a>), LoadFault>
    ensures { Gives (λ x. x) result (an_own r at.entry) }
{
    let (closure, at) = symbol_at(at, r.objects)?;
    let (false_, at) = symbol_at(at, r.objects)?;
    let (int, at) = symbol_at(at, r.objects)?;
    let (nil, at) = symbol_at(at, r.objects)?;
    let (string, at) = symbol_at(at, r.objects)?;
    let (true_, at) = symbol_at(at, r.objects)?;
    let own = Own {
        closure,
        false_,
        int,
        nil,
        string,
        true_,
    };
    Ok((own, at))
}

// All that follows the byte of the version.
#[tactic(auto, unfolding(vx_format::specs::Format::the_parts))]
fn parts_at<'a>(alloc: Global, at: At<'a>, version: Version) -> Result<(Image, At<'a>), LoadFault>
    ensures { Gives (λ x. x) result (the_parts version at.entry) }
{
    let (fields, at) = u32_at(at)?;
    let (objects, at) = u32_at(at)?;
    let (tests, at) = u32_at(at)?;
    let (tables, at) = u32_at(at)?;
    let (codes, at) = u32_at(at)?;
    let roster = Roster {
        fields,
        objects,
        tests,
        tables,
        codes,
    };
    let (own, at) = own_at(at, roster)?;
    let (main, at) = optional_at(at, tables)?;
    let context = Context {
        roster,
        version,
        main,
        names: 0,
    };
    let (shapes, at) = list_at(alloc, &context, objects, at)?;
    let (tests, at) = list_at(alloc, &context, tests, at)?;
    let (tables, at) = list_at(alloc, &context, tables, at)?;
    let (codes, at) = list_at(alloc, &context, codes, at)?;
    let image = Image {
        fields,
        own,
        main,
        shapes,
        tests,
        tables,
        codes,
    };
    Ok((image, at))
}

// The cursor behind the four bytes with which each image begins.
#[tactic(auto, unfolding(vx_format::specs::Format::a_magic))]
fn magic_at<'a>(at: At<'a>) -> Result<At<'a>, LoadFault>
    ensures { Gives (λ x. (tt, x)) result (a_magic at.entry) }
{
    let (front, at) = bytes_at(at, 4)?;
    if front == b"VXIC".as_slice() {
        Ok(at)
    } else {
        Err(LoadFault::BadMagic)
    }
}

// The version of which this is the byte.
fn version_of(byte: u8) -> Result<Version, LoadFault>
    ensures { (at : Cursor) → Gives (λ v. (v, at)) result (versioned byte at) }
{
    match byte {
        1 => Ok(Version::One),
        2 => Ok(Version::Two),
        _ => Err(LoadFault::Version(byte)),
    }
}

// An image and its version, whatever follows.
#[tactic(auto, unfolding(vx_format::specs::Format::an_image))]
fn image_at<'a>(alloc: Global, at: At<'a>) -> Result<((Version, Image), At<'a>), LoadFault>
    ensures { Gives (λ x. x) result (an_image at.entry) }
{
    let at = magic_at(at)?;
    let (byte, at) = u8_at(at)?;
    let version = version_of(byte)?;
    let (image, at) = parts_at(alloc, at, version)?;
    Ok(((version, image), at))
}

// The version and the image that all of the bytes mean.
#[tactic(auto, unfolding(vx_format::specs::Format::loaded))]
fn whole_at(alloc: Global, bytes: &[u8]) -> Result<(Version, Image), LoadFault>
    ensures { Gives (λ x. x) result (loaded bytes.now) }
{
    let (found, at) = image_at(alloc, At::new(bytes))?;
    if at.is_done() {
        Ok(found)
    } else {
        Err(LoadFault::Trailing(at.place()))
    }
}

/// The version and the image that all of the bytes mean.
pub fn read_image(alloc: Global, bytes: &[u8]) -> Result<(Version, Image), LoadFault>
    ensures gives { Gives (λ x. x) result (loaded bytes.now) }
    ensures fits { IfOk result (λ x. is_image x.0 x.1 ≡ true) }
{
    images_are_loaded();
    whole_at(alloc, bytes)
}
