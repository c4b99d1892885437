//! Shapes of objects: their slots and what these hold at first.
ghost use Rattle.std.specs.Prelude.{◌≡◌, ℕ};
ghost use Rattle.vx_format.specs.Numbers.{number_of};
ghost use Rattle.vx_format.specs.Reading.{Cursor, listed};
ghost use Rattle.vx_format.specs.Format.{a_long, an_integer, an_initial, a_slot, a_shape};
ghost use Rattle.vx_image.specs.Gives.{Gives};

use crate::cursor::{At, bytes_at, number_at, symbol_at, u8_at, u32_at};
use crate::fault::LoadFault;
use crate::part::{Context, Part, list_at};
use sqlite_items::Items;
use std::alloc::Global;
use vx_format::{Initial, Roster, Slot};

/// Bytes behind their number, which has four bytes.
pub fn long_at<'a>(alloc: Global, at: At<'a>) -> Result<(Items<u8>, At<'a>), LoadFault>
    ensures { Gives (λ x. x) result (a_long 4 at.entry) }
{
    let (count, at) = u32_at(at)?;
    let (front, at) = bytes_at(at, count as usize)?;
    Ok((Items::from_slice(alloc, front)?, at))
}

/// A whole number of 16 bytes, the first bit for the sign.
#[tactic(auto, unfolding(vx_format::specs::Format::an_integer))]
pub fn integer_at<'a>(at: At<'a>) -> Result<(i128, At<'a>), LoadFault>
    ensures { Gives (λ x. x) result (an_integer at.entry) }
{
    let (n, at) = number_at(at, 16)?;
    Ok((n.cast_signed(), at))
}

// What a slot holds at first.
#[tactic(auto, unfolding(vx_format::specs::Format::an_initial))]
fn initial_at<'a>(alloc: Global, at: At<'a>) -> Result<(Initial, At<'a>), LoadFault>
    ensures { Gives (λ x. x) result (an_initial at.entry) }
{
    let place = at.place();
    let (tag, at) = u8_at(at)?;
    match tag {
        0 => Ok((Initial::Nil, at)),
        1 => Ok((Initial::False, at)),
        2 => Ok((Initial::True, at)),
        3 => {
            let (n, at) = integer_at(at)?;
            Ok((Initial::Int(n), at))
        }
        4 => {
            let (text, at) = long_at(alloc, at)?;
            Ok((Initial::Text(text), at))
        }
        _ => Err(LoadFault::BadIndex(place)),
    }
}

// A field, and what its slot holds at first.
#[tactic(auto, unfolding(vx_format::specs::Format::a_slot))]
fn slot_at<'a>(alloc: Global, at: At<'a>, r: Roster) -> Result<(Slot, At<'a>), LoadFault>
    ensures { Gives (λ x. x) result (a_slot r at.entry) }
{
    let (field, at) = symbol_at(at, r.fields)?;
    let (start, at) = initial_at(alloc, at)?;
    Ok((Slot { field, start }, at))
}

impl Part for Slot {
    ghost use Rattle.vx_format.specs.Format.{a_slot};

    ghost read = { λ c i. a_slot c.roster };

    fn read_part<'a>(
        alloc: Global,
        context: &Context,
        _number: u32,
        at: At<'a>,
    ) -> Result<(Slot, At<'a>), LoadFault> {
        slot_at(alloc, at, context.roster)
    }
}

/// The slots of an object, behind their number.
#[tactic(auto, unfolding(vx_format::specs::Format::a_shape))]
pub fn shape_at<'a>(
    alloc: Global,
    at: At<'a>,
    context: &Context,
) -> Result<(Items<Slot>, At<'a>), LoadFault>
    ensures { Gives (λ x. x) result (a_shape context.now.roster at.entry) }
{
    let (count, at) = u32_at(at)?;
    list_at(alloc, context, count, at)
}
