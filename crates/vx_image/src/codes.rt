//! Codes and their blocks.
ghost use Rattle.std.specs.Prelude.{◌≡◌, ℕ, ◌+◌, nat_le};
ghost use Rattle.vx_format.specs.Layout.{may_capture};
ghost use Rattle.vx_format.specs.Reading.{Cursor, valid};
ghost use Rattle.vx_image.specs.Gives.{Gives};

use crate::cursor::{At, u8_at, u32_at};
use crate::fault::LoadFault;
use crate::part::{Context, Part, list_at, until_at};
use sqlite_items::Items;
use std::alloc::Global;
use vx_format::Block;

// The first block of a code is told from the others by its number.
impl Part for Block {
    ghost use Rattle.vx_format.specs.Format.{a_block};

    ghost read = { λ c i. a_block c.roster i };

    #[tactic(auto, unfolding(vx_format::specs::Format::a_block))]
    fn read_part<'a>(
        alloc: Global,
        context: &Context,
        number: u32,
        at: At<'a>,
    ) -> Result<(Block, At<'a>), LoadFault> {
        let (locals, at) = u32_at(at)?;
        let (captures, at) = captures_at(at, number)?;
        let (formals, at) = formals_at(at, captures, locals)?;
        let (count, at) = u32_at(at)?;
        let (code, at) = until_at(alloc, context, count, at)?;
        Ok((
            Block {
                locals,
                captures,
                formals,
                code,
            },
            at,
        ))
    }
}

// How many captures the block with the number has. The first has none.
fn captures_at<'a>(at: At<'a>, number: u32) -> Result<(u32, At<'a>), LoadFault>
    ensures { Gives (λ x. x) result (valid 4 (may_capture number) at.entry) }
{
    let place = at.place();
    let (captures, at) = u32_at(at)?;
    if number == 0 && captures != 0 {
        return Err(LoadFault::BadIndex(place));
    }
    Ok((captures, at))
}

// How many formals a block has that has so many captures and locals.
fn formals_at<'a>(at: At<'a>, captures: u32, locals: u32) -> Result<(u8, At<'a>), LoadFault>
    ensures { Gives (λ x. x) result (valid 1 (λ n. nat_le (captures + n) locals) at.entry) }
{
    let place = at.place();
    let (formals, at) = u8_at(at)?;
    if captures as u64 + formals as u64 <= locals as u64 {
        Ok((formals, at))
    } else {
        Err(LoadFault::BadIndex(place))
    }
}

// How many blocks a code has.
fn blocks_at<'a>(at: At<'a>) -> Result<(u32, At<'a>), LoadFault>
    ensures { Gives (λ x. x) result (valid 4 (λ n. nat_le 1 n) at.entry) }
{
    let place = at.place();
    let (count, at) = u32_at(at)?;
    if 1 <= count {
        Ok((count, at))
    } else {
        Err(LoadFault::BadIndex(place))
    }
}

impl Part for Items<Block> {
    ghost use Rattle.vx_format.specs.Format.{a_code};

    ghost read = { λ c i. a_code c.roster };

    #[tactic(auto, unfolding(vx_format::specs::Format::a_code))]
    fn read_part<'a>(
        alloc: Global,
        context: &Context,
        _number: u32,
        at: At<'a>,
    ) -> Result<(Items<Block>, At<'a>), LoadFault> {
        let (count, at) = blocks_at(at)?;
        list_at(alloc, context, count, at)
    }
}
