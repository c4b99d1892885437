//! Parts of which an image has lists: one loop for lists with a number before them, one for lists that end at a place.
ghost use Rattle.std.specs.Prelude.{◌≡◌, ℕ, ◌<◌, ◌≤◌, ◌+◌, ◌^◌, ◌-◌};
ghost use Rattle.vx_format.specs.Reading.{Cursor, listed, until};
ghost use Rattle.vx_image.specs.Gives.{Gives};

use crate::cursor::At;
use crate::fault::LoadFault;
use sqlite_items::Items;
use std::alloc::Global;
use vx_format::{Roster, Version};

/// What the reading of parts depends on.
#[derive(Clone, Copy)]
pub struct Context {
    /// The numbers of the head.
    pub roster: Roster,
    /// The version of the image.
    pub version: Version,
    /// The table with which a run begins, which takes no arguments.
    pub main: Option<u32>,
    /// Inside a test how many names are tested; inside a list of masks how many classes or tests there are.
    pub names: u32,
}

/// What stands in a list that has the number of its parts before it.
pub trait Part: Drop {
    ghost use Rattle.std.specs.Prelude.{ℕ};
    ghost use Rattle.vx_format.specs.Reading.{Reading};
    ghost use Rattle.vx_image.specs.declared.part.Context.{Context};

    /// The reading of a part by what it depends on and its number in the list.
    ghost read: { Context → ℕ → Reading Self };

    /// Reads the part with the number in its list.
    fn read_part<'a>(
        alloc: Global,
        context: &Context,
        number: u32,
        at: At<'a>,
    ) -> Result<(Self, At<'a>), LoadFault>
        ensures { Gives (λ x. x) result (read context.now number at.entry) };
}

/// Reads so many parts.
pub fn list_at<'a, P: Part>(
    alloc: Global,
    context: &Context,
    count: u32,
    at: At<'a>,
) -> Result<(Items<P>, At<'a>), LoadFault>
    ensures { Gives (λ x. x) result (listed count 0 (P.read context.now) at.entry) }
{
    let mut parts = Items::new(alloc);
    let mut at = at;
    for i in 0..count {
        let (part, after) = P::read_part(alloc, context, i, at)?;
        parts.push(part)?;
        at = after;
    }
    Ok((parts, at))
}

/// What stands in a list that ends at a place in the bytes. Each is told the depth that those before it made.
pub trait Piece: Drop {
    ghost use Rattle.std.specs.Prelude.{ℕ, ◌≡◌, ◌<◌, ◌≤◌, ◌+◌, ◌^◌, ◌-◌};
    ghost use Rattle.vx_format.specs.Reading.{Reading};
    ghost use Rattle.vx_image.specs.declared.part.Context.{Context};

    /// The reading of a piece by what it depends on, the end of the list and the depth.
    ghost read: { Context → ℕ → ℕ → Reading Self };

    /// The depth behind a piece, by that before it.
    ghost grown: { ℕ → Self → ℕ };

    /// Reads the piece at the front.
    fn read_piece<'a>(
        alloc: Global,
        context: &Context,
        end: u128,
        depth: u64,
        at: At<'a>,
    ) -> Result<(Self, At<'a>), LoadFault>
        ensures { Gives (λ x. x) result (read context.now end depth at.entry) };

    /// The depth behind the piece.
    fn grow(&self, depth: u64) -> u64
        requires { depth < 2 ^ 64 - 1 }
        ensures grown { result ≡ grown depth self.now }
        ensures bound { result ≤ depth + 1 };
}

/// Reads pieces until so many bytes are taken.
pub fn until_at<'a, P: Piece>(
    alloc: Global,
    context: &Context,
    count: u32,
    at: At<'a>,
) -> Result<(Items<P>, At<'a>), LoadFault>
    ensures { Gives (λ x. x) result (until count (at.entry.place + count) (P.read context.now (at.entry.place + count)) P.grown 0 at.entry) }
{
    let end = at.place() as u128 + count as u128;
    let mut pieces = Items::new(alloc);
    let mut depth = 0u64;
    let mut at = at;
    for _ in 0..count {
        if at.place() as u128 == end {
            return Ok((pieces, at));
        }
        let (piece, after) = P::read_piece(alloc, context, end, depth, at)?;
        depth = piece.grow(depth);
        pieces.push(piece)?;
        at = after;
    }
    Ok((pieces, at))
}
