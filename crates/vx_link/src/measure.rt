//! How long an image becomes.
ghost use Rattle.std.specs.Prelude.{◌≡◌, ◌+◌, ◌≤◌, min};
ghost use Rattle.vx_link.specs.Roster.{IsRoster};
ghost use Rattle.vx_link.specs.Link.{limit};
ghost use Rattle.vx_link.specs.Walks.{MeasuresAs, piece_size, unit_size};

use crate::fault::LinkFault;
use crate::roster::{Roster, count};
use crate::units::{Units, unit_at};
use std::alloc::Global;
use vx_node::Piece;

// How many bytes stand before the units.
const HEAD_BYTES: u64 = 53;

// An image has fewer bytes.
const LIMIT: u64 = 1 << 32;

/// How many bytes the image has.
pub fn measure<U: Units>(alloc: Global, roster: &Roster, units: &U) -> Result<usize, LinkFault>
    requires { IsRoster roster.now }
    ensures { MeasuresAs result roster.now (U.unit_of units.now) }
{
    let mut size = HEAD_BYTES;
    for place in 0..count(roster) {
        let unit = unit_at(alloc, roster, units, place)?;
        size = with_unit(size, unit);
        if size >= LIMIT {
            return Err(LinkFault::TooLong(place as u64));
        }
    }
    Ok(size as usize)
}

// How many bytes there are with those of the pieces. What reaches the limit is as much as the limit.
fn with_unit(before: u64, unit: &[Piece]) -> u64
    requires { before ≤ limit }
    ensures { result ≡ min (before + unit_size unit.now) limit }
{
    let mut size = before;
    for piece in unit {
        size = with_piece(size, piece);
    }
    size
}

fn with_piece(before: u64, piece: &Piece) -> u64
    requires { before ≤ limit }
    ensures { result ≡ min (before + piece_size piece.now) limit }
{
    let more = match piece {
        Piece::Bytes(bytes) => bytes.len() as u64,
        Piece::Symbol(_) => 4,
    };
    before.saturating_add(more).min(LIMIT)
}
