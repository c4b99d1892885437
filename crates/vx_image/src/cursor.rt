//! Bytes, numbers and symbols from the front of what is left. Each function takes a cursor and gives the one behind what it read.
ghost use Rattle.std.specs.Prelude.{◌≡◌, ℕ, ◌+◌, ◌-◌, ◌*◌, ◌<◌, ◌≤◌, ◌^◌, length, IfOk, nat_eq, nat_lt};
ghost use Rattle.vx_format.specs.Numbers.{number_of};
ghost use Rattle.vx_format.specs.Reading.{Cursor, bytes, a_number, below};
ghost use Rattle.vx_format.specs.Format.{a_symbol, an_optional};
ghost use Rattle.vx_image.specs.Gives.{Gives, IsFixed};

use crate::fault::LoadFault;
use std::marker::Model;

/// A place in the bytes of an image, counted from 0, and the bytes from there on. Contracts see it as a cursor of the format.
#[derive(Drop)]
pub struct At<'a> {
    total: usize,
    left: &'a [u8],
}

impl<'a> Model for At<'a> {
    ghost use Rattle.std.specs.Prelude.{◌≤◌, ◌<◌, ◌^◌, ◌-◌, length};
    ghost use Rattle.vx_format.specs.Reading.{Cursor};

    ghost Value = { Cursor };

    ghost view = { λ a. record { place = a.total - length a.left.now; left = a.left.now } };

    ghost invariant = { λ a. (length a.left.now ≤ a.total) × (a.total < 2 ^ 63) };
}

impl<'a> At<'a> {
    /// The beginning of the bytes.
    pub fn new(bytes: &'a [u8]) -> At<'a>
        ensures { result ≡ record { place = 0; left = bytes.now } }
    {
        At {
            total: bytes.len(),
            left: bytes,
        }
    }

    /// The place, in bytes from 0.
    pub fn place(&self) -> u64
        ensures place { result ≡ self.now.place }
        ensures small { result < 2 ^ 63 }
    {
        (self.total - self.left.len()) as u64
    }

    /// Whether fewer bytes are left.
    pub fn lacks(&self, count: u64) -> bool
        ensures { result ≡ nat_lt (length self.now.left) count }
    {
        (self.left.len() as u64) < count
    }

    /// How many bytes there are in all.
    pub fn total(&self) -> u64
        ensures { result ≡ self.now.place + length self.now.left }
    {
        self.total as u64
    }

    /// Whether nothing is left.
    pub fn is_done(&self) -> bool
        ensures { result ≡ nat_eq (length self.now.left) 0 }
    {
        self.left.is_empty()
    }
}

/// So many bytes.
pub fn bytes_at<'a>(at: At<'a>, count: usize) -> Result<(&'a [u8], At<'a>), LoadFault>
    ensures { Gives (λ x. (x.0.now, x.1)) result (bytes count at.entry) }
{
    let At { total, left } = at;
    if left.len() < count {
        return Err(LoadFault::Short(total as u64));
    }
    let (front, left) = left.split_at(count);
    Ok((front, At { total, left }))
}

// The number that bytes stand for, the greatest part first.
fn value_of(bytes: &[u8]) -> u128
    requires { length bytes.now ≤ 16 }
    ensures value { result ≡ number_of bytes.now }
    ensures below { result < 256 ^ length bytes.now }
{
    let mut n = 0u128;
    for b in bytes {
        n = n * 256 + *b as u128;
    }
    n
}

/// A number of so many bytes.
pub fn number_at<'a>(at: At<'a>, width: usize) -> Result<(u128, At<'a>), LoadFault>
    requires { width ≤ 16 }
    ensures gives { Gives (λ x. x) result (a_number width at.entry) }
    ensures below { IfOk result (λ x. x.0 < 256 ^ width) }
{
    let (front, at) = bytes_at(at, width)?;
    Ok((value_of(front), at))
}

/// A byte.
pub fn u8_at<'a>(at: At<'a>) -> Result<(u8, At<'a>), LoadFault>
    ensures { Gives (λ x. x) result (a_number 1 at.entry) }
{
    let (n, at) = number_at(at, 1)?;
    Ok((n as u8, at))
}

/// A number of four bytes.
pub fn u32_at<'a>(at: At<'a>) -> Result<(u32, At<'a>), LoadFault>
    ensures { Gives (λ x. x) result (a_number 4 at.entry) }
{
    let (n, at) = number_at(at, 4)?;
    Ok((n as u32, at))
}

/// A byte below a bound.
pub fn small_at<'a>(at: At<'a>, bound: u8) -> Result<(u8, At<'a>), LoadFault>
    ensures { Gives (λ x. x) result (below 1 bound at.entry) }
{
    let place = at.place();
    let (n, at) = u8_at(at)?;
    if n < bound {
        Ok((n, at))
    } else {
        Err(LoadFault::BadIndex(place))
    }
}

/// A symbol, of which there are so many.
pub fn symbol_at<'a>(at: At<'a>, bound: u32) -> Result<(u32, At<'a>), LoadFault>
    ensures { Gives (λ x. x) result (a_symbol bound at.entry) }
{
    let place = at.place();
    let (symbol, at) = u32_at(at)?;
    if symbol < bound {
        Ok((symbol, at))
    } else {
        Err(LoadFault::BadIndex(place))
    }
}

/// A symbol, of which there are so many, or none.
#[tactic(auto, unfolding(vx_format::specs::Format::an_optional))]
pub fn optional_at<'a>(at: At<'a>, bound: u32) -> Result<(Option<u32>, At<'a>), LoadFault>
    ensures { Gives (λ x. x) result (an_optional bound at.entry) }
{
    let place = at.place();
    let (n, at) = u32_at(at)?;
    if n == u32::MAX {
        return Ok((None, at));
    }
    if n < bound {
        Ok((Some(n), at))
    } else {
        Err(LoadFault::BadIndex(place))
    }
}

/// Whether what begins at the place and has so many bytes ends within the end, and whether the bytes behind its tag are there. Sums are made in 128
/// bits, where none is too large.
pub fn fixed_at(at: &At<'_>, end: u128, place: u64, size: u64) -> Result<(), LoadFault>
    requires { 0 < size }
    ensures { IsFixed result end place size at.now }
{
    if place as u128 + size as u128 > end {
        return Err(LoadFault::BadIndex(place));
    }
    if at.lacks(size - 1) {
        return Err(LoadFault::Short(at.total()));
    }
    Ok(())
}
