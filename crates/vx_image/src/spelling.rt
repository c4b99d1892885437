//! The bytes of an image, appended part by part.
ghost use Rattle.std.specs.Prelude.{◌≡◌, ◌++◌, ℕ, OnOk};
ghost use Rattle.vx_format.specs.Numbers.{each, integer, number};
ghost use Rattle.vx_format.specs.Layout.{list, long, optional};

use sqlite_items::Items;
use std::alloc::{AllocError, Global};
use vx_format::Version;

/// What has bytes in an image.
pub trait Spell: Drop {
    ghost use Rattle.std.specs.Prelude.{ℕ, List, ◌≡◌, ◌++◌, OnOk};
    ghost use Rattle.vx_format.specs.declared.image.Version.{Version};

    /// The bytes in a version.
    ghost spelling: { Version → Self → List ℕ };

    /// Appends the bytes in the version.
    fn spell(&self, alloc: Global, version: Version, out: &mut Vec<u8>) -> Result<(), AllocError>
        ensures { OnOk result (out.new.items ≡ out.old.items ++ spelling version self.now) };
}

/// Appends the bytes of each.
pub fn spell_all<T: Spell>(
    alloc: Global,
    version: Version,
    items: &[T],
    out: &mut Vec<u8>,
) -> Result<(), AllocError>
    ensures { OnOk result (out.new.items ≡ out.old.items ++ each (T.spelling version) items.now) }
{
    for item in items {
        item.spell(alloc, version, out)?;
    }
    Ok(())
}

// A number of 1 byte, the greatest first.
fn bytes_of_u8(n: u8) -> [u8; 1]
    ensures { result ≡ number 1 n }
{
    n.to_be_bytes()
}

/// Appends a number of one byte.
pub fn spell_u8(n: u8, out: &mut Vec<u8>) -> Result<(), AllocError>
    ensures { OnOk result (out.new.items ≡ out.old.items ++ number 1 n) }
{
    out.extend_from_slice(&bytes_of_u8(n))
}

// A number of 4 bytes, the greatest first.
fn bytes_of_u32(n: u32) -> [u8; 4]
    ensures { result ≡ number 4 n }
{
    n.to_be_bytes()
}

/// Appends a number of four bytes.
pub fn spell_u32(n: u32, out: &mut Vec<u8>) -> Result<(), AllocError>
    ensures { OnOk result (out.new.items ≡ out.old.items ++ number 4 n) }
{
    out.extend_from_slice(&bytes_of_u32(n))
}

// A number of 8 bytes, the greatest first.
fn bytes_of_u64(n: u64) -> [u8; 8]
    ensures { result ≡ number 8 n }
{
    n.to_be_bytes()
}

/// Appends a number of eight bytes.
pub fn spell_u64(n: u64, out: &mut Vec<u8>) -> Result<(), AllocError>
    ensures { OnOk result (out.new.items ≡ out.old.items ++ number 8 n) }
{
    out.extend_from_slice(&bytes_of_u64(n))
}

// A number of 16 bytes, the greatest first.
fn bytes_of_u128(n: u128) -> [u8; 16]
    ensures { result ≡ number 16 n }
{
    n.to_be_bytes()
}

/// Appends a number of sixteen bytes.
pub fn spell_u128(n: u128, out: &mut Vec<u8>) -> Result<(), AllocError>
    ensures { OnOk result (out.new.items ≡ out.old.items ++ number 16 n) }
{
    out.extend_from_slice(&bytes_of_u128(n))
}

/// Appends a whole number of sixteen bytes.
pub fn spell_i128(z: &i128, out: &mut Vec<u8>) -> Result<(), AllocError>
    ensures { OnOk result (out.new.items ≡ out.old.items ++ integer z.now) }
{
    spell_u128(z.cast_unsigned(), out)
}

/// Appends a count of four bytes. A loaded image has no list that is longer.
pub fn spell_count(count: usize, out: &mut Vec<u8>) -> Result<(), AllocError>
    ensures { OnOk result (out.new.items ≡ out.old.items ++ number 4 count) }
{
    if count > u32::MAX as usize {
        return Err(AllocError);
    }
    spell_u32(count as u32, out)
}

/// Appends a count of one byte. A loaded image has no list of this kind that is longer.
pub fn spell_small_count(count: usize, out: &mut Vec<u8>) -> Result<(), AllocError>
    ensures { OnOk result (out.new.items ≡ out.old.items ++ number 1 count) }
{
    if count > u8::MAX as usize {
        return Err(AllocError);
    }
    spell_u8(count as u8, out)
}

/// Appends bytes behind their number, which has four bytes.
pub fn spell_text(bytes: &[u8], out: &mut Vec<u8>) -> Result<(), AllocError>
    ensures { OnOk result (out.new.items ≡ out.old.items ++ long 4 bytes.now) }
{
    spell_count(bytes.len(), out)?;
    out.extend_from_slice(bytes)
}

/// Appends bytes behind their number, which has one byte.
pub fn spell_name(bytes: &[u8], out: &mut Vec<u8>) -> Result<(), AllocError>
    ensures { OnOk result (out.new.items ≡ out.old.items ++ long 1 bytes.now) }
{
    spell_small_count(bytes.len(), out)?;
    out.extend_from_slice(bytes)
}

/// Appends a list behind the number of its parts, which has four bytes.
pub fn spell_list<T: Spell>(
    alloc: Global,
    version: Version,
    items: &[T],
    out: &mut Vec<u8>,
) -> Result<(), AllocError>
    ensures { OnOk result (out.new.items ≡ out.old.items ++ list 4 (T.spelling version) items.now) }
{
    spell_count(items.len(), out)?;
    spell_all(alloc, version, items, out)
}

/// Appends a list behind the number of its bytes, which has four bytes.
pub fn spell_sized<T: Spell>(
    alloc: Global,
    version: Version,
    items: &[T],
    out: &mut Vec<u8>,
) -> Result<(), AllocError>
    ensures { OnOk result (out.new.items ≡ out.old.items ++ long 4 (each (T.spelling version) items.now)) }
{
    let mut bytes = Vec::new(alloc);
    spell_all(alloc, version, items, &mut bytes)?;
    spell_text(bytes.as_slice(), out)
}

impl Spell for u32 {
    ghost use Rattle.vx_format.specs.Numbers.{number};

    ghost spelling = { λ v. number 4 };

    fn spell(
        &self,
        _alloc: Global,
        _version: Version,
        out: &mut Vec<u8>,
    ) -> Result<(), AllocError> {
        spell_u32(*self, out)
    }
}

// None is ffffffff.
impl Spell for Option<u32> {
    ghost use Rattle.vx_format.specs.Layout.{optional};

    ghost spelling = { λ v. optional };

    fn spell(
        &self,
        _alloc: Global,
        _version: Version,
        out: &mut Vec<u8>,
    ) -> Result<(), AllocError> {
        match self {
            None => spell_u32(u32::MAX, out),
            Some(x) => spell_u32(*x, out),
        }
    }
}
