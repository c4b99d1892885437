ghost use Rattle.std.specs.Prelude.{◌≡◌, ◌≤◌, ◌++◌, length, insert, OnOk};
ghost use Rattle.vx_program.specs.Program.{is_name_of};
ghost use Rattle.vx_answers.specs.OrderRows.{fresh, with_name};

use sqlite_items::Items;
use std::alloc::{AllocError, Global};
use std::cmp::Ordering;
use vx_names::Name;

/// Whether the name is one of these.
pub fn is_one(names: &[Name], x: &[u8]) -> bool
    ensures { result ≡ is_name_of names.now x.now }
{
    for name in names {
        if name.bytes() == x {
            return true;
        }
    }
    false
}

/// Puts those of the names that are not met yet behind those that are.
pub fn meet(alloc: Global, met: &mut Items<Name>, names: &[Name]) -> Result<(), AllocError>
    ensures { OnOk result (met.new ≡ met.old ++ fresh met.old names.now) }
{
    for name in names {
        if !is_one(met.as_slice(), name.bytes()) {
            met.push(name.copy(alloc)?)?;
        }
    }
    Ok(())
}

/// Puts a name in its place among names in byte order.
pub fn put_name(names: &mut Vec<Name>, x: Name) -> Result<(), AllocError>
    ensures { OnOk result (names.new.items ≡ with_name x names.old.items) }
{
    let place = place_for(names.as_slice(), &x);
    names.insert(place, x)?;
    Ok(())
}

fn place_for(names: &[Name], x: &Name) -> usize
    ensures within { result ≤ length names.now }
    ensures place { with_name x.now names.now ≡ insert names.now result x.now }
{
    for (place, name) in names.iter().enumerate() {
        if x.cmp(name) == Ordering::Less {
            return place;
        }
    }
    names.len()
}
