//! The mask of a class.
ghost use Rattle.std.specs.Prelude.{◌≡◌, ℕ, ◌<◌, true};
ghost use Rattle.vx_places.specs.Dispatch.{class_mask};
ghost use Rattle.vx_machine.specs.Rising.{Rises};

use vx_format::ClassMask;

/// The mask of the class, or the default, where classes rise: a search by halves.
#[inline(always)]
pub fn mask_of(default: u128, class: u32, entries: &[ClassMask]) -> u128
    requires { Rises entries.now }
    ensures { result ≡ class_mask default class entries.now }
{
    let mut low = 0usize;
    let mut high = entries.len();
    while low < high {
        let middle = low + (high - low) / 2;
        let symbol = entries[middle].symbol;
        if symbol == class {
            return entries[middle].mask;
        }
        if symbol < class {
            low = middle + 1;
        } else {
            high = middle;
        }
    }
    default
}

/// The mask of the class, or the default: a search from the front.
#[inline(never)]
pub fn first_mask(default: u128, class: u32, entries: &[ClassMask]) -> u128
    ensures { result ≡ class_mask default class entries.now }
{
    for entry in entries {
        if entry.symbol == class {
            return entry.mask;
        }
    }
    default
}
