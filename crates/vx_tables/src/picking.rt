//! The row of a table that a message takes.
ghost use Rattle.std.specs.Prelude.{◌≡◌, ℕ, ◌<◌, ◌≤◌, ◌&&◌, ◌==◌, true, false, List, length, bit_and, IfSome};
ghost use Rattle.std.specs.List.{list_all};
ghost use Rattle.vx_tables.specs.Masks.{has, is_below, picked};
ghost use Rattle.vx_tables.specs.Scans.{scanned};

use crate::picked::Picked;

/// Whether a mask has a row.
pub fn has(mask: u128, row: u32) -> bool
    requires { row < 128 }
    ensures { result ≡ has mask row }
{
    (mask >> row) % 2 == 1
}

// The mask of so many rows.
fn first_rows(count: usize) -> u128
    requires { count ≤ 128 }
    ensures below { (i : ℕ) → i < count → has result i ≡ true }
    ensures above { (i : ℕ) → count ≤ i → has result i ≡ false }
{
    if count == 128 {
        u128::MAX
    } else {
        (1u128 << (count as u32)) - 1
    }
}

// What all masks have.
fn in_all(masks: &[u128]) -> u128
    ensures { (i : ℕ) → i < 128 → has result i ≡ list_all (λ mask. has mask i) masks.now }
{
    let mut left = u128::MAX;
    for mask in masks {
        left &= *mask;
    }
    left
}

// Whether the row is left, and beats all that are.
fn is_best(left: u128, row: u32, beaten: u128) -> bool
    requires { row < 128 }
    ensures { result ≡ (has left row && (bit_and left beaten == left)) }
{
    has(left, row) & (left & beaten == left)
}

// The first row left that beats all that are left.
fn scan(beats: &[u128], left: u128) -> Picked
    requires { length beats.now ≤ 128 }
    ensures { result ≡ scanned beats.now left }
{
    for (i, beaten) in beats.iter().enumerate() {
        if is_best(left, i as u32, *beaten) {
            return Picked::Row(i as u8);
        }
    }
    Picked::Many
}

// The rows that count.
fn counted(beats: &[u128], below: Option<u8>) -> u128
    requires rows { length beats.now ≤ 128 }
    requires there { IfSome below (λ row. row < length beats.now) }
    ensures bits { (i : ℕ) → i < length beats.now → has result i ≡ is_below beats.now below i }
    ensures above { (i : ℕ) → length beats.now ≤ i → has result i ≡ false }
{
    let all = first_rows(beats.len());
    match below {
        None => all,
        Some(from) => all & beats[from as usize] & !(1u128 << (from as u32)),
    }
}

/// The first of the rows left that beats all that are left. The rows left are those of the mask, which has what all masks have in common; where the message is
/// sent on from a row, only those that this row beats, and not the row itself.
pub fn pick_left(beats: &[u128], left: u128, below: Option<u8>) -> Picked
    requires rows { length beats.now ≤ 128 }
    requires there { IfSome below (λ row. row < length beats.now) }
    ensures { (masks : List ℕ) → ((i : ℕ) → i < length beats.now → has left i ≡ list_all (λ mask. has mask i) masks) → result ≡ picked beats.now masks below }
{
    let left = counted(beats, below) & left;
    if left == 0 {
        return Picked::None;
    }
    scan(beats, left)
}

/// As `pick_left`, of the masks one by one.
pub fn pick(beats: &[u128], masks: &[u128], below: Option<u8>) -> Picked
    requires rows { length beats.now ≤ 128 }
    requires there { IfSome below (λ row. row < length beats.now) }
    ensures { result ≡ picked beats.now masks.now below }
{
    pick_left(beats, in_all(masks), below)
}
