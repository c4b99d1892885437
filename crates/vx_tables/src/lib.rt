//! Dispatch tables: which row a message takes.
//!
//! A mask is a number whose bit i, from the least, stands for row i of a table. Each argument has a mask of the rows that it may take; the rows that all
//! of them have are left, and the first of these that beats all that are left is taken (after compressed dispatch tables for multi-methods).
#![tactic(auto)]

mod laws;
mod picked;
mod picking;

pub use laws::masks_pick_what_lookup_finds;
pub use picked::Picked;
pub use picking::{has, pick, pick_left};
