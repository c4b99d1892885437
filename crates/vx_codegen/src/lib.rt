//! Units as pieces: what stands in an image for an object and for a method's code, out of slots and trees.
#![tactic(auto)]

mod blocks;
mod instructions;
mod parts;
mod shapes;
mod unit;

pub use blocks::code;
pub use shapes::shape;
