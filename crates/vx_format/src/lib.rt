//! What an image has, and the bytes that stand for it.
//!
//! The definitions of the format stand in `specs`: what bytes an image has and which images have bytes (`Layout`), and what bytes mean or the first
//! fault in them (`Format`). That the two agree is the law of [`images_are_loaded`].
#![tactic(auto)]

mod fault;
mod image;
mod laws;

pub use fault::FormatFault;
pub use image::{
    Block, ClassMask, ClassTest, Does, Image, Initial, Instr, Own, Position, Roster, Row, Slot,
    Split, Step, Table, Test, Version,
};
pub use laws::images_are_loaded;
