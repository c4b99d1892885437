//! Images from their bytes.
//!
//! [`load`] tells whether bytes are an image, of either version, or the first fault in them from left to right. A [`Loaded`] image tells its parts by
//! their places. [`upgrade`] and [`narrow`] give the same image in the other version. [`link`], from the crate below, makes an image of units.
#![tactic(auto)]

mod codes;
mod conditions;
mod cursor;
mod fault;
mod image;
mod instructions;
mod kept;
mod loaded;
mod names;
mod part;
mod places;
mod readers;
mod shapes;
mod spell_image;
mod spell_parts;
mod spelling;
mod tables;
mod versions;
mod views;

pub use fault::LoadFault;
pub use loaded::{Loaded, load};
pub use names::names_are_names;
pub use spelling::{spell_i128, spell_u8, spell_u32, spell_u128};
pub use versions::{NarrowFault, narrow, upgrade};
pub use views::{BlockHead, Initial, Row};
pub use vx_link::{LinkFault, Roster, Units, link};
