//! Images put together from units.
//!
//! A unit is bytes with names in them; a [`Roster`] lists what an image has. [`link`] writes the units one behind another, each name as its place in
//! its list, behind a head that tells how long the lists are.
#![tactic(auto)]

mod fault;
mod laws;
mod linking;
mod measure;
mod numbers;
mod places;
mod roster;
mod units;

pub use fault::LinkFault;
pub use laws::spelled_units_are_linked;
pub use linking::link;
pub use roster::Roster;
pub use units::Units;
