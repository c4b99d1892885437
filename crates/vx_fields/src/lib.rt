//! The slots of objects with the units that they make, and the fields that names mean for classes, out of what is asked.
#![tactic(auto, using(vx_node::proofs::Leaving::as_it_is))]

mod joining;
mod meaning;
mod ordering;
mod shapes;
mod spreading;
mod telling;

pub use meaning::field_at;
pub use shapes::shape;
pub use spreading::slots;
