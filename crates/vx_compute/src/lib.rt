//! Findings, out of the passes.
#![tactic(auto, using(vx_node::proofs::Leaving::as_it_is, vx_node::proofs::Leaving::once_through))]

mod computing;
mod made;
mod plain;
mod rows;
mod whole;

pub use computing::compute;
pub use made::Made;
pub use plain::{Above, Facts, PlainAsker, plain_asker};
pub use rows::answer;
pub use whole::compute_plain;
