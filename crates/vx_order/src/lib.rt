//! What is above a name and below it, and the bases of predicates, out of what is asked.
#![tactic(auto, using(vx_node::proofs::Leaving::as_it_is))]

mod bases;
mod cones;
mod upward;

pub use bases::base;
pub use cones::cone;
pub use upward::up;
