//! Which methods are put in place of their sends, out of what is asked.
#![tactic(auto, using(vx_node::proofs::Leaving::as_it_is))]

mod flat;
mod inlining;

pub use inlining::inlinable;
