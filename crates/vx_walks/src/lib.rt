//! What several passes do over a tracer: learning a node's answer, and the walk over parents or children.
#![tactic(auto, using(vx_node::proofs::Leaving::as_it_is))]

mod going;
mod learning;
mod names;
mod ways;

pub use going::walk;
pub use learning::learn_node;
pub use names::{is_one, meet, put_name};
pub use ways::Way;
