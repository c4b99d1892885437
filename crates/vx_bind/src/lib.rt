//! Which method a message is bound to before the program runs, out of what is asked.
#![tactic(auto, using(vx_node::proofs::Leaving::as_it_is))]

mod binding;
mod deciding;
mod order;
mod telling;
mod wanted;

pub use binding::bind;
