//! What a program says by itself of each fact, and of which facts two programs say different things.
#![tactic(auto)]

mod differing;
mod edits;
mod facts;
mod methods;
mod objects;
mod same;

pub use edits::touched;
pub use facts::fact;
