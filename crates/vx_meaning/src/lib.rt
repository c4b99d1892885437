//! What programs mean, computed: the evaluation of their text, with an allowance of calls.
#![tactic(auto)]

mod acts;
mod evaluate;
mod fields;
mod frames;
mod memory;
mod objects;
mod runs;
mod scope;
mod steps;

pub use runs::mean;
