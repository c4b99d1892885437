//! Units as definitions: what stands in an image for an object, a predicate's test, a message's table and a method's code.
#![tactic(auto)]

mod samples;

pub use samples::units_are_spelled;
