//! The sends of a body, by which it is told for which classes a method is cloned.
#![tactic(auto)]

mod collecting;

pub use collecting::{Sending, sends_of};
