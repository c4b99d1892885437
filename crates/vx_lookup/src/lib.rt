//! When values count as objects, and which method a message finds.
#![tactic(auto)]

mod hold;
mod method;

pub use hold::{class_of, holds};
pub use method::lookup;
pub use vx_model::Look;
