//! Compiled code as plain data and as definitions: trees of methods, their code and the machine that runs it, and what holds of them.
#![tactic(auto)]

mod compiled;
mod tree;

pub use compiled::{
    binding_is_sound, compiled_code_means_the_program, trees_are_read, trees_mean_the_program,
};
pub use tree::{Act, Part, Tree, TreeBlock};
