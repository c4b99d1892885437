//! Nodes and their answers as text, for whoever wants to see what a program is compiled to and why.
#![tactic(auto)]

mod answers;
mod nodes;
mod units;

pub use answers::answer_text;
pub use nodes::{node_text, nodes_text, reads_text};
