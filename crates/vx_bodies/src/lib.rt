//! The machine that reads the bodies of methods and of closures, token by token.
#![tactic(auto)]

mod after;
mod arguments;
mod closure;
mod constructor;
mod declared;
mod fields;
mod laws;
mod machine;
mod operand;
mod operators;
mod scope;
mod stack;
mod state;
mod statement;

pub use arguments::Arguments;
pub use declared::Declared;
pub use fields::Fields;
pub use laws::{
    bodies_begin, names_come_singly, numbers_are_alike, states_can_be_finished,
    steps_follow_the_grammar,
};
pub use machine::{begin, step};
pub use stack::Stack;
pub use state::{Block, Bracket, Kind, Left, Level, Next, Part, Pending, State, Within};
