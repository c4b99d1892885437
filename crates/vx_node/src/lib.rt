//! Nodes: what can be asked of a program, what is answered, and who asks and answers.
#![tactic(auto)]

mod answer;
mod asker;
mod gate;
mod kind;
mod node;
mod ranks;
mod trace;
mod tracer;
mod unit;

pub use answer::{Answer, Bound, Known, Stands};
pub use asker::{Asked, Asker, Halt};
pub use gate::{CountGate, Gate};
pub use kind::Kind;
pub use node::{Fact, Filter, Info, Infos, NodeId, Target, Variant, copy_infos};
pub use ranks::rank;
pub use trace::{Step, Trace};
pub use tracer::Tracer;
pub use unit::{Piece, Symbol, copy_pieces};
