//! Running an image.
#![tactic(auto)]

mod activations;
mod calls;
mod classes;
mod closures;
mod dispatch;
mod failing;
mod machine;
mod making;
mod masks;
mod objects;
mod opening;
mod primitives;
mod ready;
mod runs;
mod sends;
mod stepping;
mod truths;
mod word;

pub use activations::Activations;
pub use machine::Machine;
pub use masks::mask_of;
pub use primitives::{Answer, Joined};
pub use ready::Ready;
pub use runs::run;
pub use word::{Held, Kept, Led, Local, Object, Role, Step, Word};
