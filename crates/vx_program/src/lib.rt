//! Programs as lists of declarations, and edits of them.
#![tactic(auto)]

mod changes;
mod counts;
mod edit;
mod faults;
mod key;
mod limits;
mod lookup;
mod methods;
mod occupied;
mod prelude;
mod program;
mod reserved;
mod scope;
mod search;
mod walk;
mod words;
mod writability;
mod written;

pub use changes::refusals_are_faults;
pub use edit::{Change, Counted, Edit, EditFault};
pub use limits::{MAX_DECLARATIONS, MAX_DEPTH, MAX_LOCALS, MAX_METHODS};
pub use lookup::{is_named, is_sealed, is_spelled, parents_of};
pub use program::Program;
pub use reserved::Reserved;
pub use walk::chains_are_found;
pub use writability::{writable, writable_edits_are_read};
