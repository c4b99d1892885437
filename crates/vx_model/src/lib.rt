//! What programs mean: values and the heap, the order of objects, when a value counts as an object, which method a message
//! finds, what makes a method, and what the primitive methods do.
#![tactic(auto)]

mod above;
mod field;
mod kinds;
mod laws;
mod look;
mod marks;
mod objects;
mod primitives;
mod report;
mod runs;
mod value;

pub use above::{Above, is_above};
pub use field::{field_at, is_same_field, slot_of, slots};
pub use kinds::kind;
pub use laws::{
    above_is_an_order, bases_are_found, choices_are_best, cones_mirror_ups, fields_are_lowest,
    holding_is_found, slots_cover_holding, specificity_is_strict,
};
pub use look::Look;
pub use objects::{fresh, is_made, is_meant, nil, object, opening, truth};
pub use primitives::{
    Deed, NoNumber, STRING_BYTES, difference, perform, product, quotient, rest, sum,
};
pub use report::{Report, RunError, copy_lines};
pub use runs::{meanings_are_never_stuck, meanings_go_on};
pub use value::{Heap, Held, Local, Thing, Value, copy_values};
