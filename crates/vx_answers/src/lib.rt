//! What a program answers of each node and which nodes it reads for that, as definitions, their laws, and findings that keep them.
#![tactic(auto)]

mod finding;
mod laws;
mod limits;

pub use finding::Finding;
pub use laws::{
    answers_are_told, answers_stand, bases_are_answered, bindings_are_answered,
    clones_are_answered, codes_are_asked, facts_are_answered, fields_are_answered,
    inlined_texts_are_answered, names_above_are_answered, objects_below_are_answered,
    programs_never_mix, reads_determine_answers, shapes_are_answered, slots_are_answered,
};
pub use limits::MOST_NAMES;
