//! The readers of tests, declarations and keys, token by token.
#![tactic(auto)]

mod decl_state;
mod decl_steps;
mod field_steps;
mod head;
mod key_state;
mod key_steps;
mod laws;
mod method_steps;
mod test_state;
mod test_steps;
mod words;

pub use decl_state::{DeclState, FieldState, Head, Message, MethodState, NamesState};
pub use decl_steps::{decl_begun, decl_finished, decl_may_end, decl_step};
pub use head::{OpenHead, WholeHead};
pub use key_state::{KeyMessage, KeyState};
pub use key_steps::{key_begun, key_finished, key_is_whole, key_step};
pub use laws::{
    decl_steps_follow_the_grammar, decls_can_be_finished, decls_end_before_others,
    key_steps_follow_the_grammar, test_steps_follow_the_grammar,
};
pub use test_state::{Pending, TestState};
pub use test_steps::{test_begun, test_finished, test_may_end, test_step};
