//! The syntax of declarations, as plain data.
#![tactic(auto)]

mod count;
mod decl;
mod expr;
mod key;
mod laws;
mod print;
mod test;
mod token;

pub use count::{height, locals, size};
pub use decl::{Decl, Start, copy_formals};
pub use expr::{Body, Expr, MAX_ARGUMENTS, MAX_CLOSURE_FORMALS, Stmt, is_among};
pub use key::{key_text, method_key, selector_text};
pub use laws::{
    canonical_tokens_are_shallow, what_is_read_can_be_written, written_declarations_are_read,
    written_keys_are_read,
};
pub use print::print_decl;
pub use test::{Compare, Test, is_joining};
pub use token::{Keyword, Mark, TEXT_BYTES, Token, is_printable};
