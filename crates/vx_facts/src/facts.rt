//! The facts of a program.
ghost use Rattle.std.specs.Prelude.{◌≡◌, IfOk};
ghost use Rattle.vx_answers.specs.Facts.{fact_of};

use crate::methods::{heads, text};
use crate::objects::{children, declared, fields, there};
use std::alloc::{AllocError, Global};
use vx_node::{Answer, Fact};
use vx_program::Program;

/// What the program says of the fact. What is declared under a name is found in the logarithm of how many declarations there are; children, fields and
/// methods take time in proportion to these.
pub fn fact(alloc: Global, program: &Program, fact: &Fact) -> Result<Answer, AllocError>
    ensures { IfOk result (λ answer. answer ≡ fact_of program.now fact.now) }
{
    match fact {
        Fact::Decl(x) => Ok(Answer::Decl(declared(alloc, program, x)?)),
        Fact::Children(x) => Ok(Answer::Children(children(alloc, program, x)?)),
        Fact::There(x) => Ok(Answer::There(there(program, x))),
        Fact::Heads(selector) => Ok(Answer::Heads(heads(alloc, program, selector)?)),
        Fact::Body(key) => Ok(Answer::Body(text(alloc, program, key)?)),
        Fact::Fields(x) => Ok(Answer::Fields(fields(alloc, program, x)?)),
    }
}
