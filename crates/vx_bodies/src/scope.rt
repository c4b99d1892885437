//! The names in scope.
ghost use Rattle.std.specs.Prelude.{◌≡◌, ◌||◌, ◌&&◌, not};
ghost use Rattle.vx_syntax.specs.Expressions.{is_among, is_bound, is_variable, with_formals};
ghost use Rattle.vx_bodies.specs.Machine.{block_scope, outer_scope};
ghost use Rattle.vx_bodies.specs.Scopes.{is_listed};

use crate::stack::Stack;
use crate::state::{Block, Level};
use vx_names::Name;
use vx_syntax::is_among;

fn has(level: &Level, x: &Name, variable: bool) -> bool
    ensures { result ≡ (is_among level.now.formals x.now && not variable || is_listed variable level.now.declared x.now) }
{
    is_among(level.formals.as_slice(), x) && !variable || level.declared.has(x, variable)
}

#[tactic(auto, using(crate::proofs::Scopes::outer_at, crate::proofs::Scopes::outer_past))]
fn is_outside(levels: &Stack<Level>, x: &Name, variable: bool) -> bool
    ensures { result ≡ is_listed variable (outer_scope levels.now) x.now }
{
    for i in 0..levels.len() {
        if has(levels.at(i), x, variable) {
            return true;
        }
    }
    false
}

#[tactic(auto, using(crate::proofs::Scopes::listed_append))]
fn is_there(block: &Block, x: &Name, variable: bool) -> bool
    ensures { result ≡ is_listed variable (block_scope block.now) x.now }
{
    block.declared.has(x, variable) || is_outside(&block.levels, x, variable)
}

/// Whether the name is in scope in the body.
#[tactic(auto, using(crate::proofs::Scopes::bound_is))]
pub fn is_in_scope(block: &Block, x: &Name) -> bool
    ensures { result ≡ is_bound (block_scope block.now) x.now }
{
    is_there(block, x, false)
}

/// Whether the name is in scope in the body, and may be assigned.
#[tactic(auto, using(crate::proofs::Scopes::variable_is))]
pub fn is_variable_in_scope(block: &Block, x: &Name) -> bool
    ensures { result ≡ is_variable (block_scope block.now) x.now }
{
    is_there(block, x, true)
}

/// Whether the name is in scope after these formals of a closure in the body.
#[tactic(auto, using(crate::proofs::Scopes::formal_bound))]
pub fn is_bound_after(formals: &[Name], block: &Block, x: &Name) -> bool
    ensures { result ≡ is_bound (with_formals (block_scope block.now) formals.now) x.now }
{
    is_among(formals, x) || is_in_scope(block, x)
}
