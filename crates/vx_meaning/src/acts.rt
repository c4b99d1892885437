//! What primitives leave to be done.
ghost use Rattle.std.specs.Prelude.{◌≡◌, ℕ, IfOk};
ghost use Rattle.vx_model.specs.Meaning.{Allowance, primitive};
ghost use Rattle.vx_meaning.specs.States.{AreWithin, IsActWithin, act, state_of};

use crate::frames::reach;
use crate::memory::{Act, Memory, Outcome, Reached};
use std::alloc::{AllocError, Global};
use vx_model::{Deed, Value, nil, perform};
use vx_program::Program;

/// Does what the primitive of the number does but for the evaluation of closures, which it leaves.
#[inline(never)]
pub fn act(
    alloc: Global,
    program: &Program,
    number: usize,
    values: &[Value],
    memory: &mut Memory,
) -> Result<Act, AllocError>
    ensures done { IfOk result (λ left. (lower : Allowance) →
        primitive program.now lower number values.now (state_of memory.old) ≡ act program.now lower left memory.new) }
    ensures within { IfOk result (λ left. (limit : ℕ) → AreWithin limit memory.old.heap.closures →
        AreWithin limit memory.new.heap.closures × IsActWithin limit left) }
{
    match perform(alloc, program, number, values)? {
        Deed::Answers(value) => Ok(Act::Ends(Outcome::Gives(value))),
        Deed::Prints(line) => {
            memory.lines.push(line)?;
            Ok(Act::Ends(Outcome::Gives(nil(program))))
        }
        Deed::Breaks(error) => Ok(Act::Ends(Outcome::Fails(error))),
        Deed::Evaluates(place, arguments) => {
            match reach(alloc, place, arguments.len(), memory)? {
                Reached::Closure(held) => Ok(Act::Evaluates(held, arguments)),
                Reached::Ends(outcome) => Ok(Act::Ends(outcome)),
            }
        }
        Deed::Repeats(place) => match reach(alloc, place, 0, memory)? {
            Reached::Closure(held) => Ok(Act::Repeats(held)),
            Reached::Ends(outcome) => Ok(Act::Ends(outcome)),
        },
        Deed::Lacks => Ok(Act::Ends(Outcome::Stuck)),
    }
}
