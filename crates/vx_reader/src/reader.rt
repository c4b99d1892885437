ghost use Rattle.std.specs.Prelude.{◌≡◌, ◌≤◌, length, IfOk, IfErr};
ghost use Rattle.vx_bodies.specs.Machine.{IsSmall};
ghost use Rattle.vx_syntax.specs.Depth.{max_depth};
ghost use Rattle.vx_reader.specs.CommandMachine as machine;
ghost use Rattle.vx_reader.specs.OpenLevels.{Adds};
ghost use Rattle.vx_reader.specs.Progress.{fitted, Follows, Refuses};
ghost use Rattle.vx_reader.specs.Reads as spec;

use crate::command::{Command, ReadFault};
use crate::command_steps::{command_finished, command_step};
use crate::laws::{every_block_is_read, great_numbers_are_alike, read_edits_are_writable};
use crate::levels::{Levels, MOST_DEPTH};
use crate::state::State;
use crate::token::Placed;
use crate::tokenizer::tokens;
use std::alloc::{AllocError, Global};
use vx_syntax::Token;

// The least number above those of the language.
const LARGE: u128 = 1 << 127;

// Whether the token is a number above those of the language.
fn is_large(token: &Token) -> bool
    ensures { result ≡ spec.is_large_token token.now }
{
    match token {
        Token::Number(n) => *n >= LARGE,
        _ => false,
    }
}

// The token, or the greatest number of the language in place of a larger one, which shows whether a number may stand there.
fn fitting(alloc: Global, token: &Token) -> Result<Token, AllocError>
    ensures { IfOk result (λ fit. IsSmall fit × (fit ≡ fitted token.now)) }
{
    if is_large(token) {
        Ok(Token::Number(LARGE - 1))
    } else {
        token.copy(alloc)
    }
}

/// What is read, and how deep the next token lies.
#[derive(Drop)]
pub struct Progress {
    pub state: State,
    pub levels: Levels,
}

// One token more, or the fault at its place.
fn after(alloc: Global, progress: Progress, placed: &Placed) -> Result<Progress, ReadFault>
    requires adds { Adds progress.levels }
    requires low { progress.levels.depth ≤ max_depth }
    ensures next { IfOk result (Follows progress placed.now) }
    ensures fault { IfErr result (Refuses progress placed.now) }
{
    great_numbers_are_alike();
    let Progress { state, levels } = progress;
    let token = fitting(alloc, &placed.token)?;
    let levels = levels.at(&placed.token)?;
    let Some(state) = command_step(alloc, state, token)? else {
        drop(levels);
        return Err(ReadFault::Syntax(placed.place));
    };
    if levels.depth > MOST_DEPTH {
        drop((state, levels));
        return Err(ReadFault::TooDeep(placed.place));
    }
    if is_large(&placed.token) {
        drop((state, levels));
        return Err(ReadFault::NumberTooLarge(placed.place));
    }
    Ok(Progress { state, levels })
}

/// Reads a block of bytes as a command.
pub fn read_block(alloc: Global, bytes: &[u8]) -> Result<Command, ReadFault>
    ensures says { spec.Says bytes.now result }
    ensures writable { IfOk result spec.IsUsable }
{
    every_block_is_read();
    read_edits_are_writable();
    let len = block_len(bytes);
    let tokens = tokens(alloc, bytes)?;
    let mut progress = Progress {
        state: State::Start,
        levels: Levels::new(alloc),
    };
    for placed in tokens.as_slice() {
        match after(alloc, progress, placed) {
            Ok(next) => progress = next,
            Err(fault) => return Err(fault),
        }
    }
    match finished(alloc, progress)? {
        Some(command) => Ok(command),
        None => Err(ReadFault::Syntax(len)),
    }
}

// How many bytes a block has.
fn block_len(bytes: &[u8]) -> u64
    ensures { result ≡ length bytes.now }
{
    bytes.len() as u64
}

// The command that is read, where it may end there.
fn finished(alloc: Global, progress: Progress) -> Result<Option<Command>, AllocError>
    ensures { IfOk result (λ command. command ≡ machine.command_finished progress.state) }
{
    let Progress { state, levels } = progress;
    drop(levels);
    command_finished(alloc, state)
}
