//! One token of a command.
ghost use Rattle.std.specs.Prelude.{◌≡◌, ◌++◌, [], ◌∷◌, IfOk, is_some, true};
ghost use Rattle.vx_program.specs.Changes.{declared};
ghost use Rattle.vx_program.specs.declared.edit.Change.TheVariants as change;
ghost use Rattle.vx_bodies.specs.Machine.{IsSmall};
ghost use Rattle.vx_phrases.specs.DeclMachine.{decl_finished, decl_step};
ghost use Rattle.vx_phrases.specs.KeyMachine.{key_finished, key_step};
ghost use Rattle.vx_reader.specs.CommandMachine as spec;

use crate::command::{Command, MOST_MEAN, MOST_RUN};
use crate::levels::is_changing;
use crate::state::State;
use sqlite_items::Items;
use std::alloc::{AllocError, Global};
use vx_names::{DeclKey, Name};
use vx_phrases::{
    DeclState, KeyState, decl_begun, decl_finished, decl_may_end, decl_step, key_begun,
    key_finished, key_is_whole, key_step,
};
use vx_program::{Change, Edit};
use vx_syntax::{Decl, Keyword, Token};

// Lets go of what was read, at a token with which no command goes on. A function of its own, since a function pays at each
// call for what it may let go of.
fn stopped<T: Drop>(read: T) -> Option<State>
    ensures { result ≡ None }
{
    drop(read);
    None
}

// The state after a word that begins a change, behind these changes.
fn changing(before: Items<Change>, name: &Name) -> Option<State>
    ensures { result ≡ spec.changing before name.now }
{
    let word = name.bytes();
    if word == b"add".as_slice() {
        Some(State::Declaring(false, before, decl_begun()))
    } else if word == b"put".as_slice() {
        Some(State::Declaring(true, before, decl_begun()))
    } else if word == b"drop".as_slice() {
        Some(State::Dropping(before, key_begun()))
    } else {
        stopped(before)
    }
}

// The state after a word that begins a command which is no edit.
fn asking(name: &Name) -> Option<State>
    ensures { result ≡ spec.asking name.now }
{
    let word = name.bytes();
    if word == b"run".as_slice() {
        Some(State::Run)
    } else if word == b"mean".as_slice() {
        Some(State::Mean)
    } else if word == b"image".as_slice() {
        Some(State::Over(Command::Image))
    } else if word == b"why".as_slice() {
        Some(State::Over(Command::Why))
    } else if word == b"list".as_slice() {
        Some(State::Over(Command::List))
    } else if word == b"journal".as_slice() {
        Some(State::Over(Command::Journal))
    } else {
        None
    }
}

// The state after the first token.
fn started(alloc: Global, token: &Token) -> Option<State>
    ensures { result ≡ spec.started token.now }
{
    match token {
        Token::Word(name) if is_changing(name) => changing(Items::new(alloc), name),
        Token::Word(name) => asking(name),
        _ => None,
    }
}

// The state after the token behind `run`.
fn run_for(token: &Token) -> Option<State>
    ensures { result ≡ spec.run_for token.now }
{
    match token {
        Token::Number(n) if *n <= MOST_RUN as u128 => { Some(State::Over(Command::Run(*n as u32))) }
        _ => None,
    }
}

// The state after the token behind `mean`.
fn mean_for(token: &Token) -> Option<State>
    ensures { result ≡ spec.mean_for token.now }
{
    match token {
        Token::Number(n) if *n <= MOST_MEAN as u128 => {
            Some(State::Over(Command::Mean(*n as u8)))
        }
        _ => None,
    }
}

// Whether the token begins a declaration, a key or a change.
fn opens(token: &Token) -> bool
    ensures { result ≡ spec.opens token.now }
{
    match token {
        Token::Word(name) => is_changing(name),
        Token::Keyword(
            Keyword::Object | Keyword::Predicate | Keyword::Var | Keyword::Field | Keyword::Method,
        ) => true,
        _ => false,
    }
}

// The state in a declaration.
fn in_decl(put: bool, before: Items<Change>, state: Option<DeclState>) -> Option<State>
    ensures { result ≡ spec.in_decl put before state }
{
    match state {
        Some(state) => Some(State::Declaring(put, before, state)),
        None => stopped(before),
    }
}

// The state in a key.
fn in_key(before: Items<Change>, state: Option<KeyState>) -> Option<State>
    ensures { result ≡ spec.in_key before state }
{
    match state {
        Some(state) => Some(State::Dropping(before, state)),
        None => stopped(before),
    }
}

// The state after the token behind a declaration, whose change is the last of these.
fn after_decl(
    alloc: Global,
    put: bool,
    before: Items<Change>,
    token: Token,
) -> Result<Option<State>, AllocError>
    requires { IsSmall token }
    ensures { IfOk result (λ next. next ≡ spec.after_decl put before token) }
{
    match token {
        Token::Word(name) => Ok(changing(before, &name)),
        token => Ok(in_decl(put, before, decl_step(alloc, decl_begun(), token)?)),
    }
}

// The state after the token behind a key, whose change is the last of these.
fn after_key(
    alloc: Global,
    before: Items<Change>,
    token: Token,
) -> Result<Option<State>, AllocError>
    ensures { IfOk result (λ next. next ≡ spec.after_key before token) }
{
    match token {
        Token::Word(name) => Ok(changing(before, &name)),
        token => Ok(in_key(before, key_step(alloc, key_begun(), token)?)),
    }
}

// The changes, and one that declares this.
fn with_decl(put: bool, mut before: Items<Change>, decl: Decl) -> Result<Items<Change>, AllocError>
    ensures { IfOk result (λ changes. changes ≡ before ++ declared put decl ∷ []) }
{
    if put {
        before.push(Change::Put(decl))?;
    } else {
        before.push(Change::Add(decl))?;
    }
    Ok(before)
}

// The changes, and one that drops this.
fn with_key(mut before: Items<Change>, key: DeclKey) -> Result<Items<Change>, AllocError>
    ensures { IfOk result (λ changes. changes ≡ before ++ change.Drop key ∷ []) }
{
    before.push(Change::Drop(key))?;
    Ok(before)
}

// The state after a token in a declaration, or behind it where it is whole.
fn declaring(
    alloc: Global,
    put: bool,
    before: Items<Change>,
    state: DeclState,
    token: Token,
) -> Result<Option<State>, AllocError>
    requires { IsSmall token }
    ensures { IfOk result (λ next. next ≡ spec.declaring (spec.opens token) put before state (decl_finished state) token) }
{
    if opens(&token) && decl_may_end(&state) {
        behind_decl(alloc, put, before, state, token)
    } else {
        Ok(in_decl(put, before, decl_step(alloc, state, token)?))
    }
}

// The state after a token behind a whole declaration.
fn behind_decl(
    alloc: Global,
    put: bool,
    before: Items<Change>,
    state: DeclState,
    token: Token,
) -> Result<Option<State>, AllocError>
    requires small { IsSmall token }
    requires whole { is_some (decl_finished state) ≡ true }
    ensures { IfOk result (λ next. next ≡ spec.declaring true put before state (decl_finished state) token) }
{
    match decl_finished(alloc, state)? {
        Some(decl) => {
            let changes = with_decl(put, before, decl)?;
            after_decl(alloc, put, changes, token)
        }
        None => Ok(stopped((before, token))),
    }
}

// The state after a token in a key, or behind it where it is whole.
fn dropping(
    alloc: Global,
    before: Items<Change>,
    state: KeyState,
    token: Token,
) -> Result<Option<State>, AllocError>
    ensures { IfOk result (λ next. next ≡ spec.dropping (spec.opens token) before state (key_finished state) token) }
{
    if opens(&token) && key_is_whole(&state) {
        behind_key(alloc, before, state, token)
    } else {
        Ok(in_key(before, key_step(alloc, state, token)?))
    }
}

// The state after a token behind a whole key.
fn behind_key(
    alloc: Global,
    before: Items<Change>,
    state: KeyState,
    token: Token,
) -> Result<Option<State>, AllocError>
    requires { is_some (key_finished state) ≡ true }
    ensures { IfOk result (λ next. next ≡ spec.dropping true before state (key_finished state) token) }
{
    match key_finished(state) {
        Some(key) => {
            let changes = with_key(before, key)?;
            after_key(alloc, changes, token)
        }
        None => Ok(stopped((before, token))),
    }
}

/// The state after a token, if some command goes on with it.
#[tactic(auto, unfolding(crate::specs::CommandMachine::command_step))]
pub fn command_step(alloc: Global, state: State, token: Token) -> Result<Option<State>, AllocError>
    requires { IsSmall token }
    ensures { IfOk result (λ next. next ≡ spec.command_step state token) }
{
    match state {
        State::Start => Ok(started(alloc, &token)),
        State::Run => Ok(run_for(&token)),
        State::Mean => Ok(mean_for(&token)),
        State::Over(command) => Ok(stopped(command)),
        State::Declaring(put, before, state) => declaring(alloc, put, before, state, token),
        State::Dropping(before, state) => dropping(alloc, before, state, token),
    }
}

// The edit that is whole with a declaration, if it is.
fn finished_decl(
    alloc: Global,
    put: bool,
    before: Items<Change>,
    state: DeclState,
) -> Result<Option<Command>, AllocError>
    ensures { IfOk result (λ command. command ≡ spec.with_decl put before (decl_finished state)) }
{
    match decl_finished(alloc, state)? {
        Some(decl) => {
            let changes = with_decl(put, before, decl)?;
            Ok(Some(Command::Edit(Edit { changes })))
        }
        None => {
            drop(before);
            Ok(None)
        }
    }
}

// The edit that is whole with a key, if it is.
fn finished_key(before: Items<Change>, state: KeyState) -> Result<Option<Command>, AllocError>
    ensures { IfOk result (λ command. command ≡ spec.with_key before (key_finished state)) }
{
    match key_finished(state) {
        Some(key) => {
            let changes = with_key(before, key)?;
            Ok(Some(Command::Edit(Edit { changes })))
        }
        None => {
            drop(before);
            Ok(None)
        }
    }
}

/// The command that is read, where it may end there.
#[tactic(auto, unfolding(crate::specs::CommandMachine::command_finished))]
pub fn command_finished(alloc: Global, state: State) -> Result<Option<Command>, AllocError>
    ensures { IfOk result (λ command. command ≡ spec.command_finished state) }
{
    match state {
        State::Start => Ok(Some(Command::Blank)),
        State::Run | State::Mean => Ok(None),
        State::Over(command) => Ok(Some(command)),
        State::Declaring(put, before, state) => finished_decl(alloc, put, before, state),
        State::Dropping(before, state) => finished_key(before, state),
    }
}
