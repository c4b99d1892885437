//! One token of a key.
ghost use Rattle.std.specs.Prelude.{◌≡◌, ◌≤◌, [], length, Some, IfOk, is_some};
ghost use Rattle.vx_syntax.specs.Expressions.{max_arguments};
ghost use Rattle.vx_phrases.specs.KeyMachine as spec;

use crate::key_state::{KeyMessage, KeyState};
use crate::words::{is_short, two};
use sqlite_items::Items;
use std::alloc::{AllocError, Global};
use vx_bodies::Arguments;
use vx_names::{DeclKey, FieldKey, Name, Operator};
use vx_syntax::{Keyword, Mark, Token, method_key};

fn key_begins(token: Token) -> Option<KeyState>
    ensures { result ≡ spec.key_begins token }
{
    match token {
        Token::Keyword(Keyword::Object) => Some(KeyState::Object),
        Token::Keyword(Keyword::Predicate) => Some(KeyState::Predicate),
        Token::Keyword(Keyword::Field) => Some(KeyState::Field),
        Token::Keyword(Keyword::Method) => Some(KeyState::Method),
        _ => None,
    }
}

fn object(token: Token) -> Option<KeyState>
    ensures { result ≡ spec.object token }
{
    match token {
        Token::Word(name) => Some(KeyState::Whole(DeclKey::Object(name))),
        _ => None,
    }
}

fn predicate(token: Token) -> Option<KeyState>
    ensures { result ≡ spec.predicate token }
{
    match token {
        Token::Word(name) => Some(KeyState::Whole(DeclKey::Predicate(name))),
        _ => None,
    }
}

fn field_name(name: Name) -> Option<KeyState>
    ensures { result ≡ spec.field_name name }
{
    if is_short(&name) {
        Some(KeyState::FieldNamed(name))
    } else {
        None
    }
}

fn field(token: Token) -> Option<KeyState>
    ensures { result ≡ spec.field token }
{
    match token {
        Token::Word(name) => field_name(name),
        _ => None,
    }
}

fn field_named(name: Name, token: Token) -> Option<KeyState>
    ensures { result ≡ spec.field_named name token }
{
    match token {
        Token::Mark(Mark::Open) => Some(KeyState::FieldOpen(name)),
        _ => None,
    }
}

fn field_open(name: Name, token: Token) -> Option<KeyState>
    ensures { result ≡ spec.field_open name token }
{
    match token {
        Token::Mark(Mark::At) => Some(KeyState::FieldAt(name)),
        _ => None,
    }
}

fn field_at(name: Name, token: Token) -> Option<KeyState>
    ensures { result ≡ spec.field_at name token }
{
    match token {
        Token::Word(specialiser) => Some(KeyState::FieldHolder(FieldKey { name, specialiser })),
        _ => None,
    }
}

fn field_holder(key: FieldKey, token: Token) -> Option<KeyState>
    ensures { result ≡ spec.field_holder key token }
{
    match token {
        Token::Mark(Mark::Close) => Some(KeyState::Whole(DeclKey::Field(key))),
        _ => None,
    }
}

fn method(token: Token) -> Option<KeyState>
    ensures { result ≡ spec.method token }
{
    match token {
        Token::Word(name) => Some(KeyState::MethodNamed(name)),
        Token::Operator(operator) => Some(KeyState::MethodSign(operator)),
        _ => None,
    }
}

fn method_named(name: Name, token: Token) -> Option<KeyState>
    ensures { result ≡ spec.method_named name token }
{
    match token {
        Token::Mark(Mark::Open) => Some(KeyState::MethodOpen(name)),
        _ => None,
    }
}

fn method_sign(operator: Operator, token: Token) -> Option<KeyState>
    ensures { result ≡ spec.method_sign operator token }
{
    match token {
        Token::Mark(Mark::Open) => Some(KeyState::Specialiser(KeyMessage::Sign(operator))),
        _ => None,
    }
}

fn method_whole(name: Name, specialisers: Items<Name>) -> KeyState
    requires { length specialisers ≤ max_arguments }
    ensures { result ≡ spec.method_whole name specialisers }
{
    KeyState::Whole(DeclKey::Method(method_key(name, specialisers)))
}

fn method_open(alloc: Global, name: Name, token: Token) -> Option<KeyState>
    ensures { result ≡ spec.method_open name token }
{
    match token {
        Token::Mark(Mark::Close) => Some(method_whole(name, Items::new(alloc))),
        Token::Mark(Mark::At) => Some(KeyState::At(KeyMessage::Named(name, Arguments::new(alloc)))),
        _ => None,
    }
}

fn specialiser(message: KeyMessage, token: Token) -> Option<KeyState>
    ensures { result ≡ spec.specialiser message token }
{
    match token {
        Token::Mark(Mark::At) => Some(KeyState::At(message)),
        _ => {
            drop(message);
            None
        }
    }
}

fn at(message: KeyMessage, token: Token) -> Option<KeyState>
    ensures { result ≡ spec.at message token }
{
    match token {
        Token::Word(name) => Some(KeyState::Specialised(message, name)),
        _ => {
            drop(message);
            None
        }
    }
}

fn with_last_of_name(name: Name, given: Arguments<Name>, last: Name) -> Result<KeyState, AllocError>
    ensures { IfOk result (λ next. Some next ≡ spec.with_last (KeyMessage.Named name given) last) }
{
    Ok(method_whole(name, given.with_last(last)?))
}

fn with_last_of_two(
    alloc: Global,
    operator: Operator,
    first: Name,
    last: Name,
) -> Result<KeyState, AllocError>
    ensures { IfOk result (λ next. Some next ≡ spec.with_last (KeyMessage.Half operator first) last) }
{
    let name = operator.name(alloc)?;
    Ok(method_whole(name, two(alloc, first, last)?))
}

fn with_last(alloc: Global, message: KeyMessage, last: Name) -> Result<Option<KeyState>, AllocError>
    ensures { IfOk result (λ next. next ≡ spec.with_last message last) }
{
    match message {
        KeyMessage::Named(name, given) => Ok(Some(with_last_of_name(name, given, last)?)),
        KeyMessage::Half(operator, first) => Ok(Some(with_last_of_two(
            alloc, operator, first, last,
        )?)),
        KeyMessage::Sign(_) => Ok(None),
    }
}

fn with_next_of_name(
    name: Name,
    given: Arguments<Name>,
    next: Name,
) -> Result<Option<KeyMessage>, AllocError>
    ensures { IfOk result (λ message. message ≡ spec.with_next (KeyMessage.Named name given) next) }
{
    if given.may_go_on() {
        Ok(Some(KeyMessage::Named(name, given.with(next)?)))
    } else {
        Ok(None)
    }
}

fn with_next(message: KeyMessage, next: Name) -> Result<Option<KeyMessage>, AllocError>
    ensures { IfOk result (λ message_of_more. message_of_more ≡ spec.with_next message next) }
{
    match message {
        KeyMessage::Named(name, given) => with_next_of_name(name, given, next),
        KeyMessage::Sign(operator) => Ok(Some(KeyMessage::Half(operator, next))),
        KeyMessage::Half(_, first) => {
            drop(first);
            Ok(None)
        }
    }
}

fn specialiser_next(message: Option<KeyMessage>) -> Option<KeyState>
    ensures { result ≡ spec.specialiser_next message }
{
    match message {
        Some(message) => Some(KeyState::Specialiser(message)),
        None => None,
    }
}

fn specialised(
    alloc: Global,
    message: KeyMessage,
    name: Name,
    token: Token,
) -> Result<Option<KeyState>, AllocError>
    ensures { IfOk result (λ next. next ≡ spec.specialised message name token) }
{
    match token {
        Token::Mark(Mark::Close) => with_last(alloc, message, name),
        Token::Mark(Mark::Comma) => Ok(specialiser_next(with_next(message, name)?)),
        _ => {
            drop(message);
            Ok(None)
        }
    }
}

/// The state before the first token of a key.
pub fn key_begun() -> KeyState
    ensures { result ≡ spec.key_begun }
{
    KeyState::Begun
}

/// The state after the token, and None where no key goes on with it.
#[tactic(auto, unfolding(crate::specs::KeyMachine::key_step))]
pub fn key_step(
    alloc: Global,
    state: KeyState,
    token: Token,
) -> Result<Option<KeyState>, AllocError>
    ensures { IfOk result (λ next. next ≡ spec.key_step state token) }
{
    match state {
        KeyState::Begun => Ok(key_begins(token)),
        KeyState::Object => Ok(object(token)),
        KeyState::Predicate => Ok(predicate(token)),
        KeyState::Field => Ok(field(token)),
        KeyState::FieldNamed(name) => Ok(field_named(name, token)),
        KeyState::FieldOpen(name) => Ok(field_open(name, token)),
        KeyState::FieldAt(name) => Ok(field_at(name, token)),
        KeyState::FieldHolder(key) => Ok(field_holder(key, token)),
        KeyState::Method => Ok(method(token)),
        KeyState::MethodNamed(name) => Ok(method_named(name, token)),
        KeyState::MethodSign(operator) => Ok(method_sign(operator, token)),
        KeyState::MethodOpen(name) => Ok(method_open(alloc, name, token)),
        KeyState::Specialiser(message) => Ok(specialiser(message, token)),
        KeyState::At(message) => Ok(at(message, token)),
        KeyState::Specialised(message, name) => specialised(alloc, message, name, token),
        KeyState::Whole(key) => {
            drop(key);
            Ok(None)
        }
    }
}

/// The key that is read, and None where more is needed.
#[tactic(auto, unfolding(crate::specs::KeyMachine::key_finished))]
pub fn key_finished(state: KeyState) -> Option<DeclKey>
    ensures { result ≡ spec.key_finished state }
{
    match state {
        KeyState::Whole(key) => Some(key),
        state => {
            drop(state);
            None
        }
    }
}

/// Whether the key is whole.
#[tactic(auto, unfolding(crate::specs::KeyMachine::key_finished))]
pub fn key_is_whole(state: &KeyState) -> bool
    ensures { result ≡ is_some (spec.key_finished state.now) }
{
    match state {
        KeyState::Whole(_) => true,
        _ => false,
    }
}
