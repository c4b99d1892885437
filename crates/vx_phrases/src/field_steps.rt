//! One token of a field.
ghost use Rattle.std.specs.Prelude.{◌≡◌, pos, neg_ℤ, ◌<◌, ◌^◌};
ghost use Rattle.vx_bodies.specs.Machine.{IsSmall};
ghost use Rattle.vx_phrases.specs.DeclMachine as spec;

use crate::decl_state::{DeclState, FieldState};
use crate::words::is_short;
use vx_names::{FieldKey, Name, Operator};
use vx_syntax::{Decl, Mark, Start, Token};

fn name(changeable: bool, name: Name) -> Option<DeclState>
    ensures { result ≡ spec.field_name changeable name }
{
    if is_short(&name) {
        Some(DeclState::Field(changeable, FieldState::Named(name)))
    } else {
        None
    }
}

fn begun(changeable: bool, token: Token) -> Option<DeclState>
    ensures { result ≡ spec.field changeable FieldState.Begun token }
{
    match token {
        Token::Word(word) => name(changeable, word),
        _ => None,
    }
}

fn named(changeable: bool, name: Name, token: Token) -> Option<DeclState>
    ensures { result ≡ spec.field changeable (FieldState.Named name) token }
{
    match token {
        Token::Mark(Mark::Open) => Some(DeclState::Field(changeable, FieldState::Open(name))),
        _ => None,
    }
}

fn open(changeable: bool, name: Name, token: Token) -> Option<DeclState>
    ensures { result ≡ spec.field changeable (FieldState.Open name) token }
{
    match token {
        Token::Mark(Mark::At) => Some(DeclState::Field(changeable, FieldState::At(name))),
        Token::Word(_) => Some(DeclState::Field(changeable, FieldState::Formal(name))),
        _ => None,
    }
}

fn formal(changeable: bool, name: Name, token: Token) -> Option<DeclState>
    ensures { result ≡ spec.field changeable (FieldState.Formal name) token }
{
    match token {
        Token::Mark(Mark::At) => Some(DeclState::Field(changeable, FieldState::At(name))),
        _ => None,
    }
}

fn at(changeable: bool, name: Name, token: Token) -> Option<DeclState>
    ensures { result ≡ spec.field changeable (FieldState.At name) token }
{
    match token {
        Token::Word(specialiser) => Some(DeclState::Field(
            changeable,
            FieldState::Holder(FieldKey { name, specialiser }),
        )),
        _ => None,
    }
}

fn holder(changeable: bool, key: FieldKey, token: Token) -> Option<DeclState>
    ensures { result ≡ spec.field changeable (FieldState.Holder key) token }
{
    match token {
        Token::Mark(Mark::Close) => Some(DeclState::Field(changeable, FieldState::Held(key))),
        _ => None,
    }
}

fn held(changeable: bool, key: FieldKey, token: Token) -> Option<DeclState>
    ensures { result ≡ spec.field changeable (FieldState.Held key) token }
{
    match token {
        Token::Mark(Mark::Becomes) => Some(DeclState::Field(changeable, FieldState::Becomes(key))),
        _ => None,
    }
}

fn start_word(name: &Name) -> Option<Start>
    ensures { result ≡ spec.start_word name.now }
{
    if name.bytes() == b"nil".as_slice() {
        Some(Start::Nil)
    } else if name.bytes() == b"true".as_slice() {
        Some(Start::True)
    } else if name.bytes() == b"false".as_slice() {
        Some(Start::False)
    } else {
        None
    }
}

fn started(key: FieldKey, changeable: bool, start: Option<Start>) -> Option<DeclState>
    ensures { result ≡ spec.started key changeable start }
{
    match start {
        Some(start) => Some(DeclState::Whole(Decl::Field {
            key,
            start,
            changeable,
        })),
        None => None,
    }
}

fn positive(n: u128) -> Start
    requires { n < 2 ^ 127 }
    ensures { result ≡ Start.Int (pos n) }
{
    Start::Int(n as i128)
}

fn negative(n: u128) -> Start
    requires { n < 2 ^ 127 }
    ensures { result ≡ Start.Int (neg_ℤ (pos n)) }
{
    Start::Int(-(n as i128))
}

fn becomes(changeable: bool, key: FieldKey, token: Token) -> Option<DeclState>
    requires { IsSmall token }
    ensures { result ≡ spec.field changeable (FieldState.Becomes key) token }
{
    match token {
        Token::Word(name) => started(key, changeable, start_word(&name)),
        Token::Number(n) => started(key, changeable, Some(positive(n))),
        Token::Text(bytes) => started(key, changeable, Some(Start::Text(bytes))),
        Token::Operator(Operator::Minus) => Some(DeclState::Field(
            changeable,
            FieldState::Signed(key),
        )),
        _ => None,
    }
}

fn signed(changeable: bool, key: FieldKey, token: Token) -> Option<DeclState>
    requires { IsSmall token }
    ensures { result ≡ spec.field changeable (FieldState.Signed key) token }
{
    match token {
        Token::Number(n) => started(key, changeable, Some(negative(n))),
        _ => None,
    }
}

/// The state after one more token of a field.
pub fn field(changeable: bool, state: FieldState, token: Token) -> Option<DeclState>
    requires { IsSmall token }
    ensures { result ≡ spec.field changeable state token }
{
    match state {
        FieldState::Begun => begun(changeable, token),
        FieldState::Named(name) => named(changeable, name, token),
        FieldState::Open(name) => open(changeable, name, token),
        FieldState::Formal(name) => formal(changeable, name, token),
        FieldState::At(name) => at(changeable, name, token),
        FieldState::Holder(key) => holder(changeable, key, token),
        FieldState::Held(key) => held(changeable, key, token),
        FieldState::Becomes(key) => becomes(changeable, key, token),
        FieldState::Signed(key) => signed(changeable, key, token),
    }
}
