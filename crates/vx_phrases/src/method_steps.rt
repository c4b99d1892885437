//! One token of a method before its body.
ghost use Rattle.std.specs.Prelude.{◌≡◌, [], ◌∷◌, Some, None, IfOk};
ghost use Rattle.vx_syntax.specs.Expressions.{is_among};
ghost use Rattle.vx_syntax.specs.Declarations.{any, named};
ghost use Rattle.vx_phrases.specs.DeclMachine as spec;
ghost use Rattle.vx_phrases.specs.DeclMachine.{given};

use crate::decl_state::{DeclState, Message, MethodState};
use crate::head::{NewFormal, OpenHead, WholeHead};
use crate::words::any_name;
use std::alloc::{AllocError, Global};
use vx_bodies::begin;
use vx_names::{Name, Operator};
use vx_syntax::{Mark, Token};

fn is_formal(formals: &[Option<Name>], name: &Name) -> bool
    ensures { result ≡ is_among (named formals.now) name.now }
{
    for formal in formals {
        if let Some(other) = formal {
            if other.bytes() == name.bytes() {
                return true;
            }
        }
    }
    false
}

fn has_formal(message: &Message, name: &Name) -> bool
    ensures { result ≡ is_among (named (given message.now)) name.now }
{
    match message {
        Message::Named(head) => is_formal(head.formals(), name),
        Message::Sign(_) => false,
        Message::Half(_, Some(first), _) => first.bytes() == name.bytes(),
        Message::Half(_, None, _) => false,
    }
}

fn with_last(
    alloc: Global,
    message: Message,
    last: NewFormal,
) -> Result<Option<WholeHead>, AllocError>
    ensures { IfOk result (λ head. head ≡ spec.with_last message last.name last.specialiser) }
{
    match message {
        Message::Named(head) => Ok(Some(head.with_last(alloc, last)?)),
        Message::Half(operator, name, specialiser) => {
            let first = NewFormal { name, specialiser };
            Ok(Some(WholeHead::of_two(alloc, operator, first, last)?))
        }
        Message::Sign(_) => {
            drop(last);
            Ok(None)
        }
    }
}

fn with_next_of_name(head: OpenHead, next: NewFormal) -> Result<Option<Message>, AllocError>
    ensures { IfOk result (λ message. message ≡ spec.with_next (Message.Named head) next.name next.specialiser) }
{
    if head.may_go_on() {
        Ok(Some(Message::Named(head.with(next)?)))
    } else {
        drop((head, next));
        Ok(None)
    }
}

fn with_next(message: Message, next: NewFormal) -> Result<Option<Message>, AllocError>
    ensures { IfOk result (λ more. more ≡ spec.with_next message next.name next.specialiser) }
{
    match message {
        Message::Named(head) => with_next_of_name(head, next),
        Message::Sign(operator) => Ok(Some(Message::Half(operator, next.name, next.specialiser))),
        Message::Half(_, first, specialiser) => {
            drop(first);
            drop(specialiser);
            drop(next);
            Ok(None)
        }
    }
}

fn formed(head: Option<WholeHead>) -> Option<DeclState>
    ensures { result ≡ spec.formed head }
{
    match head {
        Some(head) => Some(DeclState::Method(MethodState::Formed(head))),
        None => None,
    }
}

fn formal_next(message: Option<Message>) -> Option<DeclState>
    ensures { result ≡ spec.formal_next message }
{
    match message {
        Some(message) => Some(DeclState::Method(MethodState::Formal(message))),
        None => None,
    }
}

fn specialised(
    alloc: Global,
    message: Message,
    formal: NewFormal,
    token: Token,
) -> Result<Option<DeclState>, AllocError>
    ensures { IfOk result (λ next. next ≡ spec.specialised message formal.name formal.specialiser token) }
{
    match token {
        Token::Mark(Mark::Close) => Ok(formed(with_last(alloc, message, formal)?)),
        Token::Mark(Mark::Comma) => Ok(formal_next(with_next(message, formal)?)),
        _ => {
            drop(message);
            drop(formal);
            Ok(None)
        }
    }
}

fn unspecialised(
    alloc: Global,
    message: Message,
    name: Name,
    token: Token,
) -> Result<Option<DeclState>, AllocError>
    ensures { IfOk result (λ next. next ≡ spec.specialised message (Some name) any token) }
{
    let specialiser = any_name(alloc)?;
    specialised(
        alloc,
        message,
        NewFormal {
            name: Some(name),
            specialiser,
        },
        token,
    )
}

fn formal_named(
    alloc: Global,
    message: Message,
    name: Name,
    token: Token,
) -> Result<Option<DeclState>, AllocError>
    ensures { IfOk result (λ next. next ≡ spec.formal_named message name token) }
{
    match token {
        Token::Mark(Mark::At) => Ok(Some(DeclState::Method(MethodState::At(message, Some(name))))),
        token => unspecialised(alloc, message, name, token),
    }
}

fn formal_name(message: Message, name: Name) -> Option<DeclState>
    ensures { result ≡ spec.formal_name message name }
{
    if has_formal(&message, &name) {
        drop(message);
        None
    } else {
        Some(DeclState::Method(MethodState::FormalNamed(message, name)))
    }
}

fn formal(message: Message, token: Token) -> Option<DeclState>
    ensures { result ≡ spec.formal message token }
{
    match token {
        Token::Word(name) => formal_name(message, name),
        Token::Mark(Mark::At) => Some(DeclState::Method(MethodState::At(message, None))),
        _ => {
            drop(message);
            None
        }
    }
}

fn first_formal(alloc: Global, name: Name, token: Token) -> Result<Option<DeclState>, AllocError>
    ensures { IfOk result (λ next. next ≡ spec.first_formal name token) }
{
    match token {
        Token::Mark(Mark::Close) => Ok(formed(Some(WholeHead::plain(alloc, name)?))),
        token => Ok(formal(Message::Named(OpenHead::new(alloc, name)), token)),
    }
}

fn begun(token: Token) -> Option<DeclState>
    ensures { result ≡ spec.method MethodState.Begun token }
{
    match token {
        Token::Word(name) => Some(DeclState::Method(MethodState::Named(name))),
        Token::Operator(operator) => Some(DeclState::Method(MethodState::Sign(operator))),
        _ => None,
    }
}

fn named(name: Name, token: Token) -> Option<DeclState>
    ensures { result ≡ spec.method (MethodState.Named name) token }
{
    match token {
        Token::Mark(Mark::Open) => Some(DeclState::Method(MethodState::Open(name))),
        _ => None,
    }
}

fn sign(operator: Operator, token: Token) -> Option<DeclState>
    ensures { result ≡ spec.method (MethodState.Sign operator) token }
{
    match token {
        Token::Mark(Mark::Open) => Some(DeclState::Method(MethodState::Formal(Message::Sign(
            operator,
        )))),
        _ => None,
    }
}

fn at(message: Message, name: Option<Name>, token: Token) -> Option<DeclState>
    ensures { result ≡ spec.method (MethodState.At message name) token }
{
    match token {
        Token::Word(specialiser) => Some(DeclState::Method(MethodState::Specialised(
            message,
            name,
            specialiser,
        ))),
        _ => {
            drop(message);
            drop(name);
            None
        }
    }
}

fn opened(alloc: Global, head: WholeHead) -> Result<DeclState, AllocError>
    ensures { IfOk result (λ next. Some next ≡ spec.method (MethodState.Formed head) (Token.Mark Mark.OpenBlock)) }
{
    let state = begin(alloc, head.formals())?;
    Ok(DeclState::Body(head, state))
}

fn whole_head(alloc: Global, head: WholeHead, token: Token) -> Result<Option<DeclState>, AllocError>
    ensures { IfOk result (λ next. next ≡ spec.method (MethodState.Formed head) token) }
{
    match token {
        Token::Mark(Mark::OpenBlock) => Ok(Some(opened(alloc, head)?)),
        _ => {
            drop(head);
            Ok(None)
        }
    }
}

/// The state after one more token of a method before its body.
pub fn method(
    alloc: Global,
    state: MethodState,
    token: Token,
) -> Result<Option<DeclState>, AllocError>
    ensures { IfOk result (λ next. next ≡ spec.method state token) }
{
    match state {
        MethodState::Begun => Ok(begun(token)),
        MethodState::Named(name) => Ok(named(name, token)),
        MethodState::Sign(operator) => Ok(sign(operator, token)),
        MethodState::Open(name) => first_formal(alloc, name, token),
        MethodState::Formal(message) => Ok(formal(message, token)),
        MethodState::FormalNamed(message, name) => formal_named(alloc, message, name, token),
        MethodState::At(message, name) => Ok(at(message, name, token)),
        MethodState::Specialised(message, name, specialiser) => specialised(
            alloc,
            message,
            NewFormal { name, specialiser },
            token,
        ),
        MethodState::Formed(head) => whole_head(alloc, head, token),
    }
}
