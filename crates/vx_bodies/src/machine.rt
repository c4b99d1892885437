//! The beginning of a body, and one token.
ghost use Rattle.std.specs.Prelude.{◌≡◌, IfOk};
ghost use Rattle.vx_syntax.specs.Declarations.{formal_scope};
ghost use Rattle.vx_bodies.specs.Machine as spec;
ghost use Rattle.vx_bodies.specs.Machine.{IsSmall};

use crate::after::after_operand;
use crate::closure::{ampersand, first_formal, formals, formed, next_formal};
use crate::constructor::{Named, field_name, first_field, isa, next_field, object, parent};
use crate::declared::Declared;
use crate::operand::{called, first_argument, operand, resend, resend_dots, resend_open, signed};
use crate::stack::Stack;
use crate::state::{Block, Next, Part, Pending, State, Within};
use crate::statement::{after_let, after_var, bound, closing, named, statement};
use sqlite_items::{Boxed, Items};
use std::alloc::{AllocError, Global};
use vx_names::Name;
use vx_syntax::Token;

fn declared(alloc: Global, formals: &[Option<Name>]) -> Result<Declared, AllocError>
    ensures { IfOk result (λ declared. declared ≡ formal_scope formals.now) }
{
    let mut declared = Declared::new(alloc);
    for formal in formals {
        if let Some(name) = formal {
            declared = declared.with(alloc, name.copy(alloc)?, false)?;
        }
    }
    Ok(declared)
}

/// The body of a method with these formals, after its `{`.
#[tactic(auto, unfolding(crate::specs::Machine::begun))]
pub fn begin(alloc: Global, formals: &[Option<Name>]) -> Result<State, AllocError>
    ensures { IfOk result (λ state. state ≡ spec.begun (formal_scope formals.now)) }
{
    Ok(State::Statement(Boxed::new(
        alloc,
        Block {
            levels: Stack::new(alloc),
            declared: declared(alloc, formals)?,
            statements: Items::new(alloc),
        },
    )?))
}

#[tactic(auto, unfolding(crate::specs::Machine::inside))]
fn inside(
    alloc: Global,
    part: Part,
    pending: Pending,
    within: Within,
    token: Token,
) -> Result<Next, AllocError>
    requires { IsSmall token }
    ensures { IfOk result (λ next. next ≡ spec.inside part pending within token) }
{
    match part {
        Part::Signed => Ok(signed(pending, within, token)),
        Part::Called(name) => called(alloc, name, pending, within, token),
        Part::FirstArgument(name) => first_argument(alloc, name, pending, within, token),
        Part::Ampersand => Ok(ampersand(pending, within, token)),
        Part::FirstFormal => Ok(first_formal(alloc, pending, within, token)),
        Part::Formal(given) => Ok(next_formal(given, pending, within, token)),
        Part::Formed(given, name) => formed(given, name, pending, within, token),
        Part::Formals(given) => formals(alloc, given, pending, within, token),
        Part::Object => Ok(object(pending, within, token)),
        Part::Isa => Ok(isa(pending, within, token)),
        Part::Parent(name) => parent(alloc, name, pending, within, token),
        Part::FirstField(name) => first_field(alloc, name, pending, within, token),
        Part::Field(name, given) => Ok(next_field(name, given, pending, within, token)),
        Part::FieldName(parent, given, field) => field_name(
            Named {
                parent,
                given,
                field,
            },
            pending,
            within,
            token,
        ),
        Part::Resend => Ok(resend(pending, within, token)),
        Part::ResendOpen => Ok(resend_open(pending, within, token)),
        Part::ResendDots => Ok(resend_dots(pending, within, token)),
    }
}

/// Where a token leads. A number must be one that an expression can hold.
#[tactic(auto, unfolding(crate::specs::Machine::step))]
pub fn step(alloc: Global, state: State, token: Token) -> Result<Next, AllocError>
    requires { IsSmall token }
    ensures { IfOk result (λ next. next ≡ spec.step state token) }
{
    match state {
        State::Operand(pending, within) => operand(alloc, pending, within, token),
        State::Inside(part, pending, within) => inside(alloc, part, pending, within, token),
        State::Operated(pending, a, within) => after_operand(alloc, pending, a, within, token),
        State::Statement(block) => statement(alloc, block, token),
        State::Named(block, name) => named(alloc, block, name, token),
        State::Let(block) => Ok(after_let(block, token)),
        State::LetVar(block) => Ok(after_var(block, token)),
        State::Bound(block, is_variable, name) => Ok(bound(alloc, block, is_variable, name, token)),
        State::Closing(block) => closing(alloc, block, token),
    }
}
