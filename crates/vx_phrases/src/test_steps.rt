//! One token of a test.
ghost use Rattle.std.specs.Prelude.{◌≡◌, [], ◌∷◌, pos, neg_ℤ, IfOk, MatchOption, is_some, ◌<◌, ◌^◌, length};
ghost use Rattle.vx_syntax.specs.Tests.{comparison, not_word, and_word, or_word};
ghost use Rattle.std.specs.Str.{bytes_eq};
ghost use Rattle.vx_bodies.specs.Machine.{IsSmall};
ghost use Rattle.vx_phrases.specs.TestMachine as spec;

use crate::test_state::{Pending, TestState};
use crate::words::is_short;
use sqlite_items::Boxed;
use std::alloc::{AllocError, Global};
use vx_bodies::Stack;
use vx_names::{Name, Operator};
use vx_syntax::{Compare, Mark, Test, Token, is_joining};

fn comparison(operator: Operator) -> Option<Compare>
    ensures { result ≡ comparison operator }
{
    match operator {
        Operator::Less => Some(Compare::Less),
        Operator::LessEqual => Some(Compare::AtMost),
        Operator::Greater => Some(Compare::More),
        Operator::GreaterEqual => Some(Compare::AtLeast),
        Operator::Equal => Some(Compare::Equal),
        _ => None,
    }
}

fn is_field(name: &Name) -> bool
    ensures { result ≡ spec.is_field name.now }
{
    !is_joining(name) && is_short(name)
}

fn nothing_pending() -> Pending
    ensures { result ≡ spec.nothing_pending }
{
    Pending {
        either: None,
        both: None,
        nots: 0,
    }
}

fn negated(alloc: Global, nots: u64, test: Test) -> Result<Test, AllocError>
    ensures { IfOk result (λ t. t ≡ spec.negated nots test) }
{
    let mut left = nots;
    let mut negated = test;
    while left > 0 {
        negated = Test::Not(Boxed::new(alloc, negated)?);
        left -= 1;
    }
    Ok(negated)
}

fn both(alloc: Global, before: Option<Boxed<Test>>, test: Test) -> Result<Test, AllocError>
    ensures { IfOk result (λ t. t ≡ spec.both before test) }
{
    match before {
        None => Ok(test),
        Some(before) => {
            let test = Boxed::new(alloc, test)?;
            Ok(Test::And(before, test))
        }
    }
}

fn either(alloc: Global, before: Option<Boxed<Test>>, test: Test) -> Result<Test, AllocError>
    ensures { IfOk result (λ t. t ≡ spec.either before test) }
{
    match before {
        None => Ok(test),
        Some(before) => {
            let test = Boxed::new(alloc, test)?;
            Ok(Test::Or(before, test))
        }
    }
}

fn operand_read(
    alloc: Global,
    pending: Pending,
    brackets: Stack<Pending>,
    test: Test,
) -> Result<TestState, AllocError>
    ensures { IfOk result (λ next. next ≡ spec.operand_read pending brackets test) }
{
    let Pending {
        either,
        both: before,
        nots,
    } = pending;
    let test = negated(alloc, nots, test)?;
    let test = both(alloc, before, test)?;
    Ok(TestState::Joined(either, brackets, test))
}

// The count of `not`s never passes 64 bits, since a block has fewer tokens than that. This machine alone doesn't know it:
// each contract from here up to the reader's loop would have to say how many tokens are read, and each state to keep it. So
// a count that doesn't fit is answered as want of memory is.
fn one_more_not(pending: Pending) -> Result<Pending, AllocError>
    ensures { IfOk result (λ p. p ≡ spec.one_more_not pending) }
{
    let Pending { either, both, nots } = pending;
    match nots.checked_add(1) {
        Some(nots) => Ok(Pending { either, both, nots }),
        None => Err(AllocError),
    }
}

fn operand_word(
    pending: Pending,
    brackets: Stack<Pending>,
    name: Name,
) -> Result<Option<TestState>, AllocError>
    ensures { IfOk result (λ next. next ≡ spec.operand_word pending brackets name) }
{
    if name.bytes() == b"not".as_slice() {
        Ok(Some(TestState::Operand(one_more_not(pending)?, brackets)))
    } else if is_field(&name) {
        Ok(Some(TestState::Field(pending, brackets, name)))
    } else {
        Ok(None)
    }
}

fn open(pending: Pending, mut brackets: Stack<Pending>) -> Result<TestState, AllocError>
    ensures { IfOk result (λ next. next ≡ TestState.Operand spec.nothing_pending (pending ∷ brackets)) }
{
    brackets.push(pending)?;
    Ok(TestState::Operand(nothing_pending(), brackets))
}

fn operand(
    pending: Pending,
    brackets: Stack<Pending>,
    token: Token,
) -> Result<Option<TestState>, AllocError>
    ensures { IfOk result (λ next. next ≡ spec.operand pending brackets token) }
{
    match token {
        Token::Word(name) => operand_word(pending, brackets, name),
        Token::Mark(Mark::Open) => Ok(Some(open(pending, brackets)?)),
        _ => Ok(None),
    }
}

fn compared(
    pending: Pending,
    brackets: Stack<Pending>,
    name: Name,
    operator: Operator,
) -> Option<TestState>
    ensures { result ≡ spec.compared pending brackets name (comparison operator) }
{
    match comparison(operator) {
        Some(how) => Some(TestState::Compared(pending, brackets, name, how)),
        None => None,
    }
}

fn field(pending: Pending, brackets: Stack<Pending>, name: Name, token: Token) -> Option<TestState>
    ensures { result ≡ spec.field pending brackets name token }
{
    match token {
        Token::Operator(operator) => compared(pending, brackets, name, operator),
        _ => None,
    }
}

/// A field and how it is compared.
#[derive(Drop)]
struct Side {
    name: Name,
    how: Compare,
}

fn positive(
    alloc: Global,
    pending: Pending,
    brackets: Stack<Pending>,
    side: Side,
    n: u128,
) -> Result<TestState, AllocError>
    requires { n < 2 ^ 127 }
    ensures { IfOk result (λ next. next ≡ spec.operand_read pending brackets (Test.Compare side.name side.how (pos n))) }
{
    operand_read(
        alloc,
        pending,
        brackets,
        Test::Compare(side.name, side.how, n as i128),
    )
}

fn negative(
    alloc: Global,
    pending: Pending,
    brackets: Stack<Pending>,
    side: Side,
    n: u128,
) -> Result<TestState, AllocError>
    requires { n < 2 ^ 127 }
    ensures { IfOk result (λ next. next ≡ spec.operand_read pending brackets (Test.Compare side.name side.how (neg_ℤ (pos n)))) }
{
    operand_read(
        alloc,
        pending,
        brackets,
        Test::Compare(side.name, side.how, -(n as i128)),
    )
}

fn number(
    alloc: Global,
    pending: Pending,
    brackets: Stack<Pending>,
    side: Side,
    token: Token,
) -> Result<Option<TestState>, AllocError>
    requires { IsSmall token }
    ensures { IfOk result (λ next. next ≡ spec.number pending brackets side.name side.how token) }
{
    match token {
        Token::Number(n) => Ok(Some(positive(alloc, pending, brackets, side, n)?)),
        Token::Operator(Operator::Minus) => Ok(Some(TestState::Signed(
            pending, brackets, side.name, side.how,
        ))),
        _ => Ok(None),
    }
}

fn signed(
    alloc: Global,
    pending: Pending,
    brackets: Stack<Pending>,
    side: Side,
    token: Token,
) -> Result<Option<TestState>, AllocError>
    requires { IsSmall token }
    ensures { IfOk result (λ next. next ≡ spec.signed pending brackets side.name side.how token) }
{
    match token {
        Token::Number(n) => Ok(Some(negative(alloc, pending, brackets, side, n)?)),
        _ => Ok(None),
    }
}

fn and(
    alloc: Global,
    before: Option<Boxed<Test>>,
    brackets: Stack<Pending>,
    test: Test,
) -> Result<TestState, AllocError>
    ensures { IfOk result (λ next. next ≡ TestState.Operand (record { either = before; both = Some test; nots = 0 }) brackets) }
{
    let test = Boxed::new(alloc, test)?;
    Ok(TestState::Operand(
        Pending {
            either: before,
            both: Some(test),
            nots: 0,
        },
        brackets,
    ))
}

fn or(
    alloc: Global,
    before: Option<Boxed<Test>>,
    brackets: Stack<Pending>,
    test: Test,
) -> Result<TestState, AllocError>
    ensures { IfOk result (λ next. next ≡ TestState.Operand (record { either = Some (spec.either before test); both = None; nots = 0 }) brackets) }
{
    let test = Boxed::new(alloc, either(alloc, before, test)?)?;
    Ok(TestState::Operand(
        Pending {
            either: Some(test),
            both: None,
            nots: 0,
        },
        brackets,
    ))
}

fn joining_word(
    alloc: Global,
    before: Option<Boxed<Test>>,
    brackets: Stack<Pending>,
    test: Test,
    name: Name,
) -> Result<Option<TestState>, AllocError>
    ensures { IfOk result (λ next. next ≡ spec.joining_word before brackets test name) }
{
    if name.bytes() == b"and".as_slice() {
        Ok(Some(and(alloc, before, brackets, test)?))
    } else if name.bytes() == b"or".as_slice() {
        Ok(Some(or(alloc, before, brackets, test)?))
    } else {
        Ok(None)
    }
}

fn closed(
    alloc: Global,
    before: Option<Boxed<Test>>,
    mut brackets: Stack<Pending>,
    test: Test,
) -> Result<Option<TestState>, AllocError>
    ensures { IfOk result (λ next. next ≡ spec.closed brackets (spec.either before test)) }
{
    match brackets.pop() {
        Some(pending) => {
            let test = either(alloc, before, test)?;
            Ok(Some(operand_read(alloc, pending, brackets, test)?))
        }
        None => Ok(None),
    }
}

fn joined(
    alloc: Global,
    before: Option<Boxed<Test>>,
    brackets: Stack<Pending>,
    test: Test,
    token: Token,
) -> Result<Option<TestState>, AllocError>
    ensures { IfOk result (λ next. next ≡ spec.joined before brackets test token) }
{
    match token {
        Token::Word(name) => joining_word(alloc, before, brackets, test, name),
        Token::Mark(Mark::Close) => closed(alloc, before, brackets, test),
        _ => Ok(None),
    }
}

/// The state before the first token of a test.
pub fn test_begun(alloc: Global) -> TestState
    ensures { result ≡ spec.test_begun }
{
    TestState::Operand(nothing_pending(), Stack::new(alloc))
}

/// The state after the token, and None where no test goes on with it.
#[tactic(auto, unfolding(crate::specs::TestMachine::test_step))]
pub fn test_step(
    alloc: Global,
    state: TestState,
    token: Token,
) -> Result<Option<TestState>, AllocError>
    requires { IsSmall token }
    ensures { IfOk result (λ next. next ≡ spec.test_step state token) }
{
    match state {
        TestState::Operand(pending, brackets) => operand(pending, brackets, token),
        TestState::Field(pending, brackets, name) => Ok(field(pending, brackets, name, token)),
        TestState::Compared(pending, brackets, name, how) => number(
            alloc,
            pending,
            brackets,
            Side { name, how },
            token,
        ),
        TestState::Signed(pending, brackets, name, how) => signed(
            alloc,
            pending,
            brackets,
            Side { name, how },
            token,
        ),
        TestState::Joined(before, brackets, test) => joined(alloc, before, brackets, test, token),
    }
}

fn whole(
    alloc: Global,
    before: Option<Boxed<Test>>,
    brackets: Stack<Pending>,
    test: Test,
) -> Result<Option<Test>, AllocError>
    ensures { IfOk result (λ whole. whole ≡ spec.whole before brackets test) }
{
    if brackets.len() == 0 {
        Ok(Some(either(alloc, before, test)?))
    } else {
        Ok(None)
    }
}

/// The test that is read, and None where more is needed.
#[tactic(auto, unfolding(crate::specs::TestMachine::test_finished))]
pub fn test_finished(alloc: Global, state: TestState) -> Result<Option<Test>, AllocError>
    ensures { IfOk result (λ test. test ≡ spec.test_finished state) }
{
    match state {
        TestState::Joined(before, brackets, test) => whole(alloc, before, brackets, test),
        state => {
            drop(state);
            Ok(None)
        }
    }
}

/// Whether the test may end here.
#[tactic(auto, unfolding(crate::specs::TestMachine::test_finished))]
pub fn test_may_end(state: &TestState) -> bool
    ensures { result ≡ is_some (spec.test_finished state.now) }
{
    match state {
        TestState::Joined(_, brackets, _) => brackets.len() == 0,
        _ => false,
    }
}
