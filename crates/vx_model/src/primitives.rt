//! What the primitive methods do.
ghost use Rattle.std.specs.Prelude.{◌≡◌, ◌+ℤ◌, ◌-ℤ◌, ◌*ℤ◌, List, ok_or, option_map, IfOk};
ghost use Rattle.vx_syntax.specs.declared.decl.Decl.{Decl};
ghost use Rattle.vx_model.specs.Values.{truth};
ghost use Rattle.vx_model.specs.Primitives.{Add, Subtract, Multiply, Divide, Remainder, Less, SameNumber, SameString, Join, number, divided, remainder, same_value, two_numbers, two_strings, same, print_number, print_string, evaluate, repeat, deed, numbered, performed};

use crate::objects::truth;
use crate::report::RunError;
use crate::value::{Value, copy_values};
use sqlite_items::Items;
use std::alloc::{AllocError, Global};
use vx_program::Program;

/// The most bytes of a string at run time.
pub const STRING_BYTES: usize = 65_536;

/// Why two numbers come to none.
#[derive(Clone, Copy, Debug, PartialEq, Eq)]
pub enum NoNumber {
    /// The number has more than 128 bits.
    TooLarge,
    /// They are to be divided, and the second is 0.
    ByZero,
}

/// What a primitive does, whatever the heap.
#[derive(Drop)]
pub enum Deed {
    /// It answers.
    Answers(Value),
    /// It prints a line and answers nil.
    Prints(Items<u8>),
    /// It fails.
    Breaks(RunError),
    /// The closure at this place is to be evaluated with arguments.
    Evaluates(u64, Items<Value>),
    /// The closure at this place is to be evaluated again and again.
    Repeats(u64),
    /// It lacks something: its arguments are not of its classes, which no lookup allows.
    Lacks,
}

impl Deed {
    pub fn copy(&self, alloc: Global) -> Result<Deed, AllocError>
        ensures { IfOk result (λ what. what ≡ self.now) }
    {
        match self {
            Deed::Answers(value) => Ok(Deed::Answers(value.copy(alloc)?)),
            Deed::Prints(line) => Ok(Deed::Prints(Items::from_slice(alloc, line.as_slice())?)),
            Deed::Breaks(error) => Ok(Deed::Breaks(error.copy(alloc)?)),
            Deed::Evaluates(place, values) => {
                let values = copy_values(alloc, values.as_slice())?;
                Ok(Deed::Evaluates(*place, values))
            }
            Deed::Repeats(place) => Ok(Deed::Repeats(*place)),
            Deed::Lacks => Ok(Deed::Lacks),
        }
    }
}

/// What the primitive of the number does with these arguments.
pub fn perform(
    alloc: Global,
    program: &Program,
    number: usize,
    values: &[Value],
) -> Result<Deed, AllocError>
    ensures { IfOk result (λ what. what ≡ performed (truth program.now) number values.now) }
{
    match number {
        0 => Ok(added(values)),
        1 => Ok(subtracted(values)),
        2 => Ok(multiplied(values)),
        3 => Ok(divided(values)),
        4 => Ok(remainder(values)),
        5 => Ok(less(program, values)),
        6 => Ok(same_number(program, values)),
        7 => Ok(same_string(program, values)),
        8 => joined(alloc, values),
        9 => Ok(same(program, values)),
        10 => print_number(alloc, values),
        11 => print_string(alloc, values),
        12 => evaluate(alloc, values),
        13 => evaluate(alloc, values),
        14 => evaluate(alloc, values),
        15 => evaluate(alloc, values),
        16 => evaluate(alloc, values),
        17 => Ok(repeat(values)),
        _ => Ok(Deed::Lacks),
    }
}

fn two_numbers(values: &[Value]) -> Option<(i128, i128)>
    ensures { result ≡ two_numbers values.now }
{
    match values {
        [Value::Int(a), Value::Int(b)] => Some((*a, *b)),
        _ => None,
    }
}

fn added(values: &[Value]) -> Deed
    ensures { (program : List Decl) → result ≡ deed program Add values.now }
{
    match two_numbers(values) {
        Some((a, b)) => numbered(sum(a, b)),
        None => Deed::Lacks,
    }
}

fn subtracted(values: &[Value]) -> Deed
    ensures { (program : List Decl) → result ≡ deed program Subtract values.now }
{
    match two_numbers(values) {
        Some((a, b)) => numbered(difference(a, b)),
        None => Deed::Lacks,
    }
}

fn multiplied(values: &[Value]) -> Deed
    ensures { (program : List Decl) → result ≡ deed program Multiply values.now }
{
    match two_numbers(values) {
        Some((a, b)) => numbered(product(a, b)),
        None => Deed::Lacks,
    }
}

fn divided(values: &[Value]) -> Deed
    ensures { (program : List Decl) → result ≡ deed program Divide values.now }
{
    match two_numbers(values) {
        Some((a, b)) => numbered(quotient(a, b)),
        None => Deed::Lacks,
    }
}

fn remainder(values: &[Value]) -> Deed
    ensures { (program : List Decl) → result ≡ deed program Remainder values.now }
{
    match two_numbers(values) {
        Some((a, b)) => numbered(rest(a, b)),
        None => Deed::Lacks,
    }
}

fn less(program: &Program, values: &[Value]) -> Deed
    ensures { result ≡ deed program.now Less values.now }
{
    match two_numbers(values) {
        Some((a, b)) => Deed::Answers(truth(program, a < b)),
        None => Deed::Lacks,
    }
}

fn same_number(program: &Program, values: &[Value]) -> Deed
    ensures { result ≡ deed program.now SameNumber values.now }
{
    match two_numbers(values) {
        Some((a, b)) => Deed::Answers(truth(program, a == b)),
        None => Deed::Lacks,
    }
}

// What comes of a number, or of why there is none.
fn numbered(number: Result<i128, NoNumber>) -> Deed
    ensures { result ≡ numbered number }
{
    match number {
        Ok(n) => Deed::Answers(Value::Int(n)),
        Err(NoNumber::TooLarge) => Deed::Breaks(RunError::Overflow),
        Err(NoNumber::ByZero) => Deed::Breaks(RunError::DivideByZero),
    }
}

fn fitting(number: Option<i128>) -> Result<i128, NoNumber>
    ensures { result ≡ ok_or number NoNumber.TooLarge }
{
    match number {
        Some(n) => Ok(n),
        None => Err(NoNumber::TooLarge),
    }
}

/// What two numbers come to together.
pub fn sum(a: i128, b: i128) -> Result<i128, NoNumber>
    ensures { numbered result ≡ number (a +ℤ b) }
{
    fitting(a.checked_add(b))
}

/// What the first number is without the second.
pub fn difference(a: i128, b: i128) -> Result<i128, NoNumber>
    ensures { numbered result ≡ number (a -ℤ b) }
{
    fitting(a.checked_sub(b))
}

/// The first number times the second.
pub fn product(a: i128, b: i128) -> Result<i128, NoNumber>
    ensures { numbered result ≡ number (a *ℤ b) }
{
    fitting(a.checked_mul(b))
}

/// How often the second number goes into the first, cut off towards zero.
pub fn quotient(a: i128, b: i128) -> Result<i128, NoNumber>
    ensures { numbered result ≡ divided a b }
{
    if b == 0 {
        return Err(NoNumber::ByZero);
    }
    fitting(a.checked_div(b))
}

/// What division leaves of the first number; it is 0 for the divisor -1 even where the quotient would not fit.
pub fn rest(a: i128, b: i128) -> Result<i128, NoNumber>
    ensures { numbered result ≡ remainder a b }
{
    if b == 0 {
        return Err(NoNumber::ByZero);
    }
    if b == -1 {
        return Ok(0);
    }
    Ok(a % b)
}

fn two_strings(values: &[Value]) -> Option<(&[u8], &[u8])>
    ensures { option_map (λ ab. (ab.0.now, ab.1.now)) result ≡ two_strings values.now }
{
    match values {
        [Value::Text(a), Value::Text(b)] => Some((a.as_slice(), b.as_slice())),
        _ => None,
    }
}

fn same_string(program: &Program, values: &[Value]) -> Deed
    ensures { result ≡ deed program.now SameString values.now }
{
    match two_strings(values) {
        Some((a, b)) => Deed::Answers(truth(program, a == b)),
        None => Deed::Lacks,
    }
}

fn joined(alloc: Global, values: &[Value]) -> Result<Deed, AllocError>
    ensures { IfOk result (λ what. (program : List Decl) → what ≡ deed program Join values.now) }
{
    let Some((a, b)) = two_strings(values) else {
        return Ok(Deed::Lacks);
    };
    if a.len() > STRING_BYTES || b.len() > STRING_BYTES - a.len() {
        return Ok(Deed::Breaks(RunError::StringLimit));
    }
    let mut bytes = Vec::from_slice(alloc, a)?;
    bytes.extend_from_slice(b)?;
    Ok(Deed::Answers(Value::Text(Items::from_vec(bytes))))
}

// Whether two values are the same number, the same bytes, the same closure or the same object.
fn same_value(a: &Value, b: &Value) -> bool
    ensures { result ≡ same_value a.now b.now }
{
    match (a, b) {
        (Value::Int(a), Value::Int(b)) => a == b,
        (Value::Text(a), Value::Text(b)) => a.as_slice() == b.as_slice(),
        (Value::Closure(a), Value::Closure(b)) => a == b,
        (Value::Object(a), Value::Object(b)) => a == b,
        _ => false,
    }
}

fn same(program: &Program, values: &[Value]) -> Deed
    ensures { result ≡ same (truth program.now) values.now }
{
    match values {
        [a, b] => Deed::Answers(truth(program, same_value(a, b))),
        _ => Deed::Lacks,
    }
}

fn print_number(alloc: Global, values: &[Value]) -> Result<Deed, AllocError>
    ensures { IfOk result (λ what. what ≡ print_number values.now) }
{
    match values {
        [Value::Int(n)] => {
            let mut line = Vec::new(alloc);
            line.extend_from_slice(format!(in alloc; "{n}")?.as_bytes())?;
            Ok(Deed::Prints(Items::from_vec(line)))
        }
        _ => Ok(Deed::Lacks),
    }
}

fn print_string(alloc: Global, values: &[Value]) -> Result<Deed, AllocError>
    ensures { IfOk result (λ what. what ≡ print_string values.now) }
{
    match values {
        [Value::Text(bytes)] => {
            let line = Items::from_slice(alloc, bytes.as_slice())?;
            Ok(Deed::Prints(line))
        }
        _ => Ok(Deed::Lacks),
    }
}

fn evaluate(alloc: Global, values: &[Value]) -> Result<Deed, AllocError>
    ensures { IfOk result (λ what. what ≡ evaluate values.now) }
{
    match values {
        [Value::Closure(place), arguments @ ..] => {
            Ok(Deed::Evaluates(*place, copy_values(alloc, arguments)?))
        }
        _ => Ok(Deed::Lacks),
    }
}

fn repeat(values: &[Value]) -> Deed
    ensures { result ≡ repeat values.now }
{
    match values {
        [Value::Closure(place)] => Deed::Repeats(*place),
        _ => Deed::Lacks,
    }
}
