//! When values count as objects.
ghost use Rattle.std.specs.Prelude.{◌≡◌, ◌||◌, not};
ghost use Rattle.std.specs.List.{list_all};
ghost use Rattle.std.specs.Option.{option_copied};
ghost use Rattle.vx_model.specs.Order.{is_above};
ghost use Rattle.vx_model.specs.Holds.{class_of, compares, has_number, is_number, is_true, lets_hold, holds};

use vx_model::{Above, Heap, Value, field_at, is_above, slot_of};
use vx_names::{FieldKey, Name};
use vx_program::{Program, chains_are_found};
use vx_syntax::{Compare, Decl, Test};

/// The bytes of the name of a value's class: none, which no name has, where it is the number of an object that is not there.
pub fn class_of<'a>(heap: &'a Heap, value: &Value) -> &'a [u8]
    ensures { result.now ≡ class_of heap.now value.now }
{
    match value {
        Value::Int(_) => b"int",
        Value::Text(_) => b"string",
        Value::Closure(_) => b"closure",
        Value::Object(place) => match heap.objects.as_slice().get(*place as usize) {
            Some(thing) => thing.class.bytes(),
            None => &[],
        },
    }
}

/// Whether the value counts as the object or predicate, in the heap as it is. It takes no memory, and looks at each parent
/// once (Chambers, Predicate Classes).
pub fn holds(program: &Program, heap: &Heap, value: &Value, object: &Name) -> bool
    ensures { result ≡ holds program.now heap.now value.now object.now }
{
    chains_are_found();
    let Some(place) = program.place(object.bytes()) else {
        return false;
    };
    match &program.declarations()[place] {
        Decl::Object { .. } => is_above(program, class_of(heap, value), object.bytes()),
        _ => holds_all(program, heap, value, object),
    }
}

// Whether nothing that is above the object stands in the way.
fn holds_all(program: &Program, heap: &Heap, value: &Value, object: &Name) -> bool
    ensures { result ≡ list_all (λ decl. not (is_above program.now object.now decl) || lets_hold program.now heap.now value.now decl) program.now }
{
    let above = Above::new(program, object.bytes());
    let class = Above::new(program, class_of(heap, value));
    for (place, decl) in program.declarations().iter().enumerate() {
        if above.has(place) && !lets_hold(program, &class, heap, value, decl) {
            return false;
        }
    }
    true
}

fn lets_hold(program: &Program, class: &Above<'_>, heap: &Heap, value: &Value, decl: &Decl) -> bool
    requires { class.now ≡ (program.now, class_of heap.now value.now) }
    ensures { result ≡ lets_hold program.now heap.now value.now decl.now }
{
    match decl {
        Decl::Object { name, .. } => class.leads_to(name.bytes()),
        Decl::Predicate { test, .. } => is_true(program, heap, value, test),
        _ => true,
    }
}

// Whether the test is true of the value.
fn is_true(program: &Program, heap: &Heap, value: &Value, test: &Test) -> bool
    ensures { result ≡ is_true program.now heap.now value.now test.now }
{
    match test {
        Test::Compare(name, how, n) => {
            has_number(
                heap,
                value,
                *how,
                *n,
                field_at(program, class_of(heap, value), name),
            )
        }
        Test::And(a, b) => {
            is_true(program, heap, value, a.get()) && is_true(program, heap, value, b.get())
        }
        Test::Or(a, b) => {
            is_true(program, heap, value, a.get()) || is_true(program, heap, value, b.get())
        }
        Test::Not(a) => !is_true(program, heap, value, a.get()),
    }
}

// Whether the value has the field, and in it an integer that compares so with the number.
fn has_number(heap: &Heap, value: &Value, how: Compare, n: i128, key: Option<&FieldKey>) -> bool
    ensures { result ≡ has_number heap.now value.now how n (option_copied key.entry) }
{
    match key {
        Some(key) => match slot_of(heap, value, key) {
            Some(Value::Int(own)) => compares(how, *own, n),
            _ => false,
        },
        None => false,
    }
}

fn compares(how: Compare, a: i128, b: i128) -> bool
    ensures { result ≡ compares how a b }
{
    match how {
        Compare::Less => a < b,
        Compare::AtMost => a <= b,
        Compare::More => a > b,
        Compare::AtLeast => a >= b,
        Compare::Equal => a == b,
    }
}
