//! The turn as a caller has it, in one thread and in two.
ghost use Rattle.std.specs.Prelude.{◌≡◌, ◌+◌, false, length};

use crate::{Logged, Took, Turn, TurnSeat};
use std::alloc::Global;
use std::sync::Wait;
use std::test::Fail;
use std::thread::join;

// The history of a number: it begins with 7, and each marked give adds 1. An item is the number of its seat.
impl Logged for u64 {
    type Item = u32;

    ghost use Rattle.std.specs.Prelude.{◌≡◌, ◌+◌, length};

    ghost stands = { λ number items. number ≡ 7 + length items };

    ghost seat = { λ number. number };
}

#[test]
fn value_is_handed_on(rt: HostRuntime) -> Result<(), Fail> {
    let alloc: Global = rt.alloc();
    let Ok((turn, mut first)) = Turn::new(alloc, 7u64) else {
        return Err("memory".into());
    };
    let mut second = turn.split(&mut first);
    assert!(&rt; first.number() == 0 && second.number() == 1);
    let Took::Held(seven) = turn.try_take(&mut first) else {
        return Err("it is free".into());
    };
    let Took::Busy(holder) = turn.try_take(&mut second) else {
        return Err("seat 0 has it".into());
    };
    if seven != 7 {
        return Err("the value as it was given".into());
    }
    turn.give(&mut first, 8, true);
    let count = turn.seen(&mut second);
    let Took::Held(eight) = turn.try_take(&mut second) else {
        return Err("it was given".into());
    };
    turn.give(&mut second, eight, false);
    turn.join(&mut first, second);
    let last = turn.close(first);
    assert!(&rt; holder == 0 && count == 1 && eight == 8 && last == 8);
    Ok(())
}

// Takes and gives a hundred times, and adds 1 each time.
fn take_turns<R: Wait>(rt: &R, turn: &Turn<u64>, mut seat: TurnSeat<u64>) -> TurnSeat<u64>
    requires own { seat.turn ≡ turn.now }
    requires free { seat.knows.holds ≡ false }
    ensures own { result.turn ≡ seat.turn }
    ensures free { result.knows.holds ≡ false }
    ensures same { result.knows.number ≡ seat.knows.number }
{
    for _ in 0..100 {
        let value = turn.take(rt, &mut seat);
        match value.checked_add(1) {
            Some(next) => turn.give(&mut seat, next, true),
            None => turn.give(&mut seat, value, false),
        }
    }
    seat
}

#[test]
fn two_threads_take_a_hundred_turns_each(rt: HostRuntime) -> Result<(), Fail> {
    let alloc: Global = rt.alloc();
    let Ok((turn, mut first)) = Turn::new(alloc, 7u64) else {
        return Err("memory".into());
    };
    let left = turn.split(&mut first);
    let right = turn.split(&mut first);
    let (left, right) = join(
        &rt,
        || take_turns(&rt, &turn, left),
        || take_turns(&rt, &turn, right),
    );
    turn.join(&mut first, left);
    turn.join(&mut first, right);
    let count = turn.seen(&mut first);
    let last = turn.close(first);
    assert!(&rt; count == 200 && last == 207);
    Ok(())
}
