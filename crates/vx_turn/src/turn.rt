//! The turn and its calls.
ghost use Rattle.std.specs.Prelude.{◌≡◌, ◌<◌, ◌≤◌, [], true, false, length, IfOk, IfErr};
ghost use Rattle.vx_turn.specs.Turning.{HasTakenLate, HasTried, MayGive, HasGiven, HasSeen, HasClosed, AllBack};
ghost use Rattle.vx_turn.specs.Turning.{fresh_view, after_split, split_off, after_join};

use crate::logged::Logged;
use crate::rule::{CountsItem, FreesOwner, GivesNumbers, LoadsCount, TakesOwner, TurnRule};
use crate::seat::TurnSeat;
use crate::took::Took;
use crate::view::View;
use atomic_table::{Refused, Table};
use std::alloc::{AllocError, AllocFailed, Global};
use std::marker::Model;
use std::sync::Wait;
use std::thread;

/// A value that one seat has at a time. It may be lent to any number of threads; what they learn of one another, their
/// seats say. Contracts see of it which turn it is, and each call asks that its seats be of this one.
#[derive(Drop)]
pub struct Turn<T: Logged> {
    // word 0 is the owner, word 1 the count of items, and the one slot has the value
    table: Table<Option<T>, View<T::Item>, (), TurnRule<T>, Global>,
}

impl<T: Logged> Model for Turn<T> {
    ghost use Rattle.std.specs.Prelude.{◌≡◌};
    ghost use Rattle.atomic_table.specs.Seated.{TableId};

    ghost Value = { TableId };

    ghost view = { λ turn. turn.table.shared.table_id };

    ghost invariant = { λ turn. (turn.table.shared.table_id.words ≡ 2) × (turn.table.shared.table_id.slots ≡ 1) };
}

impl<T: Logged> Turn<T> {
    /// A turn with this value, which has no items yet, and its seat 0. The value comes back where memory is wanting.
    pub fn new(alloc: Global, value: T) -> Result<(Turn<T>, TurnSeat<T>), (T, AllocError)>
        requires { T.stands value [] }
        ensures ok { IfOk result (λ made. (made.1.turn ≡ made.0) × (made.1.knows ≡ fresh_view 0 [])) }
        ensures err { IfErr result (λ refused. refused.0 ≡ value) }
    {
        let mut slots = Vec::new(alloc);
        if let Err(AllocFailed { value: slot }) = slots.push(Some(value)) {
            slots.destroy_empty();
            return match slot {
                Some(value) => Err((value, AllocError)),
                None => unreachable!(),
            };
        }
        match Table::new(alloc, &[0, 0], slots, &()) {
            Ok((table, seat)) => {
                let seat = TurnSeat {
                    number: 0,
                    last_number: 0,
                    seat,
                };
                Ok((Turn { table }, seat))
            }
            Err(Refused { slots: mut back }) => {
                let slot = back.pop();
                back.destroy_empty();
                match slot {
                    Some(Some(value)) => Err((value, AllocError)),
                    _ => unreachable!(),
                }
            }
        }
    }

    /// Takes the turn if it is free. One compare and exchange decides, and it is never tried again: `Busy` names the holder
    /// that it found. A seat that holds the turn must not ask.
    pub fn try_take(&self, seat: &mut TurnSeat<T>) -> Took<T>
        requires own { seat.old.turn ≡ self.now }
        requires free { seat.old.knows.holds ≡ false }
        ensures own { seat.new.turn ≡ seat.old.turn }
        ensures tried { HasTried T.stands T.seat result seat.old.knows seat.new.knows }
    {
        let mine = u64::from(seat.number) + 1;
        let table = &self.table.shared;
        let found = table.compare_exchange::<TakesOwner>(&mut seat.seat, 0, 0, mine);
        if found == 0 {
            match table.exchange(&mut seat.seat, 0, None) {
                Some(value) => Took::Held(value),
                None => unreachable!(),
            }
        } else {
            Took::Busy((found - 1) as u32)
        }
    }

    /// Takes the turn, and tries until it is free; between two tries it lets other threads run. It may wait for ever.
    pub fn take<R: Wait>(&self, rt: &R, seat: &mut TurnSeat<T>) -> T
        requires own { seat.old.turn ≡ self.now }
        requires free { seat.old.knows.holds ≡ false }
        ensures own { seat.new.turn ≡ seat.old.turn }
        ensures taken { HasTakenLate T.stands T.seat result seat.old.knows seat.new.knows }
    {
        for _ in rt.forever() {
            match self.try_take(seat) {
                Took::Held(value) => return value,
                Took::Busy(_) => thread::yield_now(),
            }
        }
        unreachable!()
    }

    /// Gives the turn back, with a value that stands for the history as it was taken or, where the give is marked, with one
    /// more item of this seat.
    pub fn give(&self, seat: &mut TurnSeat<T>, value: T, marked: bool)
        requires own { seat.old.turn ≡ self.now }
        requires holds { seat.old.knows.holds ≡ true }
        requires fits { MayGive T.stands T.seat marked value seat.old.knows }
        ensures own { seat.new.turn ≡ seat.old.turn }
        ensures given { HasGiven T.stands T.seat marked value seat.old.knows seat.new.knows }
    {
        let table = &self.table.shared;
        // The value goes into the slot before the count rises: what that step tells is about the value in the slot.
        let before = table.exchange(&mut seat.seat, 0, Some(value));
        let None = before else { unreachable!() };
        if marked {
            table.fetch_add::<CountsItem>(&mut seat.seat, 1, 1);
        }
        table.swap::<FreesOwner>(&mut seat.seat, 0, 0);
    }

    /// How many items the history has: at least as many as the seat had seen, and now it has seen these.
    pub fn seen(&self, seat: &mut TurnSeat<T>) -> u64
        requires own { seat.old.turn ≡ self.now }
        ensures own { seat.new.turn ≡ seat.old.turn }
        ensures seen { HasSeen T.stands T.seat result seat.old.knows seat.new.knows }
        ensures more { length seat.old.knows.seen ≤ result }
    {
        self.table.shared.load::<LoadsCount>(&mut seat.seat, 1)
    }

    /// A seat with the next number, for another thread. Only seat 0 gives out numbers, up to 2^32 - 1; the new seat has seen
    /// what seat 0 has.
    pub fn split(&self, seat: &mut TurnSeat<T>) -> TurnSeat<T>
        requires own { seat.old.turn ≡ self.now }
        requires first { seat.old.knows.number ≡ 0 }
        requires room { seat.old.knows.last_number < 4294967295 }
        ensures own { (seat.new.turn ≡ seat.old.turn) × (result.turn ≡ seat.old.turn) }
        ensures old { seat.new.knows ≡ after_split seat.old.knows }
        ensures new { result.knows ≡ split_off seat.old.knows }
    {
        seat.last_number += 1;
        let other = self.table.shared.split_seat::<GivesNumbers>(&mut seat.seat);
        TurnSeat {
            number: seat.last_number,
            last_number: 0,
            seat: other,
        }
    }

    /// Ends a seat that does not hold the turn. Seat 0 keeps its number and its items.
    pub fn join(&self, into: &mut TurnSeat<T>, from: TurnSeat<T>)
        requires own { (into.old.turn ≡ self.now) × (from.turn ≡ self.now) }
        requires first { into.old.knows.number ≡ 0 }
        requires free { from.knows.holds ≡ false }
        ensures own { into.new.turn ≡ into.old.turn }
        ensures joined { into.new.knows ≡ after_join into.old.knows from.knows }
    {
        let TurnSeat {
            number: _,
            last_number: _,
            seat,
        } = from;
        self.table
            .shared
            .join_seat::<GivesNumbers>(&mut into.seat, seat);
    }

    /// The value, once every other seat was joined: then nobody can hold the turn. It stands for the whole history.
    pub fn close(self, seat: TurnSeat<T>) -> T
        requires own { seat.turn ≡ self }
        requires first { seat.knows.number ≡ 0 }
        requires free { seat.knows.holds ≡ false }
        requires back { AllBack seat.knows }
        ensures { HasClosed T.stands T.seat result seat.knows }
    {
        let Turn { table } = self;
        let TurnSeat {
            number: _,
            last_number: _,
            seat,
        } = seat;
        let mut closed = table.close_with(seat);
        let slot = closed.take(0);
        closed.free();
        match slot {
            Some(value) => value,
            None => unreachable!(),
        }
    }
}
