//! The seats of a turn.
ghost use Rattle.std.specs.Prelude.{◌≡◌};

use crate::logged::Logged;
use crate::view::View;
use atomic_table::Seat;
use std::marker::Model;

/// With it a thread takes its turns. Contracts see of which turn it is (`turn`) and what it knows (`knows`, a `View`).
#[derive(Drop)]
pub struct TurnSeat<T: Logged> {
    pub(crate) number: u32,
    // the last number that this seat gave out
    pub(crate) last_number: u32,
    pub(crate) seat: Seat<Option<T>, View<T::Item>>,
}

impl<T: Logged> Model for TurnSeat<T> {
    ghost use Rattle.std.specs.Prelude.{◌≡◌, false};
    ghost use Rattle.vx_turn.specs.Turning.{SeatState, carried};

    ghost Value = { SeatState T.Item };

    ghost view = { λ s. record { turn = s.seat.table_id; knows = s.seat.me.0 } };

    ghost invariant = { λ s. (s.seat.me.0.number ≡ s.number) × (s.seat.me.0.last_number ≡ s.last_number)
        × (s.seat.me.0.spent ≡ false) × (s.seat.me.1 ≡ carried s.seat.me.0.holds) };
}

impl<T: Logged> TurnSeat<T> {
    /// The seat's number: 0 for the seat of `Turn::new`, and then as `Turn::split` gives them out.
    pub fn number(&self) -> u32
        ensures { result ≡ self.now.knows.number }
    {
        self.number
    }
}
