//! The rule of a turn's table, and what its steps tell.
use crate::logged::Logged;
use crate::view::View;
use atomic_table::{Join, Play, Split, TableRule};
use std::marker::PhantomData;

/// What holds of the words, the slot and the seats of a turn between any two atomic steps (`RuleHolds`).
pub struct TurnRule<T> {
    value: PhantomData<T>,
}

impl<T: Logged> TableRule<Option<T>, View<T::Item>, ()> for TurnRule<T> {
    ghost use Rattle.std.specs.Prelude.{[]};
    ghost use Rattle.vx_turn.specs.Turning.{RuleHolds, fresh_view};

    ghost holds = { λ _ state. RuleHolds T.stands T.seat state };

    ghost first = { λ _. fresh_view 0 [] };
}

/// The compare and exchange that takes the owner word, and the slot with it.
pub(crate) struct TakesOwner;

impl<T: Logged> Play<Option<T>, View<T::Item>> for TakesOwner {
    ghost use Rattle.vx_turn.specs.Turning.{TakeTells};

    ghost then = { λ _. TakeTells T.stands T.seat };
}

/// The addition to the count, by a marked give.
pub(crate) struct CountsItem;

impl<T: Logged> Play<Option<T>, View<T::Item>> for CountsItem {
    ghost use Rattle.vx_turn.specs.Turning.{MarkTells};

    ghost then = { λ _. MarkTells T.stands T.seat };
}

/// The swap that frees the owner word, and gives the slot back.
pub(crate) struct FreesOwner;

impl<T: Logged> Play<Option<T>, View<T::Item>> for FreesOwner {
    ghost use Rattle.vx_turn.specs.Turning.{FreeTells};

    ghost then = { λ _. FreeTells };
}

/// The load of the count.
pub(crate) struct LoadsCount;

impl<T: Logged> Play<Option<T>, View<T::Item>> for LoadsCount {
    ghost use Rattle.vx_turn.specs.Turning.{LoadTells};

    ghost then = { λ _. LoadTells T.stands T.seat };
}

/// What becomes of views where a seat is split off seat 0, or joined into it.
pub(crate) struct GivesNumbers;

impl<I> Split<View<I>> for GivesNumbers {
    ghost use Rattle.vx_turn.specs.Turning.{after_split, split_off};

    ghost left = { after_split };

    ghost right = { split_off };
}

impl<I> Join<View<I>> for GivesNumbers {
    ghost use Rattle.vx_turn.specs.Turning.{after_join, spent_view};

    ghost both = { after_join };

    ghost spent = { spent_view };
}
