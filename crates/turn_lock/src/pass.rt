ghost use Rattle.std.specs.Prelude.{◌≡◌};
ghost use Rattle.turn_lock.specs.Entries.{least_of};

use crate::kept::Kept;
use crate::rule::TurnSeat;
use std::marker::Model;

/// The right to take turns of one lock, under numbers of its own.
///
/// It acts under the least of its numbers. Where a pass is dropped its numbers go with it, so its
/// lock can't be closed any more. It can be dropped.
#[derive(Drop)]
pub struct Pass<T: Kept> {
    pub(crate) seat: TurnSeat<T>,
    pub(crate) least: u32,
    pub(crate) count: u32,
}

impl<T: Kept> Model for Pass<T> {
    ghost use Rattle.turn_lock.specs.Seen.{SeenPass};
    ghost use Rattle.turn_lock.specs.Rule.{IsOutside, Counts};

    ghost Value = { SeenPass T.Opening T.Entry };

    ghost view = { λ p. record { lock = record { table = p.seat.table_id; start = p.seat.me.0.start }; rows = p.seat.me.0.rows; seen = p.seat.me.0.seen } };

    ghost invariant = { λ p. IsOutside p.seat.me × Counts p.seat.me p.least p.count };
}

impl<T: Kept> Pass<T> {
    /// The least of the pass's numbers, under which its entries have to be added.
    pub fn least(&self) -> u32
        ensures { result ≡ least_of self.now.rows }
    {
        self.least
    }
}

/// A pass while its value is out of the lock.
///
/// `leave` makes it a pass again. Where it is dropped, nobody's turn comes any more, and the value
/// that was taken out stays with whoever has it.
#[derive(Drop)]
pub struct Held<T: Kept> {
    pub(crate) seat: TurnSeat<T>,
    pub(crate) least: u32,
    pub(crate) count: u32,
}

impl<T: Kept> Model for Held<T> {
    ghost use Rattle.std.specs.Prelude.{◌≡◌, ◌∷◌, [], Some, None};
    ghost use Rattle.turn_lock.specs.Seen.{SeenHeld};
    ghost use Rattle.turn_lock.specs.Rule.{Counts, front_of};

    ghost Value = { SeenHeld T.Opening T.Entry };

    ghost view = { λ p. record { lock = record { table = p.seat.table_id; start = p.seat.me.0.start }; rows = p.seat.me.0.rows; front = front_of p.seat.me.0.front } };

    ghost invariant = { λ p. ((p.seat.me.1 ≡ (0, None) ∷ []) × (p.seat.me.0.front ≡ Some (front_of p.seat.me.0.front))) × Counts p.seat.me p.least p.count };
}
