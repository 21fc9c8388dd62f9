ghost use Rattle.turn_lock.specs.Rule.{TicketRule, first_view};

use crate::kept::Kept;
use crate::view::View;
use atomic_table::{Join, Play, Seat, Split, Table, TableRule};
use std::alloc::Global;
use std::marker::PhantomData;
use std::snapshot::Snapshot;

/// The word that has the next ticket, modulo 2^64.
pub(crate) const NEXT: usize = 0;

/// The word that has the ticket served, modulo 2^64.
pub(crate) const SERVED: usize = 1;

/// The slot that has the value, or nothing while it is out.
pub(crate) const VALUE: usize = 0;

/// What a lock is made about: the value that is put in, and how many seats there are.
#[derive(Drop)]
pub struct About<T> {
    pub value: Snapshot<T>,
    pub seats: u32,
}

/// The rule of a lock's table.
pub struct InTurn<T> {
    marker: PhantomData<T>,
}

impl<T: Kept> TableRule<Option<T>, View<T::Opening, T::Entry>, About<T>> for InTurn<T> {
    ghost holds = { λ key. TicketRule T.opening T.entries (T.opening key.value.value, T.entries key.value.value) key.seats };

    ghost first = { λ key. first_view (T.opening key.value.value, T.entries key.value.value) key.seats };
}

/// The table of a lock.
pub type TurnTable<T> = Table<
    Option<T>,
    View<<T as Kept>::Opening, <T as Kept>::Entry>,
    About<T>,
    InTurn<T>,
    Global,
>;

/// A seat of that table.
pub type TurnSeat<T> = Seat<Option<T>, View<<T as Kept>::Opening, <T as Kept>::Entry>>;

/// A ticket is drawn.
pub(crate) struct Draw;

impl<T: Kept> Play<Option<T>, View<T::Opening, T::Entry>> for Draw {
    ghost use Rattle.turn_lock.specs.Rule.{Draws};

    ghost then = { λ step before found after. Draws T.opening T.entries before found after };
}

/// A look at the ticket served. Where it is the seat's own, the seat takes the value out.
pub(crate) struct Look;

impl<T: Kept> Play<Option<T>, View<T::Opening, T::Entry>> for Look {
    ghost use Rattle.turn_lock.specs.Rule.{Looks};

    ghost then = { λ step before found after. Looks T.opening T.entries before found after };
}

/// The value comes home, and the next ticket is served.
pub(crate) struct ServeNext;

impl<T: Kept> Play<Option<T>, View<T::Opening, T::Entry>> for ServeNext {
    ghost use Rattle.turn_lock.specs.Rule.{EndsTurn};

    ghost then = { λ step before found after. EndsTurn T.opening T.entries before after };
}

/// The step's first operand is noted as the number of rows that a split gives away. The word stays.
pub(crate) struct NoteCut;

impl<T: Kept> Play<Option<T>, View<T::Opening, T::Entry>> for NoteCut {
    ghost use Rattle.turn_lock.specs.Rule.{Notes};

    ghost then = { λ step before found after. Notes before step.first after };
}

/// A seat gives its last rows to a new one, as many as were noted.
pub(crate) struct AtCut;

impl<O, E> Split<View<O, E>> for AtCut {
    ghost use Rattle.turn_lock.specs.Rule.{lower, upper};

    ghost left = { λ v. lower v };

    ghost right = { λ v. upper v };
}

/// A seat takes the rows of another, and knows what both have seen.
pub(crate) struct Union;

impl<O, E> Join<View<O, E>> for Union {
    ghost use Rattle.turn_lock.specs.Rule.{united, spent};

    ghost both = { λ v w. united v w };

    ghost spent = { spent };
}
