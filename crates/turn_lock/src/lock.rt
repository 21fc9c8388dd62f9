ghost use Rattle.std.specs.Prelude.{◌≡◌, ◌<◌, ◌%◌, ◌^◌, ◌-◌, ◌++◌, ◌∷◌, [], ℕ, List, IfErr, IfOk, None, Some, length, take, drop};
ghost use Rattle.turn_lock.specs.Entries.{ConsecutiveFrom, empty_rows, least_of};
ghost use Rattle.turn_lock.specs.Seen.{name_of, after_leave, Fits, HasHistory, GoesOn, IsClosed};
ghost use Rattle.turn_lock.specs.Rule.{IsOutside, TakesOut, ticket_of};

use crate::kept::Kept;
use crate::pass::{Held, Pass};
use crate::rule::{
    About, AtCut, Draw, Look, NEXT, NoteCut, SERVED, ServeNext, TurnSeat, TurnTable, Union, VALUE,
};
use atomic_table::{Refused, Table};
use crossbeam_utils::Backoff;
use memory::Memory;
use std::alloc::Global;
use std::marker::Model;
use std::snapshot::Snapshot;
use std::sync::Wait;

/// A value that workers take out in the order of their tickets.
///
/// A lock is seen as a name of its own, what was put in (the value's opening and the entries that it
/// had) and the number of its seats. In all that is said of a lock and its passes a history is the
/// list of the entries after those that were put in. Where a lock is dropped and not closed, its
/// value is dropped with it.
#[derive(Drop)]
pub struct TurnLock<T: Kept> {
    table: TurnTable<T>,
}

impl<T: Kept> Model for TurnLock<T> {
    ghost use Rattle.std.specs.Prelude.{◌≡◌};
    ghost use Rattle.turn_lock.specs.Seen.{SeenLock};

    ghost Value = { SeenLock T.Opening T.Entry };

    ghost view = { λ l. record { table = l.table.shared.table_id; start = (T.opening l.table.shared.key.value.value, T.entries l.table.shared.key.value.value); seats = l.table.shared.key.seats } };

    ghost invariant = { λ l. (l.table.shared.table_id.words ≡ 2) × (l.table.shared.table_id.slots ≡ 1) };
}

impl<T: Kept> TurnLock<T> {
    /// A lock that holds the value, and the pass with all its seats, which are numbered from 0.
    ///
    /// There has to be at least one seat. The one refusal is want of memory, and it hands the value
    /// back.
    pub fn new(alloc: Global, value: T, seats: u32) -> Result<(TurnLock<T>, Pass<T>), (Memory, T)>
        requires { 0 < seats }
        ensures lock { IfOk result (λ r. (r.0.start ≡ (T.opening value, T.entries value)) × (r.0.seats ≡ seats)) }
        ensures pass { IfOk result (λ r. r.1 ≡ record { lock = name_of r.0; rows = empty_rows 0 seats; seen = [] }) }
        ensures same { IfErr result (λ e. e.1 ≡ value) }
    {
        let about = About {
            value: Snapshot::of(&value),
            seats,
        };
        let mut slots = match Vec::with_capacity(alloc, 1) {
            Ok(slots) => slots,
            Err(_) => return Err((Memory, value)),
        };
        slots.push_reserved(Some(value));
        match Table::new(alloc, &[0, 0], slots, &about) {
            Ok((table, seat)) => {
                let pass = Pass {
                    seat,
                    least: 0,
                    count: seats,
                };
                Ok((TurnLock { table }, pass))
            }
            Err(Refused { slots: mut back }) => {
                let value = back.pop().unwrap().unwrap();
                Err((Memory, value))
            }
        }
    }

    /// Draws the next ticket.
    fn draw(&self, seat: &mut TurnSeat<T>) -> u64
        requires lock { seat.old.table_id ≡ self.now.table }
        requires idle { IsOutside seat.old.me × (0 < length seat.old.me.0.rows) }
        ensures lock { seat.new.table_id ≡ seat.old.table_id }
        ensures drawn { (result ≡ ticket_of seat.new.me.0 % 2 ^ 64) × (seat.new.me ≡ (record seat.old.me.0 { ticket = Some (ticket_of seat.new.me.0) }, seat.old.me.1)) }
    {
        self.table.shared.fetch_add::<Draw>(seat, NEXT, 1)
    }

    /// Waits until the ticket is served. The slot is then out with the seat.
    fn wait_turn<R: Wait>(&self, rt: &R, seat: &mut TurnSeat<T>, ticket: u64)
        requires lock { seat.old.table_id ≡ self.now.table }
        requires drawn { (ticket ≡ ticket_of seat.old.me.0 % 2 ^ 64) × (seat.old.me.0.ticket ≡ Some (ticket_of seat.old.me.0)) × (seat.old.me.0.front ≡ None) × (seat.old.me.1 ≡ []) }
        ensures lock { seat.new.table_id ≡ seat.old.table_id }
        ensures takes { TakesOut T.opening T.entries seat.old.me seat.new.me }
    {
        let pause = Backoff::new();
        for _ in rt.forever() {
            let found = self.table.shared.load::<Look>(seat, SERVED);
            if found == ticket {
                return;
            }
            pause.snooze();
        }
        unreachable!()
    }

    /// Waits for the pass's turn, and takes the value out.
    ///
    /// The value has what was put in, and after that a history which begins with each history that
    /// the pass has seen, and in which the entries of each of the pass's numbers are those that the
    /// pass knows of. It may wait forever: no turn comes while another holds the value.
    pub fn enter<R: Wait>(&self, rt: &R, pass: Pass<T>) -> (T, Held<T>)
        requires { pass.lock ≡ name_of self.now }
        ensures held { (result.1.lock ≡ pass.lock) × (result.1.rows ≡ pass.rows) }
        ensures value { HasHistory T.opening T.entries self.now.start result.0 result.1.front }
        ensures history { Fits pass result.1.front }
    {
        let Pass {
            mut seat,
            least,
            count,
        } = pass;
        let ticket = self.draw(&mut seat);
        self.wait_turn(rt, &mut seat, ticket);
        let value = self.table.shared.exchange(&mut seat, VALUE, None).unwrap();
        (value, Held { seat, least, count })
    }

    /// Puts the value back, and ends the turn. It waits for nobody and takes no memory.
    ///
    /// The value has to go on from the one that was taken out: the same opening, and after the
    /// entries that were there only such as have the hold's least number. The pass's list of that
    /// number is then longer by the added entries, and the pass has seen the new history.
    pub fn leave(&self, held: Held<T>, value: T) -> Pass<T>
        requires lock { held.lock ≡ name_of self.now }
        requires goes_on { GoesOn T.opening T.entries self.now.start held value }
        ensures lock { result.lock ≡ held.lock }
        ensures left { (added : List (ℕ × T.Entry)) → HasHistory T.opening T.entries self.now.start value (held.front ++ added) → result ≡ after_leave held added }
    {
        let Held {
            mut seat,
            least,
            count,
        } = held;
        drop(self.table.shared.exchange(&mut seat, VALUE, Some(value)));
        self.table
            .shared
            .fetch_add::<ServeNext>(&mut seat, SERVED, 1);
        Pass { seat, least, count }
    }

    /// Two passes from one: the upper `seats` numbers go to the second, the others stay with the
    /// first, and both have seen what the pass had seen.
    ///
    /// The pass has to have consecutive numbers, more than `seats` of them, and `seats` is at least
    /// 1. It waits for nobody and takes no memory.
    pub fn split_pass(&self, pass: Pass<T>, seats: u32) -> (Pass<T>, Pass<T>)
        requires lock { pass.lock ≡ name_of self.now }
        requires numbers { ConsecutiveFrom (least_of pass.rows) pass.rows × (0 < seats) × (seats < length pass.rows) }
        ensures lower { result.0 ≡ record pass { rows = take (length pass.rows - seats) pass.rows } }
        ensures upper { result.1 ≡ record pass { rows = drop (length pass.rows - seats) pass.rows } }
    {
        let Pass {
            mut seat,
            least,
            count,
        } = pass;
        let cut = seats as u64;
        // The split reads the noted number. The word is left as it is, whatever it was.
        self.table
            .shared
            .compare_exchange::<NoteCut>(&mut seat, NEXT, cut, cut);
        let other = self.table.shared.split_seat::<AtCut>(&mut seat);
        let low = count - seats;
        let first = least + low;
        let lower = Pass {
            seat,
            least,
            count: low,
        };
        let upper = Pass {
            seat: other,
            least: first,
            count: seats,
        };
        (lower, upper)
    }

    /// One pass from two, with the numbers and lists of both, which has seen what both have seen.
    /// It waits for nobody and takes no memory.
    pub fn join_pass(&self, a: Pass<T>, b: Pass<T>) -> Pass<T>
        requires lock { (a.lock ≡ name_of self.now) × (b.lock ≡ name_of self.now) }
        ensures { result ≡ record a { rows = a.rows ++ b.rows; seen = a.seen ++ b.seen } }
    {
        let Pass {
            mut seat,
            least,
            count,
        } = a;
        let Pass {
            seat: other,
            least: other_least,
            count: other_count,
        } = b;
        self.table.shared.join_seat::<Union>(&mut seat, other);
        // A note of nothing tells that the numbers and their count are small.
        self.table
            .shared
            .compare_exchange::<NoteCut>(&mut seat, NEXT, 0, 0);
        let least = least.min(other_least);
        let count = count + other_count;
        Pass { seat, least, count }
    }

    /// Gives the value back, and ends the lock. It waits for nobody and takes no memory.
    ///
    /// It needs a pass with all seats, which is had by joining what was split. The value has what was
    /// put in. After that, each number's entries are exactly those that the pass has, in their order,
    /// and there are no others.
    pub fn close(self, pass: Pass<T>) -> T
        requires lock { pass.lock ≡ name_of self }
        requires all { length pass.rows ≡ self.seats }
        ensures { IsClosed T.opening T.entries self pass result }
    {
        let TurnLock { table } = self;
        let Pass {
            seat,
            least: _,
            count: _,
        } = pass;
        let mut closed = table.close_with(seat);
        let value = closed.take(VALUE).unwrap();
        closed.free();
        value
    }
}
