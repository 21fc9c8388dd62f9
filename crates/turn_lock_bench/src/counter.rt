ghost use Rattle.std.specs.Prelude.{◌≡◌, []};
ghost use Rattle.turn_lock.specs.Entries.{numbers_of};
ghost use Rattle.turn_lock.specs.Seen.{name_of};

use std::sync::{Mutex, Wait};
use turn_lock::{Kept, Pass, TurnLock};

/// How many turns were taken. It keeps no entries, so that what is timed is the lock alone.
#[derive(Drop)]
pub struct Counter {
    pub turns: u64,
}

impl Kept for Counter {
    type Opening = ();

    type Entry = ();

    ghost opening = { λ c. tt };

    ghost entries = { λ c. [] };
}

/// One turn of the lock.
#[tactic(auto, using(crate::proofs::Counted::nothing_added, crate::proofs::Counted::as_numbered))]
fn turn<R: Wait>(rt: &R, lock: &TurnLock<Counter>, pass: Pass<Counter>) -> Pass<Counter>
    requires { pass.lock ≡ name_of lock.now }
    ensures lock { result.lock ≡ pass.lock }
    ensures numbers { numbers_of result.rows ≡ numbers_of pass.rows }
{
    let (mut counter, held) = lock.enter(rt, pass);
    counter.turns = counter.turns.wrapping_add(1);
    lock.leave(held, counter)
}

/// So many turns of the lock.
pub fn take_turns<R: Wait>(
    rt: &R,
    lock: &TurnLock<Counter>,
    pass: Pass<Counter>,
    turns: u64,
) -> Pass<Counter>
    requires { pass.lock ≡ name_of lock.now }
    ensures lock { result.lock ≡ pass.lock }
    ensures numbers { numbers_of result.rows ≡ numbers_of pass.rows }
{
    let mut pass = pass;
    for _ in 0..turns {
        pass = turn(rt, lock, pass);
    }
    pass
}

/// So many turns of a Mutex.
pub fn take_mutex_turns<R: Wait>(rt: &R, counter: &Mutex<Counter>, turns: u64) {
    for _ in 0..turns {
        let mut held = counter.lock(rt);
        held.turns = held.turns.wrapping_add(1);
    }
}
