ghost use Rattle.std.specs.Prelude.{◌≡◌, ◌+◌, ◌<◌, ◌^◌};
ghost use Rattle.turn_lock.specs.Entries.{numbers_of};
ghost use Rattle.turn_lock.specs.Seen.{name_of};

use crate::counter::{Counter, take_mutex_turns, take_turns};
use std::alloc::{AllocError, Global};
use std::sync::{Mutex, Wait};
use std::thread::{Threads, map_indices, map_vec};
use turn_lock::{Pass, TurnLock, deal, gather};

/// So many threads take so many turns of a turn lock each. The answer is the count at the end.
pub fn lock_turns<R: Threads + Wait + Sync>(
    rt: &R,
    alloc: Global,
    threads: u32,
    turns: u64,
) -> Result<u64, AllocError>
    requires { threads + 1 < 2 ^ 32 }
{
    let Ok((lock, pass)) = TurnLock::new(alloc, Counter { turns: 0 }, threads + 1) else {
        return Err(AllocError);
    };
    let Ok((zero, passes)) = deal(alloc, &lock, pass, threads) else {
        return Err(AllocError);
    };
    let passes = map_vec(
        rt,
        passes,
        &|pass: Pass<Counter>| -> Pass<Counter>
            requires { pass.lock ≡ name_of lock }
            ensures { (result.lock ≡ pass.lock) × (numbers_of result.rows ≡ numbers_of pass.rows) }
        { take_turns(rt, &lock, pass, turns) },
    )?;
    let all = gather(&lock, zero, passes);
    Ok(lock.close(all).turns)
}

/// So many threads take so many turns of a Mutex each. The answer is the count at the end.
pub fn mutex_turns<R: Threads + Wait + Sync>(
    rt: &R,
    alloc: Global,
    threads: u32,
    turns: u64,
) -> Result<u64, AllocError> {
    let counter = Mutex::new(Counter { turns: 0 });
    map_indices(
        rt,
        alloc,
        threads as usize,
        &|_| { take_mutex_turns(rt, &counter, turns) },
    )?;
    Ok(counter.into_inner().turns)
}
