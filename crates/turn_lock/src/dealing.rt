//! A pass for each worker, and one pass of all at the end.

ghost use Rattle.std.specs.Prelude.{◌≡◌, ◌+◌, ◌<◌, ◌^◌, IfErr, IfOk, length};
ghost use Rattle.turn_lock.specs.Entries.{ConsecutiveFrom, empty_rows};
ghost use Rattle.turn_lock.specs.Seen.{AreDealt, AreNumbered, name_of};

use crate::kept::Kept;
use crate::lock::TurnLock;
use crate::pass::Pass;
use memory::Memory;
use std::alloc::Global;

/// A pass for each of so many workers, from a new lock's pass of one seat more, which keeps the number 0. The first pass
/// has the number `workers`, each next one a number less, the last 1.
///
/// The one refusal is want of memory, and it hands the pass back.
pub fn deal<T: Kept>(
    alloc: Global,
    lock: &TurnLock<T>,
    pass: Pass<T>,
    workers: u32,
) -> Result<(Pass<T>, Vec<Pass<T>>), (Memory, Pass<T>)>
    requires lock { pass.lock ≡ name_of lock.now }
    requires rows { (pass.rows ≡ empty_rows 0 (workers + 1)) × (workers + 1 < 2 ^ 32) }
    ensures first { IfOk result (λ r. (r.0.lock ≡ pass.lock) × (r.0.rows ≡ empty_rows 0 1)) }
    ensures each { IfOk result (λ r. (length r.1.items ≡ workers) × AreDealt pass.lock workers r.1.items) }
    ensures same { IfErr result (λ e. e.1 ≡ pass) }
{
    let Ok(mut passes) = Vec::with_capacity(alloc, workers as usize) else {
        return Err((Memory, pass));
    };
    let mut first = pass;
    for worker in 0..workers {
        let (rest, last) = lock.split_pass(first, 1);
        first = rest;
        passes.push_reserved(last);
    }
    Ok((first, passes))
}

/// One pass of all: the first, which has the number 0 alone, and behind it those of workers, each with the number that it
/// was dealt, in the order of `deal`. Its numbers rise from 0, and it waits for nobody and takes no memory.
pub fn gather<T: Kept>(lock: &TurnLock<T>, first: Pass<T>, passes: Vec<Pass<T>>) -> Pass<T>
    requires lock { first.lock ≡ name_of lock.now }
    requires first { (length first.rows ≡ 1) × ConsecutiveFrom 0 first.rows }
    requires each { AreNumbered first.lock (length passes.items) passes.items }
    ensures lock { result.lock ≡ first.lock }
    ensures wide { length result.rows ≡ 1 + length passes.items }
    ensures numbers { ConsecutiveFrom 0 result.rows }
{
    let mut all = first;
    let mut passes = passes;
    while let Some(pass) = passes.pop() {
        all = lock.join_pass(all, pass);
    }
    passes.destroy_empty();
    all
}
