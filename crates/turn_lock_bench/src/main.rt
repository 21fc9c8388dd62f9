//! Times turns of the turn lock, or of std's Mutex, round a counter.
//!
//! `turn_lock_bench lock THREADS TURNS` and `turn_lock_bench mutex THREADS TURNS` print how many turns a second
//! so many threads, from 1 to 64, take together where each takes so many. Called otherwise, it says
//! so. `scripts/bench-lock` calls it.
#![tactic(auto)]

ghost use Rattle.std.specs.Prelude.{◌≤◌, IfSome};

mod counter;
#[cfg(test)]
mod tests;
mod threads;

use std::time::Instant;
use std::{env, io};
use threads::{lock_turns, mutex_turns};

/// What to time.
#[derive(Drop)]
struct Task {
    is_lock: bool,
    threads: u32,
    turns: u64,
}

/// The task that the words name.
fn task_of(kind: Option<String>, threads: Option<String>, turns: Option<String>) -> Option<Task>
    ensures { IfSome result (λ task. task.threads ≤ 64) }
{
    let is_lock = kind?.as_str() == "lock";
    let threads = threads?.as_str().parse::<u32>().ok()?;
    let turns = turns?.as_str().parse::<u64>().ok()?;
    if threads == 0 || threads > 64 {
        return None;
    }
    Some(Task {
        is_lock,
        threads,
        turns,
    })
}

/// How many turns a second these are.
fn rate(turns: u64, nanoseconds: u128) -> u128 {
    turns as u128 * 1_000_000_000 / nanoseconds.max(1)
}

fn main(rt: HostRuntime) -> io::Result<()> {
    let mut words = env::args(&rt)?;
    let _program = words.next();
    let Some(task) = task_of(words.next(), words.next(), words.next()) else {
        println!(rt; "turn_lock_bench lock|mutex THREADS TURNS")?;
        return Ok(());
    };
    let start = Instant::now(&rt)?;
    let turns = if task.is_lock {
        lock_turns(&rt, rt.alloc(), task.threads, task.turns)?
    } else {
        mutex_turns(&rt, rt.alloc(), task.threads, task.turns)?
    };
    let rate = rate(turns, start.elapsed(&rt)?.as_nanos());
    println!(rt; "{rate}")?;
    Ok(())
}
