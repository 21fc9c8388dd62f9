ghost use Rattle.std.specs.Prelude.{◌≡◌, ◌++◌, ◌∷◌, []};
ghost use Rattle.turn_lock.specs.Entries.{numbers_of};
ghost use Rattle.turn_lock.specs.Seen.{name_of};

use std::alloc::Global;
use std::process::Abort;
use std::sync::Wait;
use std::test::Fail;
use std::thread::{Threads, join, map_vec};
use turn_lock::{Kept, Memory, Pass, TurnLock, deal, gather};

/// A list of numbered entries, whose name stays.
#[derive(Drop)]
struct Journal {
    name: u32,
    items: Vec<(u32, u64)>,
}

impl Kept for Journal {
    type Opening = u32;

    type Entry = u64;

    ghost opening = { λ j. j.name };

    ghost entries = { λ j. j.items.items };
}

fn empty_journal(alloc: Global) -> Journal {
    Journal {
        name: 7,
        items: Vec::new(alloc),
    }
}

/// The journal with one entry more.
fn with_entry<R: Abort>(rt: &R, journal: Journal, number: u32, n: u64) -> Journal
    ensures name { result.name ≡ journal.name }
    ensures entries { result.items.items ≡ journal.items.items ++ (number, n) ∷ [] }
{
    let mut journal = journal;
    journal.items.push((number, n)).expect(rt, "memory");
    journal
}

/// One turn, in which an entry is added under the pass's number.
fn add<R: Wait + Abort>(
    rt: &R,
    lock: &TurnLock<Journal>,
    pass: Pass<Journal>,
    n: u64,
) -> Pass<Journal>
    requires { pass.lock ≡ name_of lock.now }
    ensures lock { result.lock ≡ pass.lock }
    ensures numbers { numbers_of result.rows ≡ numbers_of pass.rows }
{
    let number = pass.least();
    let (journal, held) = lock.enter(rt, pass);
    lock.leave(held, with_entry(rt, journal, number, n))
}

/// As many turns as this, with the entries 0, 1 and so on.
fn add_all<R: Wait + Abort>(
    rt: &R,
    lock: &TurnLock<Journal>,
    pass: Pass<Journal>,
    turns: u64,
) -> Pass<Journal>
    requires { pass.lock ≡ name_of lock.now }
    ensures lock { result.lock ≡ pass.lock }
    ensures numbers { numbers_of result.rows ≡ numbers_of pass.rows }
{
    let mut pass = pass;
    for n in 0..turns {
        pass = add(rt, lock, pass, n);
    }
    pass
}

/// Whether the entries from 0 on of each worker stand in its order, as many as its turns, and
/// nobody else has any.
fn is_in_order(items: &[(u32, u64)], next: &mut [u64], turns: u64) -> bool {
    for (number, n) in items {
        let place = *number as usize;
        if place == 0 || place >= next.len() || next[place] != *n || *n >= turns {
            return false;
        }
        next[place] = *n + 1;
    }
    next.iter().skip(1).all(|n| *n == turns)
}

#[test]
fn two_hundred_turns(rt: HostRuntime) -> Result<(), Fail> {
    let Ok((lock, pass)) = TurnLock::new(rt.alloc(), empty_journal(rt.alloc()), 3) else {
        panic!(rt; "no memory")
    };
    let (zero, both) = lock.split_pass(pass, 2);
    let (one, two) = lock.split_pass(both, 1);
    assert_eq!(rt; (zero.least(), one.least(), two.least()), (0, 1, 2));
    let (one, two) = join(
        &rt,
        || -> Pass<Journal>
            requires { one.lock ≡ name_of lock }
            ensures { (result.lock ≡ one.lock) × (numbers_of result.rows ≡ numbers_of one.rows) }
        { add_all(&rt, &lock, one, 100) },
        || -> Pass<Journal>
            requires { two.lock ≡ name_of lock }
            ensures { (result.lock ≡ two.lock) × (numbers_of result.rows ≡ numbers_of two.rows) }
        { add_all(&rt, &lock, two, 100) },
    );
    let all = lock.join_pass(zero, lock.join_pass(one, two));
    let journal = lock.close(all);
    assert_eq!(rt; journal.name, 7);
    assert_eq!(rt; journal.items.len(), 200);
    assert!(rt; is_in_order(&journal.items, &mut [0; 3], 100));
    Ok(())
}

#[test]
fn sixteen_threads_of_a_thousand_turns(rt: HostRuntime) -> Result<(), Fail> {
    let Ok((lock, pass)) = TurnLock::new(rt.alloc(), empty_journal(rt.alloc()), 17) else {
        panic!(rt; "no memory")
    };
    let Ok((zero, passes)) = deal(rt.alloc(), &lock, pass, 16) else {
        panic!(rt; "no memory")
    };
    let passes = map_vec(
        &rt,
        passes,
        &|pass: Pass<Journal>| -> Pass<Journal>
            requires { pass.lock ≡ name_of lock }
            ensures { (result.lock ≡ pass.lock) × (numbers_of result.rows ≡ numbers_of pass.rows) }
        { add_all(&rt, &lock, pass, 1000) },
    )?;
    let all = gather(&lock, zero, passes);
    let journal = lock.close(all);
    assert_eq!(rt; journal.items.len(), 16000);
    assert!(rt; is_in_order(&journal.items, &mut [0; 17], 1000));
    Ok(())
}

#[test]
fn one_seat_and_entries_already(rt: HostRuntime) -> Result<(), Fail> {
    let mut before = empty_journal(rt.alloc());
    before.items.push((9, 80))?;
    before.items.push((0, 81))?;
    match TurnLock::new(rt.alloc(), before, 1) {
        Ok((lock, pass)) => {
            let pass = add(&rt, &lock, pass, 5);
            let pass = add(&rt, &lock, pass, 6);
            let journal = lock.close(pass);
            assert_eq!(rt; journal.name, 7);
            assert_eq!(rt;
                journal.items.as_slice(),
                [(9, 80), (0, 81), (0, 5), (0, 6)].as_slice()
            );
        }
        // Only where an allocation is made to fail.
        Err((Memory, back)) => {
            assert_eq!(rt; back.items.as_slice(), [(9, 80), (0, 81)].as_slice());
        }
    }
    Ok(())
}

#[test]
fn dropped_pass_and_lock(rt: HostRuntime) -> Result<(), Fail> {
    let Ok((lock, pass)) = TurnLock::new(rt.alloc(), empty_journal(rt.alloc()), 4) else {
        panic!(rt; "no memory")
    };
    let (lower, upper) = lock.split_pass(pass, 2);
    assert_eq!(rt; (lower.least(), upper.least()), (0, 2));
    drop(upper);
    let lower = add(&rt, &lock, lower, 1);
    assert_eq!(rt; lower.least(), 0);
    drop(lower);
    drop(lock);
    Ok(())
}
