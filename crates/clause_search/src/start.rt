ghost use Rattle.std.specs.Prelude.{◌≡◌, [], ℕ, ◌<◌, ◌≤◌, ◌*◌, IfOk, OnOk, MatchOption, Contains, length, slice_index_or};
ghost use Rattle.std.specs.Option.{ForSome};
ghost use Rattle.cnf_clauses.specs.Literal.{Literal};
ghost use Rattle.clause_log.specs.Resolution.{clause_at};
ghost use Rattle.clause_log.specs.Log.{clauses_of};
ghost use Rattle.clause_search.specs.Path.{AllFalseIn};
ghost use Rattle.clause_search.specs.Pass.{pair_of};
ghost use Rattle.clause_search.specs.Start.{HoldsUnits, IsStarted, IsAssumed};
ghost use Rattle.clause_search.specs.Watch.{IsHeld};
ghost use Rattle.clause_search.specs.State.{IsSearching, HasLists, IsWatchingFrom};

use crate::bucket::Bucket;
use crate::learn::watch_new;
use crate::trail::{Trail, Value};
use crate::watch::Watches;
use clause_log::log::Log;
use cnf_clauses::lit::{ClauseId, Lit};
use std::alloc::{AllocError, Global};

/// Adds the literals of all clauses that have only one, until one is false.
pub fn assume_units(log: &Log, trail: &mut Trail) -> Result<Option<ClauseId>, AllocError>
    requires search { IsSearching log.now trail.old }
    requires level { trail.old.starts.items ≡ [] }
    ensures search { OnOk result (IsSearching log.now trail.new) }
    ensures level { OnOk result (trail.new.starts.items ≡ []) }
    ensures places { length trail.new.places.items ≡ length trail.old.places.items }
    ensures started { IfOk result (IsStarted (clauses_of log.now) trail.new.path.items) }
{
    for k in 0..log.clauses() {
        let id = ClauseId(k);
        if !assume_unit(log, trail, id)? {
            return Ok(Some(id));
        }
    }
    Ok(None)
}

// Adds the literal of a clause that has only one, unless it is false.
fn assume_unit(log: &Log, trail: &mut Trail, id: ClauseId) -> Result<bool, AllocError>
    requires there { id.0 < length (clauses_of log.now) }
    requires search { IsSearching log.now trail.old }
    requires level { trail.old.starts.items ≡ [] }
    ensures search { OnOk result (IsSearching log.now trail.new) }
    ensures level { OnOk result (trail.new.starts.items ≡ []) }
    ensures places { length trail.new.places.items ≡ length trail.old.places.items }
    ensures assumed { IfOk result (IsAssumed (clause_at (clauses_of log.now) id) trail.old.path.items trail.new.path.items) }
{
    let clause = log.clause(id);
    let first = clause[0];
    match other_than(clause, first) {
        Some(_) => Ok(true),
        None => match trail.value(first) {
            Value::True => Ok(true),
            Value::False => Ok(false),
            Value::Free => {
                trail.push(first, Some(id))?;
                Ok(true)
            }
        },
    }
}

// Another literal of the clause.
fn other_than(c: &[Lit], first: Lit) -> Option<Lit>
    ensures { MatchOption result ((l : Literal) → Contains c.now l → l ≡ first) (λ x. Contains c.now x × (x ≡ first → ⊥)) }
{
    for l in c {
        if *l != first {
            return Some(*l);
        }
    }
    None
}

/// Watches two literals of each clause that has two, where nothing is decided and the path is still to be gone through.
pub fn start_watching(alloc: Global, log: &Log, trail: &Trail) -> Result<Watches, AllocError>
    requires search { IsSearching log.now trail.now }
    requires level { trail.now.starts.items ≡ [] }
    requires started { IsStarted (clauses_of log.now) trail.now.path.items None }
    ensures lists { IfOk result (λ w. HasLists log.now trail.now w) }
    ensures watching { IfOk result (λ w. IsWatchingFrom 0 log.now trail.now w) }
{
    let mut watches = no_watches(alloc, 2 * trail.places.len())?;
    for k in 0..log.clauses() {
        let id = ClauseId(k);
        let clause = log.clause(id);
        let first = clause[0];
        let other = other_than(clause, first);
        watch_new(&mut watches, id, first, other)?;
    }
    Ok(watches)
}

// Watches with no clause.
fn no_watches(alloc: Global, count: usize) -> Result<Watches, AllocError>
    ensures pairs { IfOk result (λ w. w.pairs.items ≡ []) }
    ensures lists { IfOk result (λ w. length w.lists.items ≡ count) }
{
    let mut lists = Vec::new(alloc);
    for i in 0..count {
        let _n = i;
        lists.push(Bucket::new(alloc))?;
    }
    Ok(Watches {
        pairs: Vec::new(alloc),
        lists,
    })
}
