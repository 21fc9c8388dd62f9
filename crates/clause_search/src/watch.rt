ghost use Rattle.std.specs.Prelude.{◌≡◌, ℕ, ◌<◌, ◌≤◌, ◌+◌, ◌^◌, IfOk, OnOk, MatchOption, Contains, length, slice_index_or};
ghost use Rattle.cnf_clauses.specs.Literal.{Literal, opposite};
ghost use Rattle.clause_log.specs.Resolution.{clause_at};
ghost use Rattle.clause_log.specs.Log.{all_clauses, clauses_of};
ghost use Rattle.clause_search.specs.Path.{AllButFalseIn, IsFalseIn, free_count};
ghost use Rattle.clause_search.specs.WatchStep.{IsStepped, IsOther};
ghost use Rattle.clause_search.specs.Watch.{IsHeld};
ghost use Rattle.clause_search.specs.State.{IsSearching, HasLists, IsWatchingFrom};

use crate::bucket::Bucket;
use crate::trail::{Trail, Value};
use clause_log::log::Log;
use cnf_clauses::lit::{ClauseId, Lit};
use std::alloc::AllocError;

/// The two literals of a clause that are watched.
#[derive(Clone, Copy, PartialEq, Eq, Debug)]
pub struct Pair {
    pub first: Lit,
    pub second: Lit,
}

// A literal of the clause that isn't false, but for one.
pub fn open_but(trail: &Trail, c: &[Lit], other: Lit) -> Option<Lit>
    requires { (l : Literal) → Contains c.now l → l.var < length trail.now.places.items }
    ensures { MatchOption result (AllButFalseIn trail.now.path.items other c.now) (λ l. Contains c.now l × (l ≡ other → ⊥) × (IsFalseIn trail.now.path.items l → ⊥)) }
{
    let count = trail.path.len();
    for l in c {
        if *l != other && !trail.holds_before(l.opposite(), count) {
            return Some(*l);
        }
    }
    None
}

/// What a clause asks for, one of whose watched literals is false.
#[derive(Clone, Copy, PartialEq, Eq, Debug)]
pub enum Reaction {
    Held,
    Pushed,
    Open(Lit),
    Falsified,
}

// Looks at the other watched literal, then for one to watch, and else adds the other one.
pub fn step_at(
    log: &Log,
    trail: &mut Trail,
    id: ClauseId,
    other: Lit,
) -> Result<Reaction, AllocError>
    requires there { id.0 < length (clauses_of log.now) }
    requires other_in { Contains (clause_at (clauses_of log.now) id) other }
    requires search { IsSearching log.now trail.old }
    ensures search { OnOk result (IsSearching log.now trail.new) }
    ensures starts { OnOk result (trail.new.starts.items ≡ trail.old.starts.items) }
    ensures places { length trail.new.places.items ≡ length trail.old.places.items }
    ensures balance { OnOk result (free_count trail.new.places.items + length trail.new.path.items ≡ free_count trail.old.places.items + length trail.old.path.items) }
    ensures stepped { IfOk result (IsStepped (clauses_of log.now) id other trail.old.path.items trail.new.path.items) }
{
    match trail.value(other) {
        Value::True => Ok(Reaction::Held),
        Value::False => match open_but(trail, log.clause(id), other) {
            Some(l) => Ok(Reaction::Open(l)),
            None => Ok(Reaction::Falsified),
        },
        Value::Free => match open_but(trail, log.clause(id), other) {
            Some(l) => Ok(Reaction::Open(l)),
            None => {
                trail.push(other, Some(id))?;
                Ok(Reaction::Pushed)
            }
        },
    }
}

/// The watched literals of each clause, and for each literal the clauses that may watch it.
#[derive(Drop)]
pub struct Watches {
    pub pairs: Vec<Option<Pair>>,
    pub lists: Vec<Bucket>,
}

// The other watched literal of a clause that watches this one.
pub fn other_of(pairs: &[Option<Pair>], id: ClauseId, gone: Lit) -> Option<Lit>
    ensures { IsOther (slice_index_or pairs.now id.0 None) gone result }
{
    let k = id.0 as usize;
    if k >= pairs.len() {
        return None;
    }
    match pairs[k] {
        None => None,
        Some(pair) => {
            if pair.first == gone {
                Some(pair.second)
            } else if pair.second == gone {
                Some(pair.first)
            } else {
                None
            }
        }
    }
}
