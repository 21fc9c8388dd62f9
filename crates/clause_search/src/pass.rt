ghost use Rattle.std.specs.Prelude.{◌≡◌, [], ℕ, ◌<◌, ◌≤◌, ◌+◌, ◌*◌, ◌^◌, IfOk, OnOk, length, slice_index_or};
ghost use Rattle.cnf_clauses.specs.Literal.{Literal, opposite, code_of};
ghost use Rattle.clause_log.specs.Log.{all_clauses, clauses_of};
ghost use Rattle.clause_search.specs.Path.{free_count};
ghost use Rattle.clause_search.specs.Pass.{IsPassing, IsVisit, IsPassed, IsAtRest};
ghost use Rattle.clause_search.specs.Lists.{IsRemoved, IsAdded};
ghost use Rattle.clause_search.specs.State.{IsSearching, HasLists, IsWatchingFrom};

use crate::bucket::Bucket;
use crate::trail::Trail;
use crate::watch::{Pair, Reaction, Watches, other_of, step_at};
use clause_log::log::Log;
use cnf_clauses::lit::{ClauseId, Lit};
use std::alloc::AllocError;

/// What became of an entry of a list.
#[derive(Clone, Copy, PartialEq, Eq, Debug)]
pub enum Visit {
    Kept,
    Moved,
    Falsified(ClauseId),
}

// Takes out an entry.
fn drop_at(lists: &mut Vec<Bucket>, at: usize, i: usize)
    requires at { at < length lists.old.items }
    requires i { i < length (slice_index_or lists.old.items at []) }
    ensures removed { IsRemoved lists.old.items lists.new.items at i }
{
    let bucket = &mut lists[at];
    bucket.remove(i);
}

// Adds an entry.
pub fn add_to(lists: &mut Vec<Bucket>, at: usize, id: ClauseId) -> Result<(), AllocError>
    requires { at < length lists.old.items }
    ensures added { OnOk result (IsAdded lists.old.items lists.new.items at id) }
{
    let bucket = &mut lists[at];
    bucket.add(id)
}

// Looks at one entry of the list of a literal that became false.
fn visit_at(
    log: &Log,
    trail: &mut Trail,
    watches: &mut Watches,
    q: usize,
    gone: Lit,
    i: usize,
) -> Result<Visit, AllocError>
    requires q { q < length trail.old.path.items }
    requires gone { (d : Literal) → gone ≡ opposite (slice_index_or trail.old.path.items q d) }
    requires i { i < length (slice_index_or watches.old.lists.items (code_of gone) []) }
    requires passing { IsPassing (clauses_of log.now) trail.old.path.items q trail.old.starts.items watches.old.pairs.items (slice_index_or watches.old.lists.items (code_of gone) []) i }
    requires search { IsSearching log.now trail.old }
    requires lists { HasLists log.now trail.old watches.old }
    ensures search { OnOk result (IsSearching log.now trail.new) }
    ensures lists { OnOk result (HasLists log.now trail.new watches.new) }
    ensures starts { OnOk result (trail.new.starts.items ≡ trail.old.starts.items) }
    ensures places { length trail.new.places.items ≡ length trail.old.places.items }
    ensures balance { OnOk result (free_count trail.new.places.items + length trail.new.path.items ≡ free_count trail.old.places.items + length trail.old.path.items) }
    ensures same { (d : Literal) → OnOk result (slice_index_or trail.new.path.items q d ≡ slice_index_or trail.old.path.items q d) }
    ensures longer { OnOk result (length trail.old.path.items ≤ length trail.new.path.items) }
    ensures visit { IfOk result (IsVisit (clauses_of log.now) trail.new.path.items q trail.new.starts.items watches.new.pairs.items (slice_index_or watches.old.lists.items (code_of gone) []) (slice_index_or watches.new.lists.items (code_of gone) []) i) }
{
    let at = gone.code() as usize;
    let id = entry(&watches.lists, at, i);
    match other_of(&watches.pairs, id, gone) {
        None => {
            drop_at(&mut watches.lists, at, i);
            Ok(Visit::Moved)
        }
        Some(other) => match step_at(log, trail, id, other)? {
            Reaction::Held => Ok(Visit::Kept),
            Reaction::Pushed => Ok(Visit::Kept),
            Reaction::Falsified => Ok(Visit::Falsified(id)),
            Reaction::Open(l) => {
                watches.pairs[id.0 as usize] = Some(Pair {
                    first: other,
                    second: l,
                });
                add_to(&mut watches.lists, l.code() as usize, id)?;
                drop_at(&mut watches.lists, at, i);
                Ok(Visit::Moved)
            }
        },
    }
}

// An entry of a list.
fn entry(lists: &[Bucket], at: usize, i: usize) -> ClauseId
    requires at { at < length lists.now }
    requires i { i < length (slice_index_or lists.now at []) }
    ensures { result ≡ slice_index_or (slice_index_or lists.now at []) i result }
{
    let bucket = &lists[at];
    bucket.at(i)
}

// Goes through one literal of the path.
fn go_through(
    log: &Log,
    trail: &mut Trail,
    watches: &mut Watches,
    q: usize,
) -> Result<Option<ClauseId>, AllocError>
    requires q { q < length trail.old.path.items }
    requires watching { IsWatchingFrom q log.now trail.old watches.old }
    requires search { IsSearching log.now trail.old }
    requires lists { HasLists log.now trail.old watches.old }
    ensures search { OnOk result (IsSearching log.now trail.new) }
    ensures lists { OnOk result (HasLists log.now trail.new watches.new) }
    ensures starts { OnOk result (trail.new.starts.items ≡ trail.old.starts.items) }
    ensures places { length trail.new.places.items ≡ length trail.old.places.items }
    ensures balance { OnOk result (free_count trail.new.places.items + length trail.new.path.items ≡ free_count trail.old.places.items + length trail.old.path.items) }
    ensures longer { OnOk result (length trail.old.path.items ≤ length trail.new.path.items) }
    ensures passed { IfOk result (IsPassed (clauses_of log.now) trail.new.path.items q trail.new.starts.items watches.new.pairs.items) }
{
    let gone = trail.path[q].opposite();
    let at = gone.code() as usize;
    let mut i = 0;
    'entries: while i < list_len(&watches.lists, at) {
        match visit_at(log, trail, watches, q, gone, i)? {
            Visit::Kept => i += 1,
            Visit::Moved => {}
            Visit::Falsified(id) => return Ok(Some(id)),
        }
    }
    Ok(None)
}

// How many entries a list has.
fn list_len(lists: &[Bucket], at: usize) -> usize
    requires { at < length lists.now }
    ensures { result ≡ length (slice_index_or lists.now at []) }
{
    let bucket = &lists[at];
    bucket.len()
}

/// Goes through the path until nothing is left or a clause is false: nothing follows then.
pub fn propagate_watched(
    log: &Log,
    trail: &mut Trail,
    watches: &mut Watches,
    start: usize,
) -> Result<Option<ClauseId>, AllocError>
    requires start { start ≤ length trail.old.path.items }
    requires watching { IsWatchingFrom start log.now trail.old watches.old }
    requires search { IsSearching log.now trail.old }
    requires lists { HasLists log.now trail.old watches.old }
    ensures search { OnOk result (IsSearching log.now trail.new) }
    ensures lists { OnOk result (HasLists log.now trail.new watches.new) }
    ensures starts { OnOk result (trail.new.starts.items ≡ trail.old.starts.items) }
    ensures places { length trail.new.places.items ≡ length trail.old.places.items }
    ensures balance { OnOk result (free_count trail.new.places.items + length trail.new.path.items ≡ free_count trail.old.places.items + length trail.old.path.items) }
    ensures longer { OnOk result (length trail.old.path.items ≤ length trail.new.path.items) }
    ensures at_rest { IfOk result (IsAtRest (clauses_of log.now) trail.new.path.items trail.new.starts.items watches.new.pairs.items) }
{
    let mut q = start;
    'path: while q < trail.path.len() {
        match go_through(log, trail, watches, q)? {
            Some(id) => return Ok(Some(id)),
            None => q += 1,
        }
    }
    Ok(None)
}
