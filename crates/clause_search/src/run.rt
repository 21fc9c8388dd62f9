ghost use Rattle.std.specs.Prelude.{◌≡◌, [], ℕ, ◌<◌, ◌≤◌, ◌-◌, ◌^◌, ◌↔◌, IsTrue, IfOk, OnOk, MatchOption, length, slice_index_or, None};
ghost use Rattle.clause_log.specs.Resolution.{clause_at};
ghost use Rattle.clause_log.specs.Log.{clauses_of, EachIsNew, Refutes};
ghost use Rattle.clause_search.specs.Path.{AllFalseIn};
ghost use Rattle.clause_search.specs.Pass.{IsDecidedWatched};
ghost use Rattle.clause_search.specs.Found.{IsFound, AreValues, AllArePlaced};
ghost use Rattle.clause_search.specs.Start.{IsStarted};
ghost use Rattle.clause_search.specs.State.{IsSearching, HasLists, IsWatchingFrom};

use crate::analyze::refutation_of;
use crate::learn::{append, learn};
use crate::order::Order;
use crate::outcome::Found;
use crate::pass::propagate_watched;
use crate::restarts::Restarts;
use crate::start::{assume_units, start_watching};
use crate::trail::Trail;
use crate::watch::Watches;
use clause_log::log::Log;
use clause_log::resolvent::Resolvent;
use cnf_clauses::formula::Formula;
use cnf_clauses::lit::{ClauseId, Lit};
use memory::Memory;
use std::alloc::{AllocError, Global};

/// Searches for a model or a refutation of a formula, until it has as many lines as are granted.
///
/// In a log that it gives each line follows from the formula and the lines before it, and is new: no clause of the
/// formula and no earlier line has all its literals within it. The search decides a variable, propagates until
/// nothing follows, and learns one line from each conflict, in which one literal is of the last level.
pub fn search(alloc: Global, formula: Formula, lines: u64) -> Result<Found, Memory>
    requires some { 0 < lines }
    requires most { lines ≤ 1000000 }
    requires clauses { length formula.clauses ≤ 2 ^ 30 }
    ensures { IfOk result (IsFound formula lines) }
{
    let log = Log::begin(alloc, formula)?;
    if log.refutes() {
        let _formula = log.formula();
        return Ok(Found::Refuted(log));
    }
    Ok(begun(alloc, log, lines)?)
}

// Begins with a log that has no lines and no empty clause.
fn begun(alloc: Global, log: Log, lines: u64) -> Result<Found, AllocError>
    requires some { 0 < lines }
    requires most { lines ≤ 1000000 }
    requires clauses { length log.formula.clauses ≤ 2 ^ 30 }
    requires none { log.lines ≡ [] }
    requires open_ { Refutes (clauses_of log) → ⊥ }
    ensures { IfOk result (IsFound log.formula lines) }
{
    let mut trail = empty_trail(alloc, &log)?;
    let variables = log.formula().variables();
    let mut scratch = Resolvent::new(alloc, variables)?;
    match assume_units(&log, &mut trail)? {
        Some(conflict) => refuted(alloc, log, &trail, &mut scratch, conflict, lines),
        None => searched(alloc, log, trail, scratch, lines),
    }
}

// A trail on which nothing is true yet.
fn empty_trail(alloc: Global, log: &Log) -> Result<Trail, AllocError>
    requires { Refutes (clauses_of log.now) → ⊥ }
    ensures search { IfOk result (λ t. IsSearching log.now t) }
    ensures level { IfOk result (λ t. t.starts.items ≡ []) }
    ensures places { IfOk result (λ t. length t.places.items ≡ log.now.formula.variables) }
{
    let variables = log.formula().variables();
    let trail = Trail::new(alloc, variables)?;
    Ok(trail)
}

// Goes on from where the clauses of one literal are assumed.
fn searched(
    alloc: Global,
    log: Log,
    trail: Trail,
    scratch: Resolvent,
    lines: u64,
) -> Result<Found, AllocError>
    requires some { 0 < lines }
    requires most { lines ≤ 1000000 }
    requires clauses { length log.formula.clauses ≤ 2 ^ 30 }
    requires none { log.lines ≡ [] }
    requires search { IsSearching log trail }
    requires level { trail.starts.items ≡ [] }
    requires started { IsStarted (clauses_of log) trail.path.items None }
    requires places { length trail.places.items ≡ log.formula.variables }
    requires variables { scratch.variables ≡ log.formula.variables }
    ensures { IfOk result (IsFound log.formula lines) }
{
    let mut log = log;
    let mut trail = trail;
    let mut scratch = scratch;
    let mut watches = start_watching(alloc, &log, &trail)?;
    let mut order = Order::new(alloc, trail.places.len() as u32)?;
    let mut restarts = Restarts::new();
    let mut head = 0;
    'lines: for i in 0..lines {
        match advance(&log, &mut trail, &mut watches, &mut order, head)? {
            None => return Ok(Found::Model(values_of(alloc, &trail)?)),
            Some(conflict) => {
                if trail.starts.is_empty() {
                    return refuted(alloc, log, &trail, &mut scratch, conflict, lines);
                }
                head = learn(
                    alloc,
                    &mut log,
                    &mut trail,
                    &mut watches,
                    &mut scratch,
                    &mut order,
                    conflict,
                )?;
                head = restart(
                    restarts.is_due(),
                    &log,
                    &mut trail,
                    &watches,
                    &mut order,
                    head,
                )?;
            }
        }
    }
    let _formula = log.formula();
    Ok(Found::Spent(log))
}

// Decides and propagates until a clause is false or all variables have values.
fn advance(
    log: &Log,
    trail: &mut Trail,
    watches: &mut Watches,
    order: &mut Order,
    start: usize,
) -> Result<Option<ClauseId>, AllocError>
    requires start { start ≤ length trail.old.path.items }
    requires search { IsSearching log.now trail.old }
    requires lists { HasLists log.now trail.old watches.old }
    requires watching { IsWatchingFrom start log.now trail.old watches.old }
    ensures search { OnOk result (IsSearching log.now trail.new) }
    ensures lists { OnOk result (HasLists log.now trail.new watches.new) }
    ensures places { length trail.new.places.items ≡ length trail.old.places.items }
    ensures decided { IfOk result (IsDecidedWatched (clauses_of log.now) trail.new.path.items trail.new.starts.items trail.new.places.items watches.new.pairs.items) }
{
    let mut head = start;
    'decide: loop {
        match propagate_watched(log, trail, watches, head)? {
            Some(id) => return Ok(Some(id)),
            None => {}
        }
        head = trail.path.len();
        match pick(trail, order) {
            None => return Ok(None),
            Some(l) => trail.decide(l)?,
        }
    }
}

// The literal to decide next, whose variable has no place.
fn pick(trail: &Trail, order: &mut Order) -> Option<Lit>
    ensures { MatchOption result (AllArePlaced trail.now.places.items) (λ l. (l.var < length trail.now.places.items) × (slice_index_or trail.now.places.items l.var None ≡ None)) }
{
    for i in 0..trail.places.len() {
        let _n = i;
        match order.next() {
            None => return free_literal(trail),
            Some(l) => {
                if trail.is_free(l) {
                    return Some(l);
                }
            }
        }
    }
    free_literal(trail)
}

// A literal whose variable has no place.
fn free_literal(trail: &Trail) -> Option<Lit>
    ensures { MatchOption result (AllArePlaced trail.now.places.items) (λ l. (l.var < length trail.now.places.items) × (slice_index_or trail.now.places.items l.var None ≡ None)) }
{
    match trail.free_variable() {
        None => None,
        Some(v) => Some(Lit::new(v as u32, true)),
    }
}

// Takes all decisions back where that is due, and gives the place from which the path is to be gone through.
fn restart(
    due: bool,
    log: &Log,
    trail: &mut Trail,
    watches: &Watches,
    order: &mut Order,
    head: usize,
) -> Result<usize, AllocError>
    requires search { IsSearching log.now trail.old }
    requires head { head ≤ length trail.old.path.items }
    requires watching { IsWatchingFrom head log.now trail.old watches.now }
    ensures search { OnOk result (IsSearching log.now trail.new) }
    ensures places { length trail.new.places.items ≡ length trail.old.places.items }
    ensures head { IfOk result (λ q. q ≤ length trail.new.path.items) }
    ensures watching { IfOk result (λ q. IsWatchingFrom q log.now trail.new watches.now) }
{
    let _watches = watches;
    let _log = log;
    if !due || trail.starts.is_empty() {
        return Ok(head);
    }
    order.release(trail.from_level(0))?;
    trail.cut(0);
    Ok(trail.path.len())
}

// Ends with the empty line, from a clause that is false where nothing is decided.
fn refuted(
    alloc: Global,
    log: Log,
    trail: &Trail,
    scratch: &mut Resolvent,
    conflict: ClauseId,
    lines: u64,
) -> Result<Found, AllocError>
    requires room { length log.lines < lines }
    requires most { length (clauses_of log) < 2 ^ 32 - 1 }
    requires new { EachIsNew log.formula.clauses log.lines }
    requires search { IsSearching log trail.now }
    requires level { trail.now.starts.items ≡ [] }
    requires there { conflict.0 < length (clauses_of log) }
    requires all_false { AllFalseIn trail.now.path.items (clause_at (clauses_of log) conflict) }
    requires variables { scratch.old.variables ≡ length trail.now.places.items }
    ensures { IfOk result (IsFound log.formula lines) }
{
    let mut log = log;
    let derivation = refutation_of(alloc, &log, trail, scratch, conflict)?;
    let _id = append(&mut log, &derivation)?;
    let _formula = log.formula();
    Ok(Found::Refuted(log))
}

// The values of the variables.
fn values_of(alloc: Global, trail: &Trail) -> Result<Vec<bool>, AllocError>
    ensures values { IfOk result (λ bs. AreValues trail.now.path.items (length trail.now.places.items) bs.items) }
    ensures count { IfOk result (λ bs. length bs.items ≡ length trail.now.places.items) }
{
    let count = trail.path.len();
    let mut values = Vec::new(alloc);
    for v in 0..trail.places.len() {
        let positive = Lit::new(v as u32, false);
        values.push(trail.holds_before(positive, count))?;
    }
    Ok(values)
}
