ghost use Rattle.std.specs.Prelude.{◌≡◌, ◌++◌, ◌∷◌, [], ℕ, ◌<◌, ◌≤◌, ◌-◌, ◌^◌, IfOk, OnOk, MatchOption, Contains, length, take, slice_index_or};
ghost use Rattle.std.specs.Option.{ForSome};
ghost use Rattle.cnf_clauses.specs.Literal.{Literal, code_of};
ghost use Rattle.clause_log.specs.Resolution.{clause_at, StepsAreIn};
ghost use Rattle.clause_log.specs.Line.{line_from};
ghost use Rattle.clause_log.specs.Log.{clauses_of};
ghost use Rattle.clause_search.specs.Path.{AllFalseIn, AllButFalseIn, IsFalseIn};
ghost use Rattle.clause_search.specs.Learnt.{last_start};
ghost use Rattle.clause_search.specs.New.{AddsNew, IsTaught};
ghost use Rattle.clause_search.specs.Pass.{IsListed, pair_of};
ghost use Rattle.clause_search.specs.State.{IsSearching, HasLists, IsWatchingFrom};

use crate::analyze::{Derivation, lesson_of};
use crate::order::Order;
use crate::pass::add_to;
use crate::trail::Trail;
use crate::watch::{Pair, Watches};
use clause_log::error::LogError;
use clause_log::log::Log;
use clause_log::resolvent::Resolvent;
use cnf_clauses::lit::{ClauseId, Lit};
use std::alloc::{AllocError, Global};

/// A line that was learnt, and its literal of the last level.
#[derive(Clone, Copy, PartialEq, Eq, Debug)]
pub struct Taught {
    pub id: ClauseId,
    pub first: Lit,
}

/// Learns from a conflict: appends one line, takes levels back until one literal of it follows, and adds that one.
/// It gives the place from which the path is to be gone through.
pub fn learn(
    alloc: Global,
    log: &mut Log,
    trail: &mut Trail,
    watches: &mut Watches,
    scratch: &mut Resolvent,
    order: &mut Order,
    conflict: ClauseId,
) -> Result<usize, AllocError>
    requires room { length (clauses_of log.old) < 2 ^ 32 - 1 }
    requires search { IsSearching log.old trail.old }
    requires level { 0 < length trail.old.starts.items }
    requires there { conflict.0 < length (clauses_of log.old) }
    requires all_false { AllFalseIn trail.old.path.items (clause_at (clauses_of log.old) conflict) }
    requires lists { HasLists log.old trail.old watches.old }
    requires watching { IsWatchingFrom 0 log.old trail.old watches.old }
    requires variables { scratch.old.variables ≡ length trail.old.places.items }
    ensures variables { scratch.new.variables ≡ scratch.old.variables }
    ensures formula { log.new.formula ≡ log.old.formula }
    ensures line { OnOk result (AddsNew log.old.formula.clauses log.old.lines log.new.lines) }
    ensures search { OnOk result (IsSearching log.new trail.new) }
    ensures places { length trail.new.places.items ≡ length trail.old.places.items }
    ensures lists { OnOk result (HasLists log.new trail.new watches.new) }
    ensures head { IfOk result (λ q. q ≤ length trail.new.path.items) }
    ensures watching { IfOk result (λ q. IsWatchingFrom q log.new trail.new watches.new) }
{
    let taught = teach(alloc, log, trail, scratch, order, conflict)?;
    let clause = log.clause(taught.id);
    let level = back_level(trail, clause, taught.first);
    let other = last_other(trail, clause, taught.first);
    order.release(trail.from_level(level))?;
    trail.cut(level);
    let head = trail.path.len();
    watch_new(watches, taught.id, taught.first, other)?;
    trail.push(taught.first, Some(taught.id))?;
    Ok(head)
}

// Appends the line that a conflict teaches.
fn teach(
    alloc: Global,
    log: &mut Log,
    trail: &Trail,
    scratch: &mut Resolvent,
    order: &mut Order,
    conflict: ClauseId,
) -> Result<Taught, AllocError>
    requires room { length (clauses_of log.old) < 2 ^ 32 - 1 }
    requires search { IsSearching log.old trail.now }
    requires level { 0 < length trail.now.starts.items }
    requires there { conflict.0 < length (clauses_of log.old) }
    requires all_false { AllFalseIn trail.now.path.items (clause_at (clauses_of log.old) conflict) }
    requires variables { scratch.old.variables ≡ length trail.now.places.items }
    ensures variables { scratch.new.variables ≡ scratch.old.variables }
    ensures formula { log.new.formula ≡ log.old.formula }
    ensures line { OnOk result (AddsNew log.old.formula.clauses log.old.lines log.new.lines) }
    ensures taught { IfOk result (λ t. IsTaught (clauses_of log.old) (clauses_of log.new) trail.now.path.items (last_start trail.now.starts.items) t.id t.first) }
{
    let lesson = lesson_of(alloc, log, trail, scratch, conflict)?;
    let first = lesson.first;
    order.note(&lesson.derivation.steps, scratch.literals());
    let id = append(log, &lesson.derivation)?;
    Ok(Taught { id, first })
}

/// Appends the line of a derivation.
pub fn append(log: &mut Log, derivation: &Derivation) -> Result<ClauseId, AllocError>
    requires room { length (clauses_of log.old) < 2 ^ 32 - 1 }
    requires start { derivation.now.start.0 < length (clauses_of log.old) }
    requires steps { StepsAreIn (length (clauses_of log.old)) derivation.now.steps.items }
    ensures formula { log.new.formula ≡ log.old.formula }
    ensures id { IfOk result (λ id. id.0 ≡ length (clauses_of log.old)) }
    ensures line { OnOk result (log.new.lines ≡ log.old.lines ++ line_from (clauses_of log.old) derivation.now.start derivation.now.steps.items ∷ []) }
{
    if derivation.steps.len() >= 1 << 32 {
        return Err(AllocError);
    }
    match log.line(derivation.start, &derivation.steps) {
        Ok(id) => Ok(id),
        Err(LogError::Memory) => Err(AllocError),
        Err(LogError::NoSuchClause { .. }) => unreachable!(),
    }
}

// The lowest level at which the clause has one literal that isn't false.
fn back_level(trail: &Trail, clause: &[Lit], first: Lit) -> usize
    requires level { 0 < length trail.now.starts.items }
    requires inside { (l : Literal) → Contains clause.now l → l.var < length trail.now.places.items }
    requires unit { AllButFalseIn (take (last_start trail.now.starts.items) trail.now.path.items) first clause.now }
    ensures unit { AllButFalseIn (take (slice_index_or trail.now.starts.items result 0) trail.now.path.items) first clause.now }
    ensures below { result < length trail.now.starts.items }
    ensures not_unit { (j : ℕ) → j < result → AllButFalseIn (take (slice_index_or trail.now.starts.items j 0) trail.now.path.items) first clause.now → ⊥ }
{
    let mut level = trail.starts.len() - 1;
    'down: while level > 0 {
        if !trail.false_but(clause, first, trail.starts[level - 1]) {
            return level;
        }
        level -= 1;
    }
    level
}

// The literal of a false clause, but for one, that became false last.
fn last_other(trail: &Trail, c: &[Lit], first: Lit) -> Option<Lit>
    requires inside { (l : Literal) → Contains c.now l → l.var < length trail.now.places.items }
    requires others { AllButFalseIn trail.now.path.items first c.now }
    ensures { MatchOption result ((l : Literal) → Contains c.now l → l ≡ first) (λ w. Contains c.now w × (w ≡ first → ⊥) × ((n : ℕ) → IsFalseIn (take n trail.now.path.items) w → AllButFalseIn (take n trail.now.path.items) first c.now)) }
{
    let mut last: Option<Lit> = None;
    let mut place = 0;
    for l in c {
        if *l != first {
            let at = trail.place_of(*l);
            let first_one = last.is_none();
            if first_one || place < at {
                last = Some(*l);
                place = at;
            }
        }
    }
    last
}

// Watches a new clause.
pub fn watch_new(
    watches: &mut Watches,
    id: ClauseId,
    first: Lit,
    other: Option<Lit>,
) -> Result<(), AllocError>
    requires id { id.0 ≡ length watches.old.pairs.items }
    requires first { code_of first < length watches.old.lists.items }
    requires other { ForSome other (λ w. code_of w < length watches.old.lists.items) }
    requires listed { IsListed watches.old.pairs.items watches.old.lists.items }
    ensures pairs { OnOk result (watches.new.pairs.items ≡ watches.old.pairs.items ++ pair_of first other ∷ []) }
    ensures listed { OnOk result (IsListed watches.new.pairs.items watches.new.lists.items) }
    ensures lists { OnOk result (length watches.new.lists.items ≡ length watches.old.lists.items) }
{
    match other {
        None => {
            watches.pairs.push(None)?;
            Ok(())
        }
        Some(second) => {
            add_to(&mut watches.lists, first.code() as usize, id)?;
            add_to(&mut watches.lists, second.code() as usize, id)?;
            watches.pairs.push(Some(Pair { first, second }))?;
            Ok(())
        }
    }
}
