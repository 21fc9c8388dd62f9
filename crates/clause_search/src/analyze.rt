ghost use Rattle.std.specs.Prelude.{◌≡◌, ◌++◌, ◌∷◌, [], ◌<◌, ◌↔◌, IsTrue, IfOk, OnOk, Contains, length};
ghost use Rattle.cnf_clauses.specs.Clause.{HasVariablesBelow};
ghost use Rattle.clause_log.specs.Resolution.{resolvent, resolvents, clause_at, first_places, StepsAreIn, IsWithin};
ghost use Rattle.clause_log.specs.Log.{clauses_of};
ghost use Rattle.clause_search.specs.Path.{AllFalseIn};
ghost use Rattle.clause_search.specs.Learnt.{IsLearnt, IsAsserting, IsCovered, last_start};
ghost use Rattle.clause_search.specs.State.{IsSearching};

use crate::trail::Trail;
use clause_log::log::Log;
use clause_log::resolvent::Resolvent;
use cnf_clauses::lit::{ClauseId, Lit};
use std::alloc::{AllocError, Global};

/// How a clause is derived: what it begins with, and the steps of resolution.
#[derive(Drop)]
pub struct Derivation {
    pub start: ClauseId,
    pub steps: Vec<(ClauseId, Lit)>,
}

/// A derivation of an asserting clause, and its literal of the last level.
#[derive(Drop)]
pub struct Lesson {
    pub derivation: Derivation,
    pub first: Lit,
}

/// Derives the asserting clause at the first unique implication point of a conflict, without the literals
/// of lower levels that its others make false.
pub fn lesson_of(
    alloc: Global,
    log: &Log,
    trail: &Trail,
    scratch: &mut Resolvent,
    conflict: ClauseId,
) -> Result<Lesson, AllocError>
    requires search { IsSearching log.now trail.now }
    requires level { 0 < length trail.now.starts.items }
    requires there { conflict.0 < length (clauses_of log.now) }
    requires all_false { AllFalseIn trail.now.path.items (clause_at (clauses_of log.now) conflict) }
    requires variables { scratch.old.variables ≡ length trail.now.places.items }
    ensures variables { scratch.new.variables ≡ scratch.old.variables }
    ensures start { IfOk result (λ l. l.derivation.start ≡ conflict) }
    ensures steps_in { IfOk result (λ l. StepsAreIn (length (clauses_of log.now)) l.derivation.steps.items) }
    ensures asserting { IfOk result (λ l. IsAsserting trail.now.path.items (last_start trail.now.starts.items) (resolvents (clauses_of log.now) (clause_at (clauses_of log.now) conflict) l.derivation.steps.items) l.first) }
{
    let mut derivation = begin(alloc, log, scratch, conflict)?;
    let first = walk_back(log, trail, scratch, &mut derivation)?;
    minimise(log, trail, scratch, &mut derivation, first)?;
    Ok(Lesson { derivation, first })
}

/// Derives the empty clause from a false clause where nothing is decided.
pub fn refutation_of(
    alloc: Global,
    log: &Log,
    trail: &Trail,
    scratch: &mut Resolvent,
    conflict: ClauseId,
) -> Result<Derivation, AllocError>
    requires search { IsSearching log.now trail.now }
    requires level { trail.now.starts.items ≡ [] }
    requires there { conflict.0 < length (clauses_of log.now) }
    requires all_false { AllFalseIn trail.now.path.items (clause_at (clauses_of log.now) conflict) }
    requires variables { scratch.old.variables ≡ length trail.now.places.items }
    ensures start { IfOk result (λ d. d.start ≡ conflict) }
    ensures steps_in { IfOk result (λ d. StepsAreIn (length (clauses_of log.now)) d.steps.items) }
    ensures empty { IfOk result (λ d. resolvents (clauses_of log.now) (clause_at (clauses_of log.now) conflict) d.steps.items ≡ []) }
{
    let mut derivation = begin(alloc, log, scratch, conflict)?;
    let mut n = trail.path.len();
    'back: while n > 0 {
        n -= 1;
        let lit = trail.path[n].opposite();
        if scratch.contains(lit) {
            match trail.reasons[n] {
                Some(id) => {
                    resolve_with(log, scratch, &mut derivation, id, lit)?;
                }
                None => unreachable!(),
            }
        }
    }
    Ok(derivation)
}

// The derivation with no steps.
fn begin(
    alloc: Global,
    log: &Log,
    scratch: &mut Resolvent,
    start: ClauseId,
) -> Result<Derivation, AllocError>
    requires there { start.0 < length (clauses_of log.now) }
    requires over { HasVariablesBelow scratch.old.variables (clause_at (clauses_of log.now) start) }
    ensures variables { scratch.new.variables ≡ scratch.old.variables }
    ensures literals { OnOk result (scratch.new.literals ≡ first_places (clause_at (clauses_of log.now) start)) }
    ensures start { IfOk result (λ d. d.start ≡ start) }
    ensures steps { IfOk result (λ d. d.steps.items ≡ []) }
{
    scratch.begin(log.clause(start))?;
    Ok(Derivation {
        start,
        steps: Vec::new(alloc),
    })
}

// Resolves with a clause, and notes the step.
fn resolve_with(
    log: &Log,
    scratch: &mut Resolvent,
    derivation: &mut Derivation,
    id: ClauseId,
    lit: Lit,
) -> Result<(), AllocError>
    requires there { id.0 < length (clauses_of log.now) }
    requires over { HasVariablesBelow scratch.old.variables (clause_at (clauses_of log.now) id) }
    ensures variables { scratch.new.variables ≡ scratch.old.variables }
    ensures literals { OnOk result (scratch.new.literals ≡ resolvent lit scratch.old.literals (clause_at (clauses_of log.now) id)) }
    ensures start { derivation.new.start ≡ derivation.old.start }
    ensures steps { OnOk result (derivation.new.steps.items ≡ derivation.old.steps.items ++ (id, lit) ∷ []) }
{
    scratch.resolve(lit, log.clause(id))?;
    derivation.steps.push((id, lit))?;
    Ok(())
}

// Walks back along the last level until one of its literals alone led to the conflict.
fn walk_back(
    log: &Log,
    trail: &Trail,
    scratch: &mut Resolvent,
    derivation: &mut Derivation,
) -> Result<Lit, AllocError>
    requires search { IsSearching log.now trail.now }
    requires level { 0 < length trail.now.starts.items }
    requires there { derivation.old.start.0 < length (clauses_of log.now) }
    requires all_false { AllFalseIn trail.now.path.items (clause_at (clauses_of log.now) derivation.old.start) }
    requires variables { scratch.old.variables ≡ length trail.now.places.items }
    requires literals { scratch.old.literals ≡ first_places (clause_at (clauses_of log.now) derivation.old.start) }
    requires steps { derivation.old.steps.items ≡ [] }
    ensures variables { scratch.new.variables ≡ scratch.old.variables }
    ensures start { derivation.new.start ≡ derivation.old.start }
    ensures learnt { IfOk result (λ u. IsLearnt (clauses_of log.now) derivation.old.start trail.now.path.items (last_start trail.now.starts.items) scratch.new.literals derivation.new.steps.items u) }
{
    let start = trail.starts[trail.starts.len() - 1];
    let mut n = trail.path.len();
    'back: while n > start {
        n -= 1;
        let first = trail.path[n].opposite();
        if scratch.contains(first) {
            if trail.false_but(scratch.literals(), first, start) {
                return Ok(first);
            }
            match trail.reasons[n] {
                Some(id) => {
                    resolve_with(log, scratch, derivation, id, first)?;
                }
                None => unreachable!(),
            }
        }
    }
    unreachable!()
}

// Takes out literals of lower levels that the others of the clause make false.
fn minimise(
    log: &Log,
    trail: &Trail,
    scratch: &mut Resolvent,
    derivation: &mut Derivation,
    first: Lit,
) -> Result<(), AllocError>
    requires search { IsSearching log.now trail.now }
    requires level { 0 < length trail.now.starts.items }
    requires variables { scratch.old.variables ≡ length trail.now.places.items }
    requires learnt { IsLearnt (clauses_of log.now) derivation.old.start trail.now.path.items (last_start trail.now.starts.items) scratch.old.literals derivation.old.steps.items first }
    ensures variables { scratch.new.variables ≡ scratch.old.variables }
    ensures start { derivation.new.start ≡ derivation.old.start }
    ensures learnt { OnOk result (IsLearnt (clauses_of log.now) derivation.old.start trail.now.path.items (last_start trail.now.starts.items) scratch.new.literals derivation.new.steps.items first) }
    ensures within { OnOk result (IsWithin scratch.new.literals scratch.old.literals) }
{
    let mut n = trail.starts[trail.starts.len() - 1];
    'down: while n > 0 {
        n -= 1;
        let follows = trail.path[n];
        let lit = follows.opposite();
        if scratch.contains(lit) {
            match trail.reasons[n] {
                None => {}
                Some(id) => {
                    if is_covered(scratch, log.clause(id), follows) {
                        resolve_with(log, scratch, derivation, id, lit)?;
                    }
                }
            }
        }
    }
    Ok(())
}

// Whether all literals of a reason but the one that follows stand in the clause.
fn is_covered(scratch: &Resolvent, reason: &[Lit], follows: Lit) -> bool
    ensures { IsTrue result ↔ IsCovered scratch.now.literals reason.now follows }
{
    for l in reason {
        if *l != follows && !scratch.contains(*l) {
            return false;
        }
    }
    true
}
