ghost use Rattle.std.specs.Prelude.{◌≡◌, ◌++◌, ◌∷◌, [], ℕ, Bool, Some, ◌<◌, ◌+◌, ◌^◌, ◌-◌, ◌↔◌, IsTrue, IfOk, OnOk, OnErr, IsErrOf, length, slice_index_or};
ghost use Rattle.cnf_clauses.specs.Clause.{Models, IsMet};
ghost use Rattle.clause_log.specs.Resolution.{clause_at, resolvents, first_places, StepsAreIn};
ghost use Rattle.clause_log.specs.Line.{Line, line_from};
ghost use Rattle.clause_log.specs.Log.{IsLog, all_clauses};
ghost use Rattle.clause_log.specs.Missing.{first_missing};

use crate::error::LogError;
use crate::lines::Lines;
use crate::resolvent::Resolvent;
use cnf_clauses::formula::Formula;
use cnf_clauses::lit::{ClauseId, Lit};
use memory::Memory;
use std::alloc::{AllocError, Global};
use std::marker::Model;

/// A formula, and lines that follow from it by resolution.
#[derive(Drop)]
pub struct Log {
    alloc: Global,
    formula: Formula,
    lines: Lines,
    scratch: Resolvent,
}

impl Model for Log {
    ghost use Rattle.std.specs.Prelude.{◌≡◌};
    ghost use Rattle.clause_log.specs.Log.{ClauseLog, IsLog};

    ghost Value = { ClauseLog };

    ghost view = { λ l. record { formula = l.formula; lines = l.lines } };

    ghost invariant = { λ l. IsLog l.formula.variables l.formula.clauses l.lines × (l.scratch.variables ≡ l.formula.variables) };
}

impl Log {
    ghost use Rattle.clause_log.specs.Log.{clauses_of, Refutes};

    /// A log of this formula with no lines.
    pub fn begin(alloc: Global, formula: Formula) -> Result<Log, Memory>
        ensures { IfOk result (λ l. l ≡ record { formula = formula; lines = [] }) }
    {
        let scratch = Resolvent::new(alloc, formula.variables())?;
        Ok(Log {
            alloc,
            formula,
            lines: Lines::new(alloc),
            scratch,
        })
    }

    /// The formula.
    pub fn formula(&self) -> &Formula
        ensures formula { result.now ≡ self.now.formula }
        ensures is_log { IsLog self.now.formula.variables self.now.formula.clauses self.now.lines }
    {
        &self.formula
    }

    /// How many lines there are.
    pub fn lines(&self) -> u64
        ensures { result ≡ length self.now.lines }
    {
        self.lines.len() as u64
    }

    /// How many clauses and lines there are together.
    pub fn clauses(&self) -> u32
        ensures { result ≡ length (clauses_of self.now) }
    {
        self.formula.clauses() + self.lines.len() as u32
    }

    /// What a line of a number below `lines` begins with.
    pub fn start_of(&self, line: u64) -> ClauseId
        requires { line < length self.now.lines }
        ensures { (d : Line) → result ≡ (slice_index_or self.now.lines line d).start }
    {
        self.lines.start(line as usize)
    }

    /// The steps of resolution of a line of a number below `lines`.
    pub fn steps_of(&self, line: u64) -> &[(ClauseId, Lit)]
        requires { line < length self.now.lines }
        ensures { (d : Line) → result.now ≡ (slice_index_or self.now.lines line d).steps }
    {
        self.lines.steps(line as usize)
    }

    /// A clause or a line that is there. It is true in each assignment that meets the formula.
    pub fn clause(&self, id: ClauseId) -> &[Lit]
        requires { id.0 < length (clauses_of self.now) }
        ensures value { result.now ≡ clause_at (clauses_of self.now) id }
        ensures sound { (v : ℕ → Bool) → Models v self.now.formula.clauses → IsMet v result.now }
    {
        clause_in(&self.formula, &self.lines, id)
    }

    /// Whether the empty clause is a clause or a line.
    pub fn refutes(&self) -> bool
        ensures { IsTrue result ↔ Refutes (clauses_of self.now) }
    {
        for k in 0..self.clauses() {
            if self.clause(ClauseId(k)).is_empty() {
                return true;
            }
        }
        false
    }

    /// Resolves a clause with others, one after another, and appends the result as a line. A step names the
    /// other clause, and the literal of this one on which it is resolved.
    ///
    /// `NoSuchClause` comes exactly where a named clause isn't there, and names the first of these, the start
    /// first. After a refusal the log is unchanged.
    pub fn line(&mut self, start: ClauseId, steps: &[(ClauseId, Lit)]) -> Result<ClauseId, LogError>
        requires room { length (clauses_of self.old) < 2 ^ 32 - 1 }
        requires steps { length steps.now < 2 ^ 32 }
        ensures id { IfOk result (λ id. id.0 ≡ length (clauses_of self.old)) }
        ensures ok { OnOk result (self.new ≡ record self.old { lines = self.old.lines ++ line_from (clauses_of self.old) start steps.now ∷ [] }) }
        ensures err { OnErr result (self.new ≡ self.old) }
        ensures missing { (id : ℕ) → IsErrOf result (LogError.NoSuchClause id) ↔ (first_missing (length (clauses_of self.old)) start steps.now ≡ Some id) }
    {
        let count = self.clauses();
        match first_missing(count, start, steps) {
            Some(id) => Err(LogError::NoSuchClause { id }),
            None => {
                append(
                    self.alloc,
                    &self.formula,
                    &mut self.lines,
                    &mut self.scratch,
                    start,
                    steps,
                )?;
                Ok(ClauseId(count))
            }
        }
    }
}

// A clause of the formula, or of a line.
fn clause_in<'a>(formula: &'a Formula, lines: &'a Lines, id: ClauseId) -> &'a [Lit]
    requires { id.0 < length (all_clauses formula.now.clauses lines.now) }
    ensures { result.now ≡ clause_at (all_clauses formula.now.clauses lines.now) id }
{
    let count = formula.clauses();
    if id.0 < count {
        formula.clause(id.0)
    } else {
        lines.clause((id.0 - count) as usize)
    }
}

// Of the clauses that a line names, the first that is none of the first `count`.
fn first_missing(count: u32, start: ClauseId, steps: &[(ClauseId, Lit)]) -> Option<u32>
    ensures { result ≡ first_missing count start steps.now }
{
    if start.0 >= count {
        return Some(start.0);
    }
    for step in steps {
        let id = step.0;
        if id.0 >= count {
            return Some(id.0);
        }
    }
    None
}

// Appends the line that comes of a start and steps. For want of memory the lines are unchanged.
fn append(
    alloc: Global,
    formula: &Formula,
    lines: &mut Lines,
    scratch: &mut Resolvent,
    start: ClauseId,
    steps: &[(ClauseId, Lit)],
) -> Result<(), AllocError>
    requires log { IsLog formula.now.variables formula.now.clauses lines.old }
    requires variables { scratch.old.variables ≡ formula.now.variables }
    requires room { length (all_clauses formula.now.clauses lines.old) < 2 ^ 32 - 1 }
    requires start { start.0 < length (all_clauses formula.now.clauses lines.old) }
    requires steps { StepsAreIn (length (all_clauses formula.now.clauses lines.old)) steps.now }
    ensures variables { scratch.new.variables ≡ scratch.old.variables }
    ensures log { IsLog formula.now.variables formula.now.clauses lines.new }
    ensures ok { OnOk result (lines.new ≡ lines.old ++ line_from (all_clauses formula.now.clauses lines.old) start steps.now ∷ []) }
    ensures err { OnErr result (lines.new ≡ lines.old) }
{
    if steps.is_empty() {
        let clause = Vec::from_slice(alloc, clause_in(formula, lines, start))?;
        return lines.push(start, steps, &clause);
    }
    derive(formula, lines, scratch, start, steps)?;
    lines.push(start, steps, scratch.literals())
}

// Computes the resolvents of a clause with others, one after another. For want of memory any clause may be left.
fn derive(
    formula: &Formula,
    lines: &Lines,
    scratch: &mut Resolvent,
    start: ClauseId,
    steps: &[(ClauseId, Lit)],
) -> Result<(), AllocError>
    requires log { IsLog formula.now.variables formula.now.clauses lines.now }
    requires variables { scratch.old.variables ≡ formula.now.variables }
    requires start { start.0 < length (all_clauses formula.now.clauses lines.now) }
    requires steps { StepsAreIn (length (all_clauses formula.now.clauses lines.now)) steps.now }
    ensures variables { scratch.new.variables ≡ scratch.old.variables }
    ensures literals { OnOk result (scratch.new.literals ≡ first_places (resolvents (all_clauses formula.now.clauses lines.now) (clause_at (all_clauses formula.now.clauses lines.now) start) steps.now)) }
{
    scratch.begin(clause_in(formula, lines, start))?;
    for step in steps {
        let id = step.0;
        scratch.resolve(step.1, clause_in(formula, lines, id))?;
    }
    Ok(())
}
