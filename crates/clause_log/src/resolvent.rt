ghost use Rattle.std.specs.Prelude.{◌≡◌, ◌++◌, ◌∷◌, [], ◌<◌, ◌↔◌, IsTrue, OnOk, IfOk, Contains, List, length};
ghost use Rattle.cnf_clauses.specs.Literal.{Literal, opposite, code_of};
ghost use Rattle.cnf_clauses.specs.Clause.{HasVariablesBelow};
ghost use Rattle.clause_log.specs.Resolution.{resolvent, first_places, without};
ghost use Rattle.clause_log.specs.Marks.{AreMarks, HasMarks, IsMarked};

use cnf_clauses::lit::Lit;
use std::alloc::{AllocError, Global};
use std::marker::Model;

/// A clause that is resolved with others, one after another, with a mark for each literal in it.
///
/// So a step takes time linear in both clauses, and asking for a literal takes one look.
#[derive(Drop)]
pub struct Resolvent {
    variables: u32,
    literals: Vec<Lit>,
    marks: Vec<bool>,
}

impl Model for Resolvent {
    ghost use Rattle.clause_log.specs.Marks.{Scratch, IsScratch};

    ghost Value = { Scratch };

    ghost view = { λ r. record { variables = r.variables; literals = r.literals.items } };

    ghost invariant = { λ r. IsScratch r.variables r.marks.items r.literals.items };
}

impl Resolvent {
    /// The empty clause over this many variables.
    pub fn new(alloc: Global, variables: u32) -> Result<Resolvent, AllocError>
        ensures { IfOk result (λ r. r ≡ record { variables = variables; literals = [] }) }
    {
        let marks = vec![in alloc; false; 2 * variables as usize]?;
        Ok(Resolvent {
            variables,
            literals: Vec::new(alloc),
            marks,
        })
    }

    /// The literals, in the order of the resolvents.
    pub fn literals(&self) -> &[Lit]
        ensures value { result.now ≡ self.now.literals }
        ensures over { HasVariablesBelow self.now.variables self.now.literals }
    {
        &self.literals
    }

    /// Whether a literal stands in the clause.
    pub fn contains(&self, lit: Lit) -> bool
        ensures { IsTrue result ↔ Contains self.now.literals lit }
    {
        let at = lit.code() as usize;
        at < self.marks.len() && self.marks[at]
    }

    /// Begins anew with a clause, of which it takes each literal once. For want of memory any clause may be left.
    pub fn begin(&mut self, clause: &[Lit]) -> Result<(), AllocError>
        requires { HasVariablesBelow self.old.variables clause.now }
        ensures variables { self.new.variables ≡ self.old.variables }
        ensures literals { OnOk result (self.new.literals ≡ first_places clause.now) }
    {
        unmark(&mut self.marks, &self.literals);
        self.literals.clear();
        add_all(&mut self.literals, &mut self.marks, clause)
    }

    /// Resolves the clause on one of its literals with another clause. For want of memory any clause may be left.
    pub fn resolve(&mut self, on: Lit, clause: &[Lit]) -> Result<(), AllocError>
        requires { HasVariablesBelow self.old.variables clause.now }
        ensures variables { self.new.variables ≡ self.old.variables }
        ensures literals { OnOk result (self.new.literals ≡ resolvent on self.old.literals clause.now) }
    {
        take_out(&mut self.literals, &mut self.marks, on);
        add_without(&mut self.literals, &mut self.marks, clause, on.opposite())
    }
}

// Takes the marks of these literals away.
fn unmark(marks: &mut Vec<bool>, literals: &[Lit])
    requires { IsMarked marks.old.items literals.now }
    ensures marks { AreMarks marks.new.items [] }
    ensures size { length marks.new.items ≡ length marks.old.items }
{
    for lit in literals {
        marks[lit.code() as usize] = false;
    }
}

// Takes a literal out, and its mark.
fn take_out(literals: &mut Vec<Lit>, marks: &mut Vec<bool>, lit: Lit)
    requires { IsMarked marks.old.items literals.old.items }
    ensures literals { literals.new.items ≡ without lit literals.old.items }
    ensures marked { IsMarked marks.new.items literals.new.items }
    ensures size { length marks.new.items ≡ length marks.old.items }
{
    close_up(literals, lit);
    let at = lit.code() as usize;
    if at < marks.len() {
        marks[at] = false;
    }
}

// Moves the other literals down over this one.
fn close_up(literals: &mut Vec<Lit>, lit: Lit)
    ensures { literals.new.items ≡ without lit literals.old.items }
{
    let mut kept = 0;
    for i in 0..literals.len() {
        let other = literals[i];
        if other != lit {
            literals[kept] = other;
            kept += 1;
        }
    }
    literals.truncate(kept);
}

// Adds the literals of a clause that aren't there.
fn add_all(literals: &mut Vec<Lit>, marks: &mut Vec<bool>, clause: &[Lit]) -> Result<(), AllocError>
    requires marked { IsMarked marks.old.items literals.old.items }
    requires inside { HasMarks marks.old.items clause.now }
    ensures literals { OnOk result ((xs : List Literal) → literals.old.items ≡ first_places xs → literals.new.items ≡ first_places (xs ++ clause.now)) }
    ensures marked { IsMarked marks.new.items literals.new.items }
    ensures size { length marks.new.items ≡ length marks.old.items }
{
    for lit in clause {
        add_once(literals, marks, *lit)?;
    }
    Ok(())
}

// Adds the literals of a clause but one that aren't there.
fn add_without(
    literals: &mut Vec<Lit>,
    marks: &mut Vec<bool>,
    clause: &[Lit],
    but: Lit,
) -> Result<(), AllocError>
    requires marked { IsMarked marks.old.items literals.old.items }
    requires inside { HasMarks marks.old.items clause.now }
    ensures literals { OnOk result ((xs : List Literal) → literals.old.items ≡ first_places xs → literals.new.items ≡ first_places (xs ++ without but clause.now)) }
    ensures marked { IsMarked marks.new.items literals.new.items }
    ensures size { length marks.new.items ≡ length marks.old.items }
{
    for lit in clause {
        if *lit != but {
            add_once(literals, marks, *lit)?;
        }
    }
    Ok(())
}

// Adds a literal unless it is there.
fn add_once(literals: &mut Vec<Lit>, marks: &mut Vec<bool>, lit: Lit) -> Result<(), AllocError>
    requires marked { IsMarked marks.old.items literals.old.items }
    requires inside { code_of lit < length marks.old.items }
    ensures literals { OnOk result ((xs : List Literal) → literals.old.items ≡ first_places xs → literals.new.items ≡ first_places (xs ++ lit ∷ [])) }
    ensures marked { IsMarked marks.new.items literals.new.items }
    ensures size { length marks.new.items ≡ length marks.old.items }
{
    let at = lit.code() as usize;
    if !marks[at] {
        literals.push(lit)?;
        marks[at] = true;
    }
    Ok(())
}
