ghost use Rattle.std.specs.Prelude.{◌≡◌, ◌+◌, ◌-◌, ◌^◌, ◌<◌, ◌≤◌, length, min, IsTrue, IsOk, OnOk, OnErr};
ghost use Rattle.cnf_clauses.specs.Clause.{IsOver};
ghost use Rattle.clause_search_dimacs.specs.Dimacs.{nothing_read, is_over, takes, ended, after_number, is_comment, is_head, Grows};

use cnf_clauses::{Formula, Lit};
use memory::Memory;
use std::alloc::Global;
use std::marker::Model;

/// A formula in DIMACS form, as far as it was read. A contract sees the formula, and the literals of the clause that is
/// open.
#[derive(Drop)]
pub struct Reader {
    formula: Formula,
    clause: Vec<Lit>,
}

impl Model for Reader {
    ghost use Rattle.clause_search_dimacs.specs.Dimacs.{Reading};

    ghost Value = { Reading };

    ghost view = { λ r. record { formula = r.formula; clause = r.clause.items } };
}

// The most variables of a formula.
const MOST_VARIABLES: u32 = 1 << 31;

// The most clauses of a formula.
const MOST_CLAUSES: u32 = 0xffff_fffe;

impl Reader {
    /// Nothing was read.
    pub fn new(alloc: Global) -> Reader
        ensures { result ≡ nothing_read }
    {
        Reader {
            formula: Formula::begin(alloc),
            clause: Vec::new(alloc),
        }
    }

    /// The formula that was read.
    pub fn into_formula(self) -> Formula
        ensures { result ≡ self.formula }
    {
        self.formula
    }

    /// Reads a line: a comment, the head with the number of variables, or literals. Words that are none of
    /// these are read over.
    pub fn read(&mut self, line: &str) -> Result<(), Memory>
        ensures comment { IsTrue (is_comment line.now) → IsOk result × (self.new ≡ self.old) }
        ensures head { IsTrue (is_head line.now) → IsOk result × (self.new.formula.clauses ≡ self.old.formula.clauses) × (self.new.clause ≡ self.old.clause) }
        ensures grows { Grows self.old.formula self.new.formula }
    {
        if line.starts_with('c') {
            return Ok(());
        }
        if line.starts_with('p') {
            self.read_head(line);
            return Ok(());
        }
        self.read_literals(line)
    }

    // Reads literals.
    fn read_literals(&mut self, line: &str) -> Result<(), Memory>
        ensures grows { Grows self.old.formula self.new.formula }
        ensures variables { self.new.formula.variables ≡ self.old.formula.variables }
    {
        for word in line.split_whitespace() {
            if let Ok(number) = word.parse::<i32>() {
                self.read_literal(number)?;
            }
        }
        Ok(())
    }

    // Reads the number of variables, which is the third word of the head.
    fn read_head(&mut self, line: &str)
        ensures clauses { self.new.formula.clauses ≡ self.old.formula.clauses }
        ensures clause { self.new.clause ≡ self.old.clause }
        ensures grows { Grows self.old.formula self.new.formula }
    {
        let mut place = 0u32;
        for word in line.split_whitespace() {
            if place == 2
                && let Ok(count) = word.parse::<u32>()
            {
                self.add_variables(count);
            }
            place = place.saturating_add(1);
        }
    }

    // Adds so many variables, as far as a formula may have them.
    fn add_variables(&mut self, count: u32)
        ensures variables { self.new.formula.variables ≡ min (self.old.formula.variables + count) (2 ^ 31) }
        ensures as_many { self.old.formula.variables ≤ self.new.formula.variables }
        ensures clauses { self.new.formula.clauses ≡ self.old.formula.clauses }
        ensures clause { self.new.clause ≡ self.old.clause }
    {
        let room = MOST_VARIABLES - self.formula.variables();
        for i in 0..count.min(room) {
            let _variable = self.formula.fresh();
        }
    }

    // Reads a literal, or the end of a clause.
    fn read_literal(&mut self, number: i32) -> Result<(), Memory>
        ensures ok { OnOk result (self.new ≡ after_number number self.old) }
        ensures err { OnErr result (self.new ≡ self.old) }
    {
        let size = number.unsigned_abs();
        if size == 0 {
            self.end_clause()?;
        } else if size <= MOST_VARIABLES {
            self.clause.push(Lit::new(size - 1, number < 0))?;
        }
        Ok(())
    }

    // Ends the clause that is open. It is left out where the formula can't take it.
    fn end_clause(&mut self) -> Result<(), Memory>
        ensures ok { OnOk result (self.new ≡ ended self.old) }
        ensures err { OnErr result (self.new ≡ self.old) }
    {
        if takes(&self.formula, &self.clause) {
            let _id = self.formula.add(&self.clause)?;
        }
        self.clause.clear();
        Ok(())
    }
}

// Whether a formula gains a clause: it has the clause's variables, and room for one more.
fn takes(formula: &Formula, clause: &[Lit]) -> bool
    ensures value { result ≡ takes formula.now clause.now }
    ensures over { IsTrue result → IsOver formula.now.variables clause.now }
    ensures room { IsTrue result → length formula.now.clauses < 2 ^ 32 - 2 }
{
    is_over(formula, clause) && formula.clauses() < MOST_CLAUSES
}

// Whether all variables of a clause are the formula's.
fn is_over(formula: &Formula, clause: &[Lit]) -> bool
    ensures value { result ≡ is_over formula.now.variables clause.now }
    ensures over { IsTrue result → IsOver formula.now.variables clause.now }
{
    formula.covers(clause)
}
