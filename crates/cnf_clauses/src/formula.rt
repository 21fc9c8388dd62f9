ghost use Rattle.std.specs.Prelude.{◌≡◌, ◌++◌, ◌∷◌, [], ◌<◌, ◌+◌, ◌^◌, ◌-◌, ◌↔◌, IsTrue, OnOk, OnErr, IfOk, length, slice_index_or};
ghost use Rattle.cnf_clauses.specs.Clause.{IsOver};

use crate::lit::{ClauseId, Lit};
use crate::rows::Rows;
use memory::Memory;
use std::alloc::Global;
use std::marker::Model;

/// A number of variables and a list of clauses over them.
#[derive(Drop)]
pub struct Formula {
    variables: u32,
    clauses: Rows<Lit>,
}

impl Model for Formula {
    ghost use Rattle.cnf_clauses.specs.Formula.{Cnf, IsFormula};

    ghost Value = { Cnf };

    ghost view = { λ f. record { variables = f.variables; clauses = f.clauses } };

    ghost invariant = { λ f. IsFormula f.variables f.clauses };
}

impl Formula {
    ghost use Rattle.cnf_clauses.specs.Formula.{IsFormula};

    /// No variables and no clauses. It takes no memory.
    pub fn begin(alloc: Global) -> Formula
        ensures { result ≡ record { variables = 0; clauses = [] } }
    {
        Formula {
            variables: 0,
            clauses: Rows::new(alloc),
        }
    }

    /// How many variables there are, at most 2^31. They are counted from 0.
    pub fn variables(&self) -> u32
        ensures value { result ≡ self.now.variables }
        ensures is_formula { IsFormula self.now.variables self.now.clauses }
    {
        self.variables
    }

    /// How many clauses there are.
    pub fn clauses(&self) -> u32
        ensures { result ≡ length self.now.clauses }
    {
        self.clauses.len() as u32
    }

    /// The clause of a number below `clauses`.
    pub fn clause(&self, k: u32) -> &[Lit]
        requires { k < length self.now.clauses }
        ensures { result.now ≡ slice_index_or self.now.clauses k [] }
    {
        self.clauses.row(k as usize)
    }

    /// Whether all variables of a clause are the formula's, as `add` asks.
    pub fn covers(&self, lits: &[Lit]) -> bool
        ensures { IsTrue result ↔ IsOver self.now.variables lits.now }
    {
        let variables = self.variables;
        for lit in lits {
            if lit.var() >= variables {
                return false;
            }
        }
        true
    }

    /// Adds a variable, and gives its number. It takes no memory.
    pub fn fresh(&mut self) -> u32
        requires { self.old.variables < 2 ^ 31 }
        ensures result { result ≡ self.old.variables }
        ensures formula { self.new ≡ record self.old { variables = self.old.variables + 1 } }
    {
        let variable = self.variables;
        self.variables += 1;
        variable
    }

    /// Appends a clause over the formula's variables. It fails only for want of memory, which here
    /// includes more than 2^32 - 1 literals in all, and then changes nothing.
    pub fn add(&mut self, lits: &[Lit]) -> Result<ClauseId, Memory>
        requires over { IsOver self.old.variables lits.now }
        requires room { length self.old.clauses < 2 ^ 32 - 1 }
        ensures id { IfOk result (λ id. id.0 ≡ length self.old.clauses) }
        ensures ok { OnOk result (self.new ≡ record self.old { clauses = self.old.clauses ++ lits.now ∷ [] }) }
        ensures err { OnErr result (self.new ≡ self.old) }
    {
        let id = ClauseId(self.clauses.len() as u32);
        self.clauses.push(lits)?;
        Ok(id)
    }
}
