ghost use Rattle.std.specs.Prelude.{◌≡◌, ◌++◌, ◌∷◌, [], ℕ, ◌<◌, ◌≤◌, ◌+◌, ◌^◌, ◌↔◌, IfOk, OnOk, OnErr, IsTrue, MatchOption, Contains, length, take, slice_index_or, replicate};
ghost use Rattle.cnf_clauses.specs.Literal.{opposite, Literal};
ghost use Rattle.clause_search.specs.Path.{IsTrail, AllButFalseIn, free_count};

use cnf_clauses::lit::{ClauseId, Lit};
use std::alloc::{AllocError, Global};

/// What is known of a literal.
#[derive(Clone, Copy, PartialEq, Eq, Debug)]
pub enum Value {
    True,
    False,
    Free,
}

/// The literals that are true, in the order in which they became so, cut into decision levels.
#[derive(Drop)]
pub struct Trail {
    /// The true literals.
    pub path: Vec<Lit>,
    /// The clause from which each of them follows, or none for a decision.
    pub reasons: Vec<Option<ClauseId>>,
    /// How long the path was when each level began.
    pub starts: Vec<usize>,
    /// Where in the path each variable stands.
    pub places: Vec<Option<usize>>,
    pub ghost is_trail: { IsTrail path.items reasons.items starts.items places.items },
}

impl Trail {
    ghost use Rattle.clause_search.specs.Trail.{IsValue};

    /// No literal is true yet, of this many variables.
    pub fn new(alloc: Global, variables: u32) -> Result<Trail, AllocError>
        requires { variables ≤ 2 ^ 31 }
        ensures path { IfOk result (λ t. t.path.items ≡ []) }
        ensures starts { IfOk result (λ t. t.starts.items ≡ []) }
        ensures places { IfOk result (λ t. length t.places.items ≡ variables) }
    {
        let places = vec![in alloc; None; variables as usize]?;
        Ok(Trail {
            path: Vec::new(alloc),
            reasons: Vec::new(alloc),
            starts: Vec::new(alloc),
            places,
        })
    }

    /// Whether a literal is among the first `n`.
    pub fn holds_before(&self, l: Lit, n: usize) -> bool
        requires { l.var < length self.now.places.items }
        ensures { IsTrue result ↔ Contains (take n self.now.path.items) l }
    {
        match self.places[l.var() as usize] {
            None => false,
            Some(p) => p < n && self.path[p] == l,
        }
    }

    /// Whether a literal is true or false, or neither.
    pub fn value(&self, l: Lit) -> Value
        requires { l.var < length self.now.places.items }
        ensures { IsValue self.now.path.items self.now.places.items l result }
    {
        match self.places[l.var() as usize] {
            None => Value::Free,
            Some(p) => {
                if self.path[p] == l {
                    Value::True
                } else {
                    Value::False
                }
            }
        }
    }

    /// The place of a variable that has one.
    pub fn place_of(&self, l: Lit) -> usize
        requires inside { l.var < length self.now.places.items }
        requires placed { slice_index_or self.now.places.items l.var None ≡ None → ⊥ }
        ensures { slice_index_or self.now.places.items l.var None ≡ Some result }
    {
        match self.places[l.var() as usize] {
            Some(p) => p,
            None => unreachable!(),
        }
    }

    /// Whether the variable of a literal is one of the trail's and has no place.
    pub fn is_free(&self, l: Lit) -> bool
        ensures { IsTrue result ↔ ((l.var < length self.now.places.items) × (slice_index_or self.now.places.items l.var None ≡ None)) }
    {
        let at = l.var() as usize;
        at < self.places.len() && self.places[at].is_none()
    }

    /// A variable with no place.
    pub fn free_variable(&self) -> Option<usize>
        ensures { MatchOption result ((v : ℕ) → v < length self.now.places.items → slice_index_or self.now.places.items v None ≡ None → ⊥) (λ v. (v < length self.now.places.items) × (slice_index_or self.now.places.items v None ≡ None)) }
    {
        for v in 0..self.places.len() {
            if self.places[v].is_none() {
                return Some(v);
            }
        }
        None
    }

    /// Whether all literals of a clause but one are false by the first `n`.
    pub fn false_but(&self, c: &[Lit], u: Lit, n: usize) -> bool
        requires { (l : Literal) → Contains c.now l → l.var < length self.now.places.items }
        ensures { IsTrue result ↔ AllButFalseIn (take n self.now.path.items) u c.now }
    {
        for l in c {
            if *l != u && !self.holds_before(l.opposite(), n) {
                return false;
            }
        }
        true
    }

    /// Adds a literal that follows from a clause, or begins a level.
    pub fn push(&mut self, l: Lit, reason: Option<ClauseId>) -> Result<(), AllocError>
        requires inside { l.var < length self.old.places.items }
        requires free { slice_index_or self.old.places.items l.var None ≡ None }
        ensures path { OnOk result (self.new.path.items ≡ self.old.path.items ++ l ∷ []) }
        ensures reasons { OnOk result (self.new.reasons.items ≡ self.old.reasons.items ++ reason ∷ []) }
        ensures starts { self.new.starts.items ≡ self.old.starts.items }
        ensures places { length self.new.places.items ≡ length self.old.places.items }
        ensures fewer { OnOk result (free_count self.new.places.items + 1 ≡ free_count self.old.places.items) }
    {
        let n = self.path.len();
        let at = l.var() as usize;
        self.path.push(l)?;
        match self.reasons.push(reason) {
            Ok(()) => {
                self.places[at] = Some(n);
                Ok(())
            }
            Err(_) => {
                self.path.truncate(n);
                Err(AllocError)
            }
        }
    }

    /// Begins a level with a literal.
    pub fn decide(&mut self, l: Lit) -> Result<(), AllocError>
        requires inside { l.var < length self.old.places.items }
        requires free { slice_index_or self.old.places.items l.var None ≡ None }
        ensures path { OnOk result (self.new.path.items ≡ self.old.path.items ++ l ∷ []) }
        ensures reasons { OnOk result (self.new.reasons.items ≡ self.old.reasons.items ++ None ∷ []) }
        ensures starts { OnOk result (self.new.starts.items ≡ self.old.starts.items ++ length self.old.path.items ∷ []) }
        ensures places { length self.new.places.items ≡ length self.old.places.items }
        ensures fewer { OnOk result (free_count self.new.places.items + 1 ≡ free_count self.old.places.items) }
    {
        let n = self.path.len();
        self.starts.push(n)?;
        self.push(l, None)
    }

    /// The literals of the levels from one on.
    pub fn from_level(&self, level: usize) -> &[Lit]
        requires { level < length self.now.starts.items }
    {
        &self.path[self.starts[level]..]
    }

    /// Takes back the levels from one on.
    pub fn cut(&mut self, level: usize)
        requires { level < length self.old.starts.items }
        ensures path { self.new.path.items ≡ take (slice_index_or self.old.starts.items level 0) self.old.path.items }
        ensures reasons { self.new.reasons.items ≡ take (slice_index_or self.old.starts.items level 0) self.old.reasons.items }
        ensures starts { self.new.starts.items ≡ take level self.old.starts.items }
        ensures places { length self.new.places.items ≡ length self.old.places.items }
    {
        let n = self.starts[level];
        clear(&mut self.places, &self.path[n..]);
        self.starts.truncate(level);
        self.path.truncate(n);
        self.reasons.truncate(n);
    }
}

// Takes away the places of these literals.
fn clear(places: &mut Vec<Option<usize>>, gone: &[Lit])
    requires { (k : ℕ) (d : Literal) → k < length gone.now → (slice_index_or gone.now k d).var < length places.old.items }
    ensures cleared { (k : ℕ) (d : Literal) → k < length gone.now → slice_index_or places.new.items (slice_index_or gone.now k d).var None ≡ None }
    ensures others { (v : ℕ) → ((k : ℕ) (d : Literal) → k < length gone.now → (slice_index_or gone.now k d).var ≡ v → ⊥) → slice_index_or places.new.items v None ≡ slice_index_or places.old.items v None }
    ensures len { length places.new.items ≡ length places.old.items }
{
    for l in gone {
        places[l.var() as usize] = None;
    }
}
