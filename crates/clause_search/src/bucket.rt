ghost use Rattle.std.specs.Prelude.{◌≡◌, ◌++◌, ◌∷◌, [], ℕ, ◌<◌, ◌≤◌, ◌+◌, OnOk, Contains, length, slice_index_or};
ghost use Rattle.cnf_clauses.specs.declared.lit.ClauseId.{ClauseId as Id};

use cnf_clauses::lit::ClauseId;
use std::alloc::{AllocError, Global};
use std::marker::Model;

/// The clauses that may watch a literal.
#[derive(Drop)]
pub struct Bucket {
    ids: Vec<ClauseId>,
}

impl Model for Bucket {
    ghost use Rattle.std.specs.Prelude.{List};
    ghost use Rattle.cnf_clauses.specs.declared.lit.ClauseId.{ClauseId};

    ghost Value = { List ClauseId };

    ghost view = { λ b. b.ids.items };
}

impl Bucket {
    pub fn new(alloc: Global) -> Bucket
        ensures { result ≡ [] }
    {
        Bucket {
            ids: Vec::new(alloc),
        }
    }

    pub fn len(&self) -> usize
        ensures { result ≡ length self.now }
    {
        self.ids.len()
    }

    pub fn at(&self, i: usize) -> ClauseId
        requires { i < length self.now }
        ensures { result ≡ slice_index_or self.now i result }
    {
        self.ids[i]
    }

    pub fn add(&mut self, id: ClauseId) -> Result<(), AllocError>
        ensures { OnOk result (self.new ≡ self.old ++ id ∷ []) }
    {
        self.ids.push(id)?;
        Ok(())
    }

    pub fn remove(&mut self, i: usize)
        requires { i < length self.old }
        ensures len { length self.new + 1 ≡ length self.old }
        ensures before { (j : ℕ) (d : Id) → j < i → slice_index_or self.new j d ≡ slice_index_or self.old j d }
        ensures later { (j : ℕ) (d : Id) → i < j → j < length self.old → (m : ℕ) × (i ≤ m) × (m < length self.new) × (slice_index_or self.new m d ≡ slice_index_or self.old j d) }
    {
        let _id = self.ids.swap_remove(i);
    }
}
