//! The classes.

ghost use Rattle.std.specs.Prelude.{◌≡◌, ◌≢◌, ℕ, ◌+◌, ◌^◌, ◌<◌, ◌≤◌, ◌++◌, ◌∷◌, [], List, Some, IfOk, MatchOption, length, slice_get, slice_index, replicate};
ghost use Rattle.std.specs.List.{range_with_len};
ghost use Rattle.candidate_classes.specs.Partition.{AreLeaders, LeadFromTo};

use crate::filing::refine;
use crate::parting::{drop_alone, lead};
use memory::Memory;
use std::alloc::Global;
use std::marker::Model;

/// Classes of a graph's nodes. A contract sees the list of the leaders of all nodes.
#[derive(Drop)]
pub struct Classes {
    leaders: Vec<u32>,
    /// The nodes of classes of two and more.
    members: Vec<u32>,
    finer: Vec<u32>,
    nexts: Vec<u32>,
}

impl Model for Classes {
    ghost use Rattle.std.specs.Prelude.{◌≡◌, ◌<◌, ◌^◌, List, ℕ, length};
    ghost use Rattle.candidate_classes.specs.Partition.{AreParting};

    ghost Value = { List ℕ };

    ghost view = { λ c. c.leaders.items };

    ghost invariant = { λ c. (length c.leaders.items < 2 ^ 32) × (length c.finer.items ≡ length c.leaders.items) × (length c.nexts.items ≡ length c.leaders.items) × AreParting c.leaders.items c.members.items };
}

impl Classes {
    /// The partition by width.
    pub fn begin(alloc: Global, widths: &[u32]) -> Result<Classes, Memory>
        requires { length widths.now < 2 ^ 32 }
        ensures size { IfOk result (λ c. length c ≡ length widths.now) }
        ensures leaders { IfOk result (AreLeaders (widths.now ∷ [])) }
    {
        let mut classes = undivided(alloc, widths.len() as u32)?;
        let values = numbers(alloc, widths)?;
        let mut scratch = vec![in alloc; 0u64; widths.len()]?;
        classes.split(&values, &mut scratch);
        Ok(classes)
    }

    /// How many nodes there are.
    pub fn len(&self) -> u32
        ensures { result ≡ length self.now }
    {
        self.leaders.len() as u32
    }

    /// The least node of a node's class.
    pub fn leader(&self, n: u32) -> u32
        requires { n < length self.now }
        ensures { slice_get self.now n ≡ Some result }
    {
        self.leaders[n as usize]
    }

    /// The least node from `from` on that isn't its class's leader.
    pub fn next_free(&self, from: u32) -> Option<u32>
        ensures { MatchOption result (LeadFromTo self.now from (length self.now)) (λ k. (from ≤ k) × (k < length self.now) × (slice_index self.now k ≢ k) × LeadFromTo self.now from k) }
    {
        for k in from as usize..self.leaders.len() {
            if self.leaders[k] != k as u32 {
                return Some(k as u32);
            }
        }
        None
    }

    /// Refines the classes by the values of all nodes. `scratch` has as many places as there are nodes, and any numbers.
    pub fn split(&mut self, values: &[u64], scratch: &mut [u64])
        requires values { length values.now ≡ length self.old }
        requires scratch { length scratch.old ≡ length self.old }
        ensures size { length self.new ≡ length self.old }
        ensures leaders { (columns : List (List ℕ)) → AreLeaders columns self.old → AreLeaders (columns ++ values.now ∷ []) self.new }
        ensures scratch { length scratch.new ≡ length scratch.old }
    {
        refine(
            &self.leaders,
            values,
            &self.members,
            &mut self.finer,
            &mut self.nexts,
            scratch,
        );
        lead(&mut self.leaders, &self.members, &self.finer);
        drop_alone(&self.leaders, &mut self.members, scratch);
    }
}

/// One class of `n` nodes.
fn undivided(alloc: Global, n: u32) -> Result<Classes, Memory>
    ensures { IfOk result (λ c. c ≡ replicate n 0) }
{
    let leaders = zeros(alloc, n as usize)?;
    let members = places(alloc, n)?;
    let finer = zeros(alloc, n as usize)?;
    let nexts = zeros(alloc, n as usize)?;
    Ok(Classes {
        leaders,
        members,
        finer,
        nexts,
    })
}

/// `n` times 0.
fn zeros(alloc: Global, n: usize) -> Result<Vec<u32>, Memory>
    ensures { IfOk result (λ v. v.items ≡ replicate n 0) }
{
    let zeros = vec![in alloc; 0; n]?;
    Ok(zeros)
}

/// The numbers below `n`.
fn places(alloc: Global, n: u32) -> Result<Vec<u32>, Memory>
    ensures { IfOk result (λ v. v.items ≡ range_with_len 0 n) }
{
    let mut places = Vec::new(alloc);
    for k in 0..n {
        places.push(k)?;
    }
    Ok(places)
}

/// The same numbers, wider.
fn numbers(alloc: Global, widths: &[u32]) -> Result<Vec<u64>, Memory>
    ensures { IfOk result (λ v. v.items ≡ widths.now) }
{
    let numbers = widths.iter().map(|width| *width as u64).collect(alloc)?;
    Ok(numbers)
}
