//! The table.

ghost use Rattle.std.specs.Prelude.{◌≡◌, ℕ, ◌+◌, ◌<◌, ◌≤◌, Some, IfOk, length, map, replicate, take, drop, slice_get};
ghost use Rattle.std.specs.List.{range_with_len};
ghost use Rattle.dag.specs.Graph.{Graph};
ghost use Rattle.merge_table.specs.Table.{renamed, replaced, count, classes};
ghost use Rattle.merge_table.specs.KeepsValues.{AlwaysEqual, KeepsValues};

use memory::Memory;
use std::alloc::{AllocError, Global};
use std::marker::Model;

/// Which node retains each node, by their places in a graph. A contract sees the list of these.
#[derive(Drop)]
pub struct MergeTable {
    retained: Vec<u32>,
    counts: Vec<u32>,
    lasts: Vec<u32>,
}

impl Model for MergeTable {
    ghost use Rattle.std.specs.Prelude.{List, ℕ};
    ghost use Rattle.merge_table.specs.Table.{IsFlat, IsCounted};

    ghost Value = { List ℕ };

    ghost view = { λ t. t.retained.items };

    ghost invariant = { λ t. IsFlat t.retained.items × IsCounted t.retained.items t.counts.items t.lasts.items };
}

impl MergeTable {
    /// The table in which each of `n` nodes is retained by itself.
    pub fn begin(alloc: Global, n: u32) -> Result<MergeTable, Memory>
        ensures table { IfOk result (λ t. t ≡ range_with_len 0 n) }
        ensures classes { IfOk result (λ t. classes t ≡ n) }
        ensures keeps { IfOk result (λ t. (g : Graph) → length g.nodes ≡ n → KeepsValues g t) }
    {
        let retained = places(alloc, n)?;
        let lasts = places(alloc, n)?;
        let counts = ones(alloc, n)?;
        Ok(MergeTable {
            retained,
            counts,
            lasts,
        })
    }

    /// How many nodes there are.
    pub fn len(&self) -> u32
        ensures { result ≡ length self.now }
    {
        self.retained.len() as u32
    }

    /// The node that retains a node. It stands no later, and is retained by itself.
    pub fn retained(&self, n: u32) -> u32
        requires { n < length self.now }
        ensures is { slice_get self.now n ≡ Some result }
        ensures before { result ≤ n }
        ensures itself { slice_get self.now result ≡ Some result }
    {
        let _counts = &self.counts;
        self.retained[n as usize]
    }

    /// Has `keep` retain all that `gone` retained, and changes nothing else. Both are retained by themselves, so that
    /// then one node less is.
    pub fn replace(&mut self, keep: u32, gone: u32)
        requires keep { slice_get self.old keep ≡ Some keep }
        requires gone { slice_get self.old gone ≡ Some gone }
        requires order { keep < gone }
        ensures table { self.new ≡ replaced keep gone self.old }
        ensures falls { classes self.new + 1 ≡ classes self.old }
        ensures keeps { (g : Graph) → KeepsValues g self.old → AlwaysEqual g keep gone → slice_get g.widths keep ≡ slice_get g.widths gone → KeepsValues g self.new }
    {
        let last = self.lasts[gone as usize];
        rename(&mut self.retained, keep, gone, last);
        self.lasts[keep as usize] = self.lasts[keep as usize].max(last);
        self.counts[keep as usize] += self.counts[gone as usize];
        self.counts[gone as usize] = 0;
    }

    /// How many nodes a node retains, itself among them; 0 where another one retains it.
    pub fn members(&self, n: u32) -> u32
        requires { n < length self.now }
        ensures { result ≡ count n self.now }
    {
        let _retained = &self.retained;
        self.counts[n as usize]
    }
}

/// What retains a node, once `keep` retains what `gone` retained.
fn renamed(keep: u32, gone: u32, r: u32) -> u32
    ensures { result ≡ renamed keep gone r }
{
    if r == gone { keep } else { r }
}

/// Renames what retains the nodes from `gone` to `last`. Before and after these no node is retained by `gone`.
fn rename(retained: &mut Vec<u32>, keep: u32, gone: u32, last: u32)
    requires order { gone ≤ last }
    requires within { last < length retained.old.items }
    requires early { map (renamed keep gone) (take gone retained.old.items) ≡ take gone retained.old.items }
    requires late { map (renamed keep gone) (drop (last + 1) retained.old.items) ≡ drop (last + 1) retained.old.items }
    ensures { retained.new.items ≡ replaced keep gone retained.old.items }
{
    for i in gone as usize..last as usize + 1 {
        retained[i] = renamed(keep, gone, retained[i]);
    }
}

/// The numbers below `n` in their order.
fn places(alloc: Global, n: u32) -> Result<Vec<u32>, Memory>
    ensures { IfOk result (λ v. v.items ≡ range_with_len 0 n) }
{
    let mut places = Vec::new(alloc);
    for i in 0..n {
        places.push(i)?;
    }
    Ok(places)
}

/// `n` times 1.
fn ones(alloc: Global, n: u32) -> Result<Vec<u32>, Memory>
    ensures { IfOk result (λ v. v.items ≡ replicate n 1) }
{
    let ones = vec![in alloc; 1; n as usize]?;
    Ok(ones)
}
