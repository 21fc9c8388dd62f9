//! Words that take wires alone, constants, and signed comparison.

ghost use Rattle.std.specs.Prelude.{◌≡◌, ◌+◌, ◌-◌, ◌*◌, ◌/◌, ◌%◌, ◌^◌, ◌<◌, ◌≤◌, ◌++◌, ◌∷◌, [], IfOk, length, replicate, take, drop, slice_index_or, Bool, ℕ, true, false, cond};
ghost use Rattle.cnf_clauses.specs.Literal.{value_of, opposite};
ghost use Rattle.cnf_clauses.specs.Clause.{IsOver};
ghost use Rattle.bit_blaster.specs.Gates.{HasRoom};
ghost use Rattle.bit_blaster.specs.Spelling.{IsSpelled, IsTest, spelled};
ghost use Rattle.bv_words.specs.Words.{slt};
ghost use Rattle.bit_blaster.specs.NodeBits.{node_room};

use crate::gates;
use crate::words::{below, repeated};
use cnf_clauses::{Formula, Lit};
use memory::Memory;
use std::alloc::Global;

pub fn part(alloc: Global, xs: &[Lit], low: usize, count: usize) -> Result<Vec<Lit>, Memory>
    requires { low + count ≤ length xs.now }
    ensures { IfOk result (λ r. r.items ≡ take count (drop low xs.now)) }
{
    let mut out = Vec::new(alloc);
    let (_, rest) = xs.split_at(low);
    let (middle, _) = rest.split_at(count);
    out.extend_from_slice(middle)?;
    Ok(out)
}

pub fn joined(alloc: Global, low: &[Lit], high: &[Lit]) -> Result<Vec<Lit>, Memory>
    ensures { IfOk result (λ r. r.items ≡ low.now ++ high.now) }
{
    let mut out = Vec::new(alloc);
    out.extend_from_slice(low)?;
    out.extend_from_slice(high)?;
    Ok(out)
}

pub fn extended(alloc: Global, xs: &[Lit], more: usize) -> Result<Vec<Lit>, Memory>
    requires { 1 ≤ length xs.now }
    ensures { IfOk result (λ r. r.items ≡ xs.now ++ replicate more (slice_index_or xs.now (length xs.now - 1) (record { var = 0; negated = false }))) }
{
    let top = xs[xs.len() - 1];
    let tops = repeated(alloc, top, more)?;
    joined(alloc, xs, &tops)
}

pub fn single(alloc: Global, l: Lit) -> Result<Vec<Lit>, Memory>
    ensures { IfOk result (λ r. r.items ≡ l ∷ []) }
{
    let mut out = Vec::new(alloc);
    out.push(l)?;
    Ok(out)
}

pub fn signed_below(alloc: Global, f: &mut Formula, xs: &[Lit], ys: &[Lit]) -> Result<Lit, Memory>
    requires room { HasRoom f.old node_room }
    requires low { 1 ≤ length xs.now }
    requires high { length xs.now ≤ 64 }
    requires xs_in { IsOver f.old.variables xs.now }
    requires ys_in { IsOver f.old.variables ys.now }
    requires same { length xs.now ≡ length ys.now }
    ensures { IfOk result (λ l. IsTest f.old f.new (2 + length xs.now) l (λ v. slt (length xs.now) (spelled v xs.now) (spelled v ys.now))) }
{
    let lower = below(alloc, f, xs, ys)?;
    let x = xs[xs.len() - 1];
    let y = ys[ys.len() - 1];
    let apart = gates::differ(f, x, y)?;
    let out = gates::choose(f, apart, x, lower)?;
    Ok(out)
}
