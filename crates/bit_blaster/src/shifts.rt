//! Shifts: a stage for each bit of the amount.

ghost use Rattle.std.specs.Prelude.{◌≡◌, ◌+◌, ◌-◌, ◌*◌, ◌%◌, ◌^◌, ◌<◌, ◌≤◌, ◌++◌, ℕ, Bool, false, IfOk, length, replicate, take, drop, cond};
ghost use Rattle.cnf_clauses.specs.Literal.{value_of};
ghost use Rattle.cnf_clauses.specs.Clause.{IsOver};
ghost use Rattle.bit_blaster.specs.Gates.{HasRoom, Meets};
ghost use Rattle.bit_blaster.specs.Spelling.{IsSpelled, spelled};
ghost use Rattle.bit_blaster.specs.Shifting.{IsMoved, IsStage, moved_by};
ghost use Rattle.bit_blaster.specs.NodeBits.{node_room};

use crate::constants::constant;
use crate::gates;
use crate::products::raised;
use crate::words::{chosen, repeated};
use cnf_clauses::{Formula, Lit};
use memory::Memory;
use std::alloc::Global;

fn lowered(alloc: Global, zero: Lit, xs: &[Lit], k: usize) -> Result<Vec<Lit>, Memory>
    requires { k ≤ length xs.now }
    ensures { IfOk result (λ r. r.items ≡ drop k xs.now ++ replicate k zero) }
{
    let zeros = repeated(alloc, zero, k)?;
    let mut out = Vec::new(alloc);
    out.extend_from_slice(&xs[k..])?;
    out.extend_from_slice(&zeros)?;
    Ok(out)
}

fn moved(alloc: Global, left: bool, zero: Lit, xs: &[Lit], k: usize) -> Result<Vec<Lit>, Memory>
    requires { k ≤ length xs.now }
    ensures { IfOk result (λ r. IsMoved left zero xs.now r.items k) }
{
    if left {
        raised(alloc, zero, xs, k)
    } else {
        lowered(alloc, zero, xs, k)
    }
}

fn stage(
    alloc: Global,
    f: &mut Formula,
    left: bool,
    zero: Lit,
    over: Lit,
    xs: Vec<Lit>,
    j: usize,
    y: Lit,
) -> Result<(Lit, Vec<Lit>), Memory>
    requires room { HasRoom f.old 1000 }
    requires off { (v : ℕ → Bool) → Meets v f.old → value_of v zero ≡ false }
    requires zero_in { zero.var < f.old.variables }
    requires over_in { over.var < f.old.variables }
    requires y_in { y.var < f.old.variables }
    requires xs_in { IsOver f.old.variables xs.items }
    requires high { length xs.items ≤ 64 }
    ensures { IfOk result (λ p. IsStage f.old f.new left over xs.items j y p.0 p.1.items) }
{
    if j < 6 && (1usize << j) < xs.len() {
        let up = moved(alloc, left, zero, &xs, 1usize << j)?;
        let next = chosen(alloc, f, y, &up, &xs)?;
        Ok((over, next))
    } else {
        let both = gates::and(f, over.opposite(), y.opposite())?;
        Ok((both.opposite(), xs))
    }
}

/// `xs` shifted by the number that `ys` spells.
pub fn shifted(
    alloc: Global,
    f: &mut Formula,
    left: bool,
    xs: &[Lit],
    ys: &[Lit],
) -> Result<Vec<Lit>, Memory>
    requires room { HasRoom f.old node_room }
    requires xs_in { IsOver f.old.variables xs.now }
    requires ys_in { IsOver f.old.variables ys.now }
    requires low { 1 ≤ length xs.now }
    requires high { length xs.now ≤ 64 }
    requires amount { length ys.now ≤ 64 }
    ensures { IfOk result (λ r. IsSpelled f.old f.new (7 * length xs.now + length ys.now) (length xs.now) r.items (λ v. moved_by left (length xs.now) (spelled v xs.now) (spelled v ys.now))) }
{
    let zero = constant(false);
    let zeros = repeated(alloc, zero, xs.len())?;
    let mut over = zero;
    let mut word = Vec::new(alloc);
    word.extend_from_slice(xs)?;
    for j in 0..ys.len() {
        let (o, next) = stage(alloc, f, left, zero, over, word, j, ys[j])?;
        over = o;
        word = next;
    }
    let out = chosen(alloc, f, over, &zeros, &word)?;
    Ok(out)
}
