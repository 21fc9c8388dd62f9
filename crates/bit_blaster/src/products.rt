//! Products: shifted rows, added one after another.

ghost use Rattle.std.specs.Prelude.{◌≡◌, ◌+◌, ◌-◌, ◌*◌, ◌%◌, ◌^◌, ◌<◌, ◌≤◌, ◌++◌, IfOk, length, replicate, take, cond};
ghost use Rattle.cnf_clauses.specs.Literal.{value_of};
ghost use Rattle.cnf_clauses.specs.Clause.{IsOver};
ghost use Rattle.bit_blaster.specs.Gates.{HasRoom};
ghost use Rattle.bit_blaster.specs.Numbers.{bit};
ghost use Rattle.bit_blaster.specs.Spelling.{IsSpelled, spelled};
ghost use Rattle.bit_blaster.specs.NodeBits.{node_room};

use crate::cells::Cell;
use crate::constants::constant;
use crate::words::{chosen, repeated, rippled};
use cnf_clauses::{Formula, Lit};
use memory::Memory;
use std::alloc::Global;

/// The literals `k` places up, zeros below, of the same length.
pub fn raised(alloc: Global, zero: Lit, xs: &[Lit], k: usize) -> Result<Vec<Lit>, Memory>
    requires { k ≤ length xs.now }
    ensures { IfOk result (λ r. r.items ≡ replicate k zero ++ take (length xs.now - k) xs.now) }
{
    let mut out = repeated(alloc, zero, k)?;
    out.extend_from_slice(&xs[..xs.len() - k])?;
    Ok(out)
}

fn row_added(
    alloc: Global,
    f: &mut Formula,
    zero: Lit,
    zeros: &[Lit],
    sum: &[Lit],
    xs: &[Lit],
    i: usize,
    y: Lit,
) -> Result<Vec<Lit>, Memory>
    requires room { HasRoom f.old (4 * length xs.now) }
    requires zero_in { zero.var < f.old.variables }
    requires y_in { y.var < f.old.variables }
    requires zeros_in { IsOver f.old.variables zeros.now }
    requires sum_in { IsOver f.old.variables sum.now }
    requires xs_in { IsOver f.old.variables xs.now }
    requires zeros_size { length zeros.now ≡ length xs.now }
    requires sum_size { length sum.now ≡ length xs.now }
    requires place { i ≤ length xs.now }
    ensures { IfOk result (λ r. IsSpelled f.old f.new (3 * length xs.now) (length xs.now) r.items (λ v. (spelled v sum.now + cond (value_of v y) (spelled v (replicate i zero ++ take (length xs.now - i) xs.now)) (spelled v zeros.now) + bit (value_of v zero)) % 2 ^ length xs.now)) }
{
    let up = raised(alloc, zero, xs, i)?;
    let row = chosen(alloc, f, y, &up, zeros)?;
    let out = rippled(alloc, f, Cell::Sum, zero, sum, &row)?;
    Ok(out)
}

pub fn times(alloc: Global, f: &mut Formula, xs: &[Lit], ys: &[Lit]) -> Result<Vec<Lit>, Memory>
    requires room { HasRoom f.old node_room }
    requires low { 1 ≤ length xs.now }
    requires high { length xs.now ≤ 64 }
    requires xs_in { IsOver f.old.variables xs.now }
    requires ys_in { IsOver f.old.variables ys.now }
    requires same { length xs.now ≡ length ys.now }
    ensures { IfOk result (λ r. IsSpelled f.old f.new (3 * length xs.now * length xs.now) (length xs.now) r.items (λ v. (spelled v xs.now * spelled v ys.now) % 2 ^ length xs.now)) }
{
    let zero = constant(false);
    let zeros = repeated(alloc, zero, xs.len())?;
    let mut sum = repeated(alloc, zero, xs.len())?;
    for i in 0..ys.len() {
        sum = row_added(alloc, f, zero, &zeros, &sum, xs, i, ys[i])?;
    }
    Ok(sum)
}
