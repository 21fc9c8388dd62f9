//! Words of literals, the lowest bit first: what a ripple of cells makes of two words.

ghost use Rattle.std.specs.Prelude.{◌≡◌, ◌+◌, ◌-◌, ◌*◌, ◌%◌, ◌^◌, ◌<◌, IfOk, length, map, replicate, bit_and, bit_or, bit_xor, nat_lt, nat_eq, cond, true};
ghost use Rattle.cnf_clauses.specs.Literal.{opposite, value_of};
ghost use Rattle.cnf_clauses.specs.Clause.{IsOver};
ghost use Rattle.bit_blaster.specs.Gates.{HasRoom};
ghost use Rattle.bit_blaster.specs.Numbers.{bit};
ghost use Rattle.bit_blaster.specs.Spelling.{IsCombined, IsSpelled, IsTest, IsRow, spelled};

use crate::cells::{Cell, ripple};
use crate::constants::constant;
use cnf_clauses::{Formula, Lit};
use memory::Memory;
use std::alloc::Global;

/// A cell of this kind for each bit.
pub fn combined(
    alloc: Global,
    f: &mut Formula,
    kind: Cell,
    carry: bool,
    xs: &[Lit],
    ys: &[Lit],
) -> Result<(Vec<Lit>, Lit), Memory>
    requires room { HasRoom f.old (2 * length xs.now) }
    requires xs_in { IsOver f.old.variables xs.now }
    requires ys_in { IsOver f.old.variables ys.now }
    requires same { length xs.now ≡ length ys.now }
    ensures { IfOk result (λ p. IsCombined f.old f.new kind carry p.0.items p.1 xs.now ys.now) }
{
    let c = constant(carry);
    let mut out = Vec::new(alloc);
    let n = ripple(f, kind, &mut out, c, xs, ys)?;
    Ok((out, n))
}

/// All bits turned.
pub fn inverted(alloc: Global, xs: &[Lit]) -> Result<Vec<Lit>, Memory>
    ensures { IfOk result (λ v. v.items ≡ map opposite xs.now) }
{
    let turned = xs.iter().map(|l| l.opposite()).collect(alloc)?;
    Ok(turned)
}

pub fn repeated(alloc: Global, l: Lit, n: usize) -> Result<Vec<Lit>, Memory>
    ensures { IfOk result (λ v. v.items ≡ replicate n l) }
{
    let mut out = Vec::new(alloc);
    for i in 0..n {
        out.push(l)?;
    }
    Ok(out)
}

pub fn and(alloc: Global, f: &mut Formula, xs: &[Lit], ys: &[Lit]) -> Result<Vec<Lit>, Memory>
    requires room { HasRoom f.old (2 * length xs.now) }
    requires xs_in { IsOver f.old.variables xs.now }
    requires ys_in { IsOver f.old.variables ys.now }
    requires same { length xs.now ≡ length ys.now }
    ensures { IfOk result (λ r. IsSpelled f.old f.new (length xs.now) (length xs.now) r.items (λ v. bit_and (spelled v xs.now) (spelled v ys.now))) }
{
    let (out, _) = combined(alloc, f, Cell::Both, false, xs, ys)?;
    Ok(out)
}

pub fn plus(alloc: Global, f: &mut Formula, xs: &[Lit], ys: &[Lit]) -> Result<Vec<Lit>, Memory>
    requires room { HasRoom f.old (2 * length xs.now) }
    requires xs_in { IsOver f.old.variables xs.now }
    requires ys_in { IsOver f.old.variables ys.now }
    requires same { length xs.now ≡ length ys.now }
    ensures { IfOk result (λ r. IsSpelled f.old f.new (2 * length xs.now) (length xs.now) r.items (λ v. (spelled v xs.now + spelled v ys.now) % 2 ^ length xs.now)) }
{
    let (out, _) = combined(alloc, f, Cell::Sum, false, xs, ys)?;
    Ok(out)
}

pub fn or(alloc: Global, f: &mut Formula, xs: &[Lit], ys: &[Lit]) -> Result<Vec<Lit>, Memory>
    requires room { HasRoom f.old (2 * length xs.now) }
    requires xs_in { IsOver f.old.variables xs.now }
    requires ys_in { IsOver f.old.variables ys.now }
    requires same { length xs.now ≡ length ys.now }
    ensures { IfOk result (λ r. IsSpelled f.old f.new (length xs.now) (length xs.now) r.items (λ v. bit_or (spelled v xs.now) (spelled v ys.now))) }
{
    let (out, _) = combined(alloc, f, Cell::Either, false, xs, ys)?;
    Ok(out)
}

pub fn xor(alloc: Global, f: &mut Formula, xs: &[Lit], ys: &[Lit]) -> Result<Vec<Lit>, Memory>
    requires room { HasRoom f.old (2 * length xs.now) }
    requires xs_in { IsOver f.old.variables xs.now }
    requires ys_in { IsOver f.old.variables ys.now }
    requires same { length xs.now ≡ length ys.now }
    ensures { IfOk result (λ r. IsSpelled f.old f.new (length xs.now) (length xs.now) r.items (λ v. bit_xor (spelled v xs.now) (spelled v ys.now))) }
{
    let (out, _) = combined(alloc, f, Cell::Differ, false, xs, ys)?;
    Ok(out)
}

pub fn equal(alloc: Global, f: &mut Formula, xs: &[Lit], ys: &[Lit]) -> Result<Lit, Memory>
    requires room { HasRoom f.old (2 * length xs.now) }
    requires xs_in { IsOver f.old.variables xs.now }
    requires ys_in { IsOver f.old.variables ys.now }
    requires same { length xs.now ≡ length ys.now }
    ensures { IfOk result (λ l. IsTest f.old f.new (2 * length xs.now) l (λ v. nat_eq (spelled v xs.now) (spelled v ys.now))) }
{
    let (_, n) = combined(alloc, f, Cell::Same, true, xs, ys)?;
    Ok(n)
}

pub fn below(alloc: Global, f: &mut Formula, xs: &[Lit], ys: &[Lit]) -> Result<Lit, Memory>
    requires room { HasRoom f.old (2 * length xs.now) }
    requires xs_in { IsOver f.old.variables xs.now }
    requires ys_in { IsOver f.old.variables ys.now }
    requires same { length xs.now ≡ length ys.now }
    ensures { IfOk result (λ l. IsTest f.old f.new (length xs.now) l (λ v. nat_lt (spelled v xs.now) (spelled v ys.now))) }
{
    let (_, n) = combined(alloc, f, Cell::Less, false, xs, ys)?;
    Ok(n)
}

/// The bits that cells of this kind make of a carry and two words.
pub fn rippled(
    alloc: Global,
    f: &mut Formula,
    kind: Cell,
    c: Lit,
    xs: &[Lit],
    ys: &[Lit],
) -> Result<Vec<Lit>, Memory>
    requires room { HasRoom f.old (2 * length xs.now) }
    requires c_in { c.var < f.old.variables }
    requires xs_in { IsOver f.old.variables xs.now }
    requires ys_in { IsOver f.old.variables ys.now }
    requires same { length xs.now ≡ length ys.now }
    ensures { IfOk result (λ r. IsRow f.old f.new kind r.items c xs.now ys.now) }
{
    let mut out = Vec::new(alloc);
    ripple(f, kind, &mut out, c, xs, ys)?;
    Ok(out)
}

/// The first word where `c` holds, else the second.
pub fn chosen(
    alloc: Global,
    f: &mut Formula,
    c: Lit,
    xs: &[Lit],
    ys: &[Lit],
) -> Result<Vec<Lit>, Memory>
    requires room { HasRoom f.old (2 * length xs.now) }
    requires c_in { c.var < f.old.variables }
    requires xs_in { IsOver f.old.variables xs.now }
    requires ys_in { IsOver f.old.variables ys.now }
    requires same { length xs.now ≡ length ys.now }
    ensures { IfOk result (λ r. IsSpelled f.old f.new (length xs.now) (length xs.now) r.items (λ v. cond (value_of v c) (spelled v xs.now) (spelled v ys.now))) }
{
    let out = rippled(alloc, f, Cell::Choose, c, xs, ys)?;
    Ok(out)
}

pub fn negated(alloc: Global, f: &mut Formula, xs: &[Lit]) -> Result<Vec<Lit>, Memory>
    requires room { HasRoom f.old (2 * length xs.now) }
    requires xs_in { IsOver f.old.variables xs.now }
    ensures { IfOk result (λ r. IsSpelled f.old f.new (2 * length xs.now) (length xs.now) r.items (λ v. (2 ^ length xs.now - spelled v xs.now) % 2 ^ length xs.now)) }
{
    let zero = constant(false);
    let turned = inverted(alloc, xs)?;
    let zeros = repeated(alloc, zero, xs.len())?;
    let (out, _) = combined(alloc, f, Cell::Sum, true, &turned, &zeros)?;
    Ok(out)
}
