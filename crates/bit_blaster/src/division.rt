//! Quotients and remainders: long division, which takes the divisor away wherever there is enough left.

ghost use Rattle.std.specs.Prelude.{◌≡◌, ◌+◌, ◌*◌, ◌<◌, ◌≤◌, IfOk, length};
ghost use Rattle.cnf_clauses.specs.Clause.{IsOver};
ghost use Rattle.bit_blaster.specs.Gates.{HasRoom};
ghost use Rattle.bit_blaster.specs.Dividing.{IsDivided, IsQuotient, IsDivision};
ghost use Rattle.bit_blaster.specs.NodeBits.{node_room};

use crate::cells::{Cell, ripple};
use crate::constants::constant;
use crate::wires::{joined, single};
use crate::words::{below, chosen, inverted, repeated};
use cnf_clauses::{Formula, Lit};
use memory::Memory;
use std::alloc::Global;

/// The quotient's bit, and the remainder after one more bit of the dividend. `turned` is the divisor with a zero on
/// top, all bits turned: a sum with it and a carry is a difference, whose last carry tells whether enough was left.
fn divided_once(
    alloc: Global,
    f: &mut Formula,
    one: Lit,
    x: Lit,
    rest: &[Lit],
    turned: &[Lit],
) -> Result<(Lit, Vec<Lit>), Memory>
    requires room { HasRoom f.old 1000 }
    requires one_in { one.var < f.old.variables }
    requires x_in { x.var < f.old.variables }
    requires rest_in { IsOver f.old.variables rest.now }
    requires turned_in { IsOver f.old.variables turned.now }
    requires longer { length turned.now ≡ length rest.now + 1 }
    requires high { length rest.now ≤ 64 }
    ensures { IfOk result (λ p. IsDivided f.old f.new one x rest.now turned.now p.0 p.1.items) }
{
    let low = single(alloc, x)?;
    let twice = joined(alloc, &low, rest)?;
    let mut less = Vec::new(alloc);
    let c = ripple(f, Cell::Sum, &mut less, one, &twice, turned)?;
    let (first, _) = less.split_at(rest.len());
    let (second, _) = twice.split_at(rest.len());
    let out = chosen(alloc, f, c, first, second)?;
    Ok((c, out))
}

/// Quotient and remainder of the dividend `xs`, whose top bits are divided first.
fn divided(
    alloc: Global,
    f: &mut Formula,
    zero: Lit,
    one: Lit,
    xs: &[Lit],
    turned: &[Lit],
    width: usize,
) -> Result<(Vec<Lit>, Vec<Lit>), Memory>
    requires room { HasRoom f.old (200 * length xs.now + 1000) }
    requires zero_in { zero.var < f.old.variables }
    requires one_in { one.var < f.old.variables }
    requires xs_in { IsOver f.old.variables xs.now }
    requires turned_in { IsOver f.old.variables turned.now }
    requires longer { length turned.now ≡ width + 1 }
    requires high { width ≤ 64 }
    ensures { IfOk result (λ p. IsQuotient f.old f.new zero one xs.now turned.now width p.0.items p.1.items) }
{
    let Some((x, more)) = xs.split_first() else {
        let none = Vec::new(alloc);
        let rest = repeated(alloc, zero, width)?;
        return Ok((none, rest));
    };
    let (high, rest) = divided(alloc, f, zero, one, more, turned, width)?;
    let (bit, next) = divided_once(alloc, f, one, *x, &rest, turned)?;
    let low = single(alloc, bit)?;
    let quotient = joined(alloc, &low, &high)?;
    Ok((quotient, next))
}

/// The quotient and the remainder of two words as plain numbers; 0 and `xs` where `ys` is 0.
pub fn division(
    alloc: Global,
    f: &mut Formula,
    xs: &[Lit],
    ys: &[Lit],
) -> Result<(Vec<Lit>, Vec<Lit>), Memory>
    requires room { HasRoom f.old node_room }
    requires high { length xs.now ≤ 64 }
    requires xs_in { IsOver f.old.variables xs.now }
    requires ys_in { IsOver f.old.variables ys.now }
    requires same { length xs.now ≡ length ys.now }
    ensures { IfOk result (λ p. IsDivision f.old f.new xs.now ys.now p.0.items p.1.items) }
{
    let zero = constant(false);
    let one = constant(true);
    let top = single(alloc, one)?;
    let low = inverted(alloc, ys)?;
    let turned = joined(alloc, &low, &top)?;
    let (bits, rest) = divided(alloc, f, zero, one, xs, &turned, xs.len())?;
    let zeros = repeated(alloc, zero, xs.len())?;
    let some = below(alloc, f, &zeros, ys)?;
    let quotient = chosen(alloc, f, some, &bits, &zeros)?;
    Ok((quotient, rest))
}
