//! One bit of each operation, and all bits from the lowest up.

ghost use Rattle.std.specs.Prelude.{◌≡◌, ◌+◌, ◌*◌, ◌<◌, IfOk, length};
ghost use Rattle.cnf_clauses.specs.Clause.{IsOver};
ghost use Rattle.bit_blaster.specs.Gates.{HasRoom};
ghost use Rattle.bit_blaster.specs.Ripples.{IsCell, IsRipple};

use crate::gates;
use cnf_clauses::{Formula, Lit};
use memory::Memory;

/// What the cell of one bit makes of a carry and two bits: a bit, and the carry into the next cell.
#[derive(Clone, Copy, Debug)]
pub enum Cell {
    /// Both bits; the carry goes on.
    Both,
    /// One or both bits; the carry goes on.
    Either,
    /// Just one of the bits; the carry goes on.
    Differ,
    /// The first bit where the carry is true, and the second elsewhere; the carry goes on.
    Choose,
    /// The sum's bit and the sum's carry.
    Sum,
    /// The first bit; the carry tells whether the first bits so far are below the second ones.
    Less,
    /// The first bit; the carry tells whether all bits so far are equal.
    Same,
}

/// The cell's bit, and the carry into the next cell.
#[tactic(auto, using(crate::proofs::Growing::room_after, crate::proofs::Growing::one_wire, crate::proofs::Growing::wire_one, crate::proofs::Growing::two_gates, crate::proofs::Growing::inner_gate, crate::proofs::Growing::opposite_gate))]
pub fn one_bit(f: &mut Formula, kind: Cell, c: Lit, x: Lit, y: Lit) -> Result<(Lit, Lit), Memory>
    requires room { HasRoom f.old 2 }
    requires c_in { c.var < f.old.variables }
    requires x_in { x.var < f.old.variables }
    requires y_in { y.var < f.old.variables }
    ensures { IfOk result (λ p. IsCell f.old f.new kind c x y p.0 p.1) }
{
    match kind {
        Cell::Both => {
            let o = gates::and(f, x, y)?;
            Ok((o, c))
        }
        Cell::Either => {
            let o = gates::and(f, x.opposite(), y.opposite())?;
            Ok((o.opposite(), c))
        }
        Cell::Differ => {
            let o = gates::differ(f, x, y)?;
            Ok((o, c))
        }
        Cell::Choose => {
            let o = gates::choose(f, c, x, y)?;
            Ok((o, c))
        }
        Cell::Sum => {
            let o = gates::odd(f, x, y, c)?;
            let n = gates::most(f, x, y, c)?;
            Ok((o, n))
        }
        Cell::Less => {
            let n = gates::most(f, x.opposite(), y, c)?;
            Ok((x, n))
        }
        Cell::Same => {
            let d = gates::differ(f, x, y)?;
            let n = gates::and(f, c, d.opposite())?;
            Ok((x, n))
        }
    }
}

/// Adds the bits of all cells to `out`, and gives the last carry.
#[tactic(auto, using(crate::proofs::Growing::room_after, crate::proofs::Growing::room_less))]
pub fn ripple(
    f: &mut Formula,
    kind: Cell,
    out: &mut Vec<Lit>,
    c: Lit,
    xs: &[Lit],
    ys: &[Lit],
) -> Result<Lit, Memory>
    requires room { HasRoom f.old (2 * length xs.now) }
    requires c_in { c.var < f.old.variables }
    requires xs_in { IsOver f.old.variables xs.now }
    requires ys_in { IsOver f.old.variables ys.now }
    requires out_in { IsOver f.old.variables out.old.items }
    ensures { IfOk result (λ n. IsRipple f.old f.new kind out.old.items out.new.items c n xs.now ys.now) }
{
    let Some((x, more)) = xs.split_first() else {
        return Ok(c);
    };
    let Some((y, others)) = ys.split_first() else {
        return Ok(c);
    };
    let (o, n) = one_bit(f, kind, c, *x, *y)?;
    out.push(o)?;
    ripple(f, kind, out, n, more, others)
}
