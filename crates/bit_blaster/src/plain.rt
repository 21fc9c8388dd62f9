//! Plain gates: a fresh variable, and the clauses that give it the gate's value.

ghost use Rattle.std.specs.Prelude.{◌≡◌, false, ◌+◌, ◌<◌, ◌^◌, ◌&&◌, IfOk, length};
ghost use Rattle.cnf_clauses.specs.Literal.{value_of};
ghost use Rattle.cnf_clauses.specs.Formula.{IsFormula};
ghost use Rattle.bit_blaster.specs.Gates.{HasRoom, IsGate, differ as differ_of, choose as choose_of, most as most_of, odd as odd_of};

use cnf_clauses::{Formula, Lit};
use memory::Memory;

/// The literal of a fresh variable.
pub fn fresh(f: &mut Formula) -> Lit
    requires { f.old.variables < 2 ^ 31 }
    ensures literal { result ≡ record { var = f.old.variables; negated = false } }
    ensures formula { f.new ≡ record f.old { variables = f.old.variables + 1 } }
    ensures known { IsFormula f.old.variables f.old.clauses }
{
    let _variables = f.variables();
    Lit::new(f.fresh(), false)
}

/// True where both are.
pub fn and(f: &mut Formula, a: Lit, b: Lit) -> Result<Lit, Memory>
    requires room { HasRoom f.old 1 }
    requires a_in { a.var < f.old.variables }
    requires b_in { b.var < f.old.variables }
    ensures { IfOk result (λ l. IsGate f.old f.new 1 l (λ v. (value_of v a) && (value_of v b))) }
{
    let o = fresh(f);
    let not_o = o.opposite();
    let not_a = a.opposite();
    let not_b = b.opposite();
    f.add(&[not_o, a])?;
    f.add(&[not_o, b])?;
    f.add(&[o, not_a, not_b])?;
    Ok(o)
}

/// True where one is and the other isn't.
pub fn differ(f: &mut Formula, a: Lit, b: Lit) -> Result<Lit, Memory>
    requires room { HasRoom f.old 1 }
    requires a_in { a.var < f.old.variables }
    requires b_in { b.var < f.old.variables }
    ensures { IfOk result (λ l. IsGate f.old f.new 1 l (λ v. differ_of (value_of v a) (value_of v b))) }
{
    let o = fresh(f);
    let not_o = o.opposite();
    let not_a = a.opposite();
    let not_b = b.opposite();
    f.add(&[not_o, a, b])?;
    f.add(&[not_o, not_a, not_b])?;
    f.add(&[o, not_a, b])?;
    f.add(&[o, a, not_b])?;
    Ok(o)
}

/// `a` where `c` is true, and `b` elsewhere.
pub fn choose(f: &mut Formula, c: Lit, a: Lit, b: Lit) -> Result<Lit, Memory>
    requires room { HasRoom f.old 1 }
    requires c_in { c.var < f.old.variables }
    requires a_in { a.var < f.old.variables }
    requires b_in { b.var < f.old.variables }
    ensures { IfOk result (λ l. IsGate f.old f.new 1 l (λ v. choose_of (value_of v c) (value_of v a) (value_of v b))) }
{
    let o = fresh(f);
    let not_o = o.opposite();
    let not_c = c.opposite();
    let not_a = a.opposite();
    let not_b = b.opposite();
    f.add(&[not_c, not_a, o])?;
    f.add(&[not_c, a, not_o])?;
    f.add(&[c, not_b, o])?;
    f.add(&[c, b, not_o])?;
    Ok(o)
}

/// True where two or three are.
pub fn most(f: &mut Formula, a: Lit, b: Lit, c: Lit) -> Result<Lit, Memory>
    requires room { HasRoom f.old 1 }
    requires a_in { a.var < f.old.variables }
    requires b_in { b.var < f.old.variables }
    requires c_in { c.var < f.old.variables }
    ensures { IfOk result (λ l. IsGate f.old f.new 1 l (λ v. most_of (value_of v a) (value_of v b) (value_of v c))) }
{
    let o = fresh(f);
    let not_o = o.opposite();
    let not_a = a.opposite();
    let not_b = b.opposite();
    let not_c = c.opposite();
    f.add(&[not_a, not_b, o])?;
    f.add(&[not_a, not_c, o])?;
    f.add(&[not_b, not_c, o])?;
    f.add(&[a, b, not_o])?;
    f.add(&[a, c, not_o])?;
    f.add(&[b, c, not_o])?;
    Ok(o)
}

/// True where one or three are.
pub fn odd(f: &mut Formula, a: Lit, b: Lit, c: Lit) -> Result<Lit, Memory>
    requires room { HasRoom f.old 1 }
    requires a_in { a.var < f.old.variables }
    requires b_in { b.var < f.old.variables }
    requires c_in { c.var < f.old.variables }
    ensures { IfOk result (λ l. IsGate f.old f.new 1 l (λ v. odd_of (value_of v a) (value_of v b) (value_of v c))) }
{
    let o = fresh(f);
    let not_o = o.opposite();
    let not_a = a.opposite();
    let not_b = b.opposite();
    let not_c = c.opposite();
    f.add(&[not_o, a, b, c])?;
    f.add(&[not_o, a, not_b, not_c])?;
    f.add(&[not_o, not_a, b, not_c])?;
    f.add(&[not_o, not_a, not_b, c])?;
    f.add(&[o, not_a, not_b, not_c])?;
    f.add(&[o, not_a, b, c])?;
    f.add(&[o, a, not_b, c])?;
    f.add(&[o, a, b, not_c])?;
    Ok(o)
}
