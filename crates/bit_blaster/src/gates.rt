//! Gates: a literal that stands there already where one has the gate's value, else a plain gate.

ghost use Rattle.std.specs.Prelude.{◌≡◌, ◌≢◌, ◌<◌, ◌&&◌, Bool, IfOk, MatchOption, cond, true};
ghost use Rattle.cnf_clauses.specs.Literal.{value_of};
ghost use Rattle.bit_blaster.specs.Gates.{HasRoom, IsGate, constant as constant_of, signed, differ as differ_of, choose as choose_of, most as most_of, odd as odd_of};

use crate::constants::constant;
use crate::plain;
use cnf_clauses::{Formula, Lit};
use memory::Memory;

/// Whether `b` is `a` or its opposite, or None where it is neither.
fn related(a: Lit, b: Lit) -> Option<bool>
    ensures { MatchOption result ((same : Bool) → b ≢ signed same a) (λ same. b ≡ signed same a) }
{
    if a == b {
        Some(true)
    } else if a.opposite() == b {
        Some(false)
    } else {
        None
    }
}

/// The value of a constant, or None where the literal isn't one.
fn known(l: Lit) -> Option<bool>
    ensures { MatchOption result ((value : Bool) → l ≢ constant_of value) (λ value. l ≡ constant_of value) }
{
    related(constant(true), l)
}

fn pick(first: bool, a: Lit, b: Lit) -> Lit
    ensures { result ≡ cond first a b }
{
    if first { a } else { b }
}

/// True where both are.
pub fn and(f: &mut Formula, a: Lit, b: Lit) -> Result<Lit, Memory>
    requires room { HasRoom f.old 1 }
    requires a_in { a.var < f.old.variables }
    requires b_in { b.var < f.old.variables }
    ensures { IfOk result (λ l. IsGate f.old f.new 1 l (λ v. (value_of v a) && (value_of v b))) }
{
    if let Some(same) = related(a, b) {
        return Ok(pick(same, a, constant(false)));
    }
    if let Some(on) = known(a) {
        return Ok(pick(on, b, constant(false)));
    }
    if let Some(on) = known(b) {
        return Ok(pick(on, a, constant(false)));
    }
    plain::and(f, a, b)
}

/// True where one is and the other isn't.
pub fn differ(f: &mut Formula, a: Lit, b: Lit) -> Result<Lit, Memory>
    requires room { HasRoom f.old 1 }
    requires a_in { a.var < f.old.variables }
    requires b_in { b.var < f.old.variables }
    ensures { IfOk result (λ l. IsGate f.old f.new 1 l (λ v. differ_of (value_of v a) (value_of v b))) }
{
    if let Some(same) = related(a, b) {
        return Ok(pick(same, constant(false), constant(true)));
    }
    if let Some(on) = known(a) {
        return Ok(pick(on, b.opposite(), b));
    }
    if let Some(on) = known(b) {
        return Ok(pick(on, a.opposite(), a));
    }
    plain::differ(f, a, b)
}

/// True where most of the two and `on` are: one of them, or both.
fn most_with(f: &mut Formula, on: bool, a: Lit, b: Lit) -> Result<Lit, Memory>
    requires room { HasRoom f.old 1 }
    requires a_in { a.var < f.old.variables }
    requires b_in { b.var < f.old.variables }
    ensures { IfOk result (λ l. IsGate f.old f.new 1 l (λ v. most_of on (value_of v a) (value_of v b))) }
{
    if !on {
        return and(f, a, b);
    }
    let neither = and(f, a.opposite(), b.opposite())?;
    Ok(neither.opposite())
}

/// True where one of the two and `on`, or all three, are.
fn odd_with(f: &mut Formula, on: bool, a: Lit, b: Lit) -> Result<Lit, Memory>
    requires room { HasRoom f.old 1 }
    requires a_in { a.var < f.old.variables }
    requires b_in { b.var < f.old.variables }
    ensures { IfOk result (λ l. IsGate f.old f.new 1 l (λ v. odd_of on (value_of v a) (value_of v b))) }
{
    let o = differ(f, a, b)?;
    Ok(pick(on, o.opposite(), o))
}

/// `a` where `c` is true, and `b` elsewhere.
pub fn choose(f: &mut Formula, c: Lit, a: Lit, b: Lit) -> Result<Lit, Memory>
    requires room { HasRoom f.old 1 }
    requires c_in { c.var < f.old.variables }
    requires a_in { a.var < f.old.variables }
    requires b_in { b.var < f.old.variables }
    ensures { IfOk result (λ l. IsGate f.old f.new 1 l (λ v. choose_of (value_of v c) (value_of v a) (value_of v b))) }
{
    if let Some(on) = known(c) {
        return Ok(pick(on, a, b));
    }
    if a == b {
        return Ok(a);
    }
    if let Some(on) = known(a) {
        return most_with(f, on, pick(on, c, c.opposite()), b);
    }
    if let Some(on) = known(b) {
        return most_with(f, on, pick(on, c.opposite(), c), a);
    }
    plain::choose(f, c, a, b)
}

/// True where two or three are.
pub fn most(f: &mut Formula, a: Lit, b: Lit, c: Lit) -> Result<Lit, Memory>
    requires room { HasRoom f.old 1 }
    requires a_in { a.var < f.old.variables }
    requires b_in { b.var < f.old.variables }
    requires c_in { c.var < f.old.variables }
    ensures { IfOk result (λ l. IsGate f.old f.new 1 l (λ v. most_of (value_of v a) (value_of v b) (value_of v c))) }
{
    if let Some(same) = related(a, b) {
        return Ok(pick(same, a, c));
    }
    if let Some(same) = related(a, c) {
        return Ok(pick(same, a, b));
    }
    if let Some(same) = related(b, c) {
        return Ok(pick(same, b, a));
    }
    if let Some(on) = known(a) {
        return most_with(f, on, b, c);
    }
    if let Some(on) = known(b) {
        return most_with(f, on, a, c);
    }
    if let Some(on) = known(c) {
        return most_with(f, on, a, b);
    }
    plain::most(f, a, b, c)
}

/// True where one or three are.
pub fn odd(f: &mut Formula, a: Lit, b: Lit, c: Lit) -> Result<Lit, Memory>
    requires room { HasRoom f.old 1 }
    requires a_in { a.var < f.old.variables }
    requires b_in { b.var < f.old.variables }
    requires c_in { c.var < f.old.variables }
    ensures { IfOk result (λ l. IsGate f.old f.new 1 l (λ v. odd_of (value_of v a) (value_of v b) (value_of v c))) }
{
    if let Some(same) = related(a, b) {
        return Ok(pick(same, c, c.opposite()));
    }
    if let Some(same) = related(a, c) {
        return Ok(pick(same, b, b.opposite()));
    }
    if let Some(same) = related(b, c) {
        return Ok(pick(same, a, a.opposite()));
    }
    if let Some(on) = known(a) {
        return odd_with(f, on, b, c);
    }
    if let Some(on) = known(b) {
        return odd_with(f, on, a, c);
    }
    if let Some(on) = known(c) {
        return odd_with(f, on, a, b);
    }
    plain::odd(f, a, b, c)
}
