//! The difference of two nodes as a sum of other nodes, each with a factor, modulo `2 ^ width`.

ghost use Rattle.std.specs.Prelude.{◌≡◌, ◌<◌, ◌≤◌, ℕ, List, IsTrue, IfOk, Some, length, slice_get, slice_index, replicate};
ghost use Rattle.word_check.specs.Valuation.{AlwaysSame};
ghost use Rattle.word_check.specs.Sums.{Adds, AddsOverlap, Begins, IsZero, KeepsTotal, weighed};

use crate::overlaps::bit_parts_of;
use crate::parts::parts_of;
use bv_words::{mask, plus};
use dag::Node;
use memory::Memory;
use std::alloc::Global;

/// A factor for each node of a circuit, one for the bits that both operands of each bitwise node have, and a constant.
#[derive(Drop)]
pub struct Sum {
    pub factors: Vec<u64>,
    pub overlaps: Vec<u64>,
    pub constant: u64,
}

/// A factor, and the place of the node whose value, or whose operands' overlap, it is multiplied by.
#[derive(Clone, Copy)]
pub struct Term {
    pub factor: u64,
    pub place: usize,
}

/// A constant and two terms.
#[derive(Clone, Copy)]
pub struct Parts {
    pub constant: u64,
    pub left: Term,
    pub right: Term,
}

/// What a bitwise node is a sum of: its two operands, and the bits that both have.
#[derive(Clone, Copy)]
pub struct BitParts {
    pub left: Term,
    pub right: Term,
    pub both: Term,
}

/// The most terms that are replaced by their parts. Each bitwise one among them costs a look through the nodes.
const MOST_STEPS: u32 = 64;

/// Whether the difference of two nodes of one width comes to nothing: each term, the last place first, is replaced by
/// what its node is a sum of, until none is left.
pub fn difference_is_zero(
    alloc: Global,
    nodes: &[Node],
    widths: &[u32],
    first: u32,
    second: u32,
) -> Result<bool, Memory>
    requires first { first < length nodes.now }
    requires second { second < length nodes.now }
    requires size { length widths.now ≡ length nodes.now }
    requires wide { (k w : _) → slice_get widths.now k ≡ Some w → (1 ≤ w) × (w ≤ 64) }
    requires same { slice_index widths.now first ≡ slice_index widths.now second }
    ensures { IfOk result (λ b. IsTrue b → AlwaysSame nodes.now widths.now first second) }
{
    let width = widths[first as usize];
    let mut sum = Sum {
        factors: no_factors(alloc, nodes.len())?,
        overlaps: no_factors(alloc, nodes.len())?,
        constant: 0,
    };
    if !begin(&mut sum, width, first, second) {
        return Ok(false);
    }
    if !expand_all(nodes, widths, width, &mut sum) {
        return Ok(false);
    }
    Ok(is_zero(&sum))
}

/// So many factors, each of them 0.
fn no_factors(alloc: Global, count: usize) -> Result<Vec<u64>, Memory>
    ensures { IfOk result (λ v. v.items ≡ replicate count 0) }
{
    let factors = vec![in alloc; 0; count]?;
    Ok(factors)
}

/// Adds one node and takes another off.
fn begin(sum: &mut Sum, width: u32, first: u32, second: u32) -> bool
    requires low { 1 ≤ width }
    requires high { width ≤ 64 }
    ensures { IsTrue result → Begins width sum.old sum.new first second }
{
    let plus_first = Term {
        factor: 1,
        place: first as usize,
    };
    let minus_second = Term {
        factor: mask(width),
        place: second as usize,
    };
    if !add(sum, width, plus_first) {
        return false;
    }
    add(sum, width, minus_second)
}

/// Replaces each term by its parts, the last place first, so that no term is left; false where one has none, or too
/// many are replaced.
fn expand_all(nodes: &[Node], widths: &[u32], width: u32, sum: &mut Sum) -> bool
    requires low { 1 ≤ width }
    requires high { width ≤ 64 }
    ensures { IsTrue result → KeepsTotal nodes.now widths.now width sum.old sum.new }
{
    let count = sum.factors.len();
    let mut left = MOST_STEPS;
    for i in 0..count {
        let place = count - 1 - i;
        if sum.factors[place] != 0 {
            if left == 0 || !expand(nodes, widths, width, sum, place) {
                return false;
            }
            left -= 1;
        }
    }
    true
}

/// Replaces the term at a place by its parts.
fn expand(nodes: &[Node], widths: &[u32], width: u32, sum: &mut Sum, place: usize) -> bool
    requires low { 1 ≤ width }
    requires high { width ≤ 64 }
    requires place { place < length sum.old.factors.items }
    ensures size { length sum.new.factors.items ≡ length sum.old.factors.items }
    ensures total { IsTrue result → KeepsTotal nodes.now widths.now width sum.old sum.new }
{
    let term = Term {
        factor: sum.factors[place],
        place,
    };
    let Some(parts) = parts_of(nodes, widths, width, term) else {
        return expand_bits(nodes, width, sum, place);
    };
    sum.factors[place] = 0;
    sum.constant = plus(width, sum.constant, parts.constant);
    if !add(sum, width, parts.left) {
        return false;
    }
    add(sum, width, parts.right)
}

/// Replaces the term of a bitwise node at a place by its parts.
fn expand_bits(nodes: &[Node], width: u32, sum: &mut Sum, place: usize) -> bool
    requires low { 1 ≤ width }
    requires high { width ≤ 64 }
    requires place { place < length sum.old.factors.items }
    ensures size { length sum.new.factors.items ≡ length sum.old.factors.items }
    ensures total { IsTrue result → (widths : List ℕ) → KeepsTotal nodes.now widths width sum.old sum.new }
{
    let term = Term {
        factor: sum.factors[place],
        place,
    };
    let Some(parts) = bit_parts_of(nodes, width, term) else {
        return false;
    };
    sum.factors[place] = 0;
    if !add(sum, width, parts.left) {
        return false;
    }
    if !add(sum, width, parts.right) {
        return false;
    }
    add_overlap(sum, width, parts.both)
}

/// Adds a term; false where there is no such place.
fn add(sum: &mut Sum, width: u32, term: Term) -> bool
    requires low { 1 ≤ width }
    requires high { width ≤ 64 }
    ensures size { length sum.new.factors.items ≡ length sum.old.factors.items }
    ensures adds { IsTrue result → Adds width sum.old sum.new term }
{
    let place = term.place;
    if place >= sum.factors.len() {
        return false;
    }
    let factor = sum.factors[place];
    sum.factors[place] = plus(width, factor, term.factor);
    true
}

/// Adds a term of an overlap; false where there is no such place.
fn add_overlap(sum: &mut Sum, width: u32, term: Term) -> bool
    requires low { 1 ≤ width }
    requires high { width ≤ 64 }
    ensures size { length sum.new.factors.items ≡ length sum.old.factors.items }
    ensures adds { IsTrue result → AddsOverlap width sum.old sum.new term }
{
    let place = term.place;
    if place >= sum.overlaps.len() {
        return false;
    }
    let factor = sum.overlaps[place];
    sum.overlaps[place] = plus(width, factor, term.factor);
    true
}

/// Whether no term and no constant is left.
fn is_zero(sum: &Sum) -> bool
    ensures { IsTrue result → IsZero sum.now }
{
    if !are_zero(&sum.factors) {
        return false;
    }
    if !are_zero(&sum.overlaps) {
        return false;
    }
    sum.constant == 0
}

/// Whether each factor is 0.
fn are_zero(factors: &[u64]) -> bool
    ensures { IsTrue result → (vs : List ℕ) → weighed factors.now vs ≡ 0 }
{
    for factor in factors {
        if *factor != 0 {
            return false;
        }
    }
    true
}
