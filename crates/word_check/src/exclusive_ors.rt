//! Two nodes as the exclusive or of other nodes and a constant.

ghost use Rattle.std.specs.Prelude.{◌≡◌, ◌<◌, ◌≤◌, ◌^◌, ◌-◌, ℕ, List, IsTrue, IfOk, Some, length, slice_get, slice_index, bit_xor};
ghost use Rattle.word_check.specs.Valuation.{AlwaysSame};
ghost use Rattle.word_check.specs.ExclusiveOrs.{Toggles, Trades, KeepsXor, IsZeroXor};

use crate::members::no_members;
use crate::parts::{node_at, width_at};
use bv_words::mask;
use dag::{Node, NodeId};
use memory::Memory;
use std::alloc::Global;

/// Whether each node of a circuit is a member, and a constant.
#[derive(Drop)]
pub struct XorSet {
    pub members: Vec<bool>,
    pub constant: u64,
}

/// Whether the exclusive or of two nodes comes to nothing: each member, the last place first, is replaced by what its
/// node is the exclusive or of, until none is left.
pub fn xor_is_zero(
    alloc: Global,
    nodes: &[Node],
    widths: &[u32],
    first: u32,
    second: u32,
) -> Result<bool, Memory>
    requires { (k w : ℕ) → slice_get widths.now k ≡ Some w → (1 ≤ w) × (w ≤ 64) }
    ensures { IfOk result (λ b. IsTrue b → AlwaysSame nodes.now widths.now first second) }
{
    let mut xors = XorSet {
        members: no_members(alloc, nodes.len())?,
        constant: 0,
    };
    if !toggle(&mut xors, first as usize) {
        return Ok(false);
    }
    if !toggle(&mut xors, second as usize) {
        return Ok(false);
    }
    if !replace_all(nodes, widths, &mut xors) {
        return Ok(false);
    }
    Ok(is_zero_xor(&xors))
}

/// Replaces each member, the last place first; false where one can't be.
fn replace_all(nodes: &[Node], widths: &[u32], xors: &mut XorSet) -> bool
    requires { (k w : ℕ) → slice_get widths.now k ≡ Some w → (1 ≤ w) × (w ≤ 64) }
    ensures { IsTrue result → KeepsXor nodes.now widths.now xors.old xors.new }
{
    let count = xors.members.len();
    for i in 0..count {
        let place = count - 1 - i;
        if xors.members[place] {
            if !replace(nodes, widths, xors, place) {
                return false;
            }
        }
    }
    true
}

/// Replaces a member by what its node is the exclusive or of.
fn replace(nodes: &[Node], widths: &[u32], xors: &mut XorSet, place: usize) -> bool
    requires { (k w : ℕ) → slice_get widths.now k ≡ Some w → (1 ≤ w) × (w ≤ 64) }
    ensures size { length xors.new.members.items ≡ length xors.old.members.items }
    ensures kept { IsTrue result → KeepsXor nodes.now widths.now xors.old xors.new }
{
    let Some(node) = node_at(nodes, place) else {
        return false;
    };
    match node {
        Node::Const { value, .. } => trade_constant(xors, place, value),
        Node::Not(a) => {
            let Some(width) = width_at(widths, a) else {
                return false;
            };
            trade_turned(xors, place, a, width)
        }
        Node::Xor(a, b) => trade_both(xors, place, a, b),
        _ => false,
    }
}

/// Takes a place out, and puts a constant in its stead.
fn trade_constant(xors: &mut XorSet, place: usize, value: u64) -> bool
    ensures size { length xors.new.members.items ≡ length xors.old.members.items }
    ensures kept { IsTrue result → Trades xors.old xors.new place (λ _. value) }
{
    xors.constant ^= value;
    toggle(xors, place)
}

/// Takes a place out, and puts a node and the bits of its width in its stead.
fn trade_turned(xors: &mut XorSet, place: usize, a: NodeId, width: u32) -> bool
    requires low { 1 ≤ width }
    requires high { width ≤ 64 }
    ensures size { length xors.new.members.items ≡ length xors.old.members.items }
    ensures kept { IsTrue result → Trades xors.old xors.new place (λ vs. bit_xor (slice_index vs a.0) (2 ^ width - 1)) }
{
    xors.constant ^= mask(width);
    if !toggle(xors, place) {
        return false;
    }
    toggle(xors, a.0 as usize)
}

/// Takes a place out, and puts two nodes in its stead.
fn trade_both(xors: &mut XorSet, place: usize, a: NodeId, b: NodeId) -> bool
    ensures size { length xors.new.members.items ≡ length xors.old.members.items }
    ensures kept { IsTrue result → Trades xors.old xors.new place (λ vs. bit_xor (slice_index vs a.0) (slice_index vs b.0)) }
{
    if !toggle(xors, place) {
        return false;
    }
    if !toggle(xors, a.0 as usize) {
        return false;
    }
    toggle(xors, b.0 as usize)
}

/// Puts a place in, or takes it out where it is in; false where there is no such place.
fn toggle(xors: &mut XorSet, place: usize) -> bool
    ensures size { length xors.new.members.items ≡ length xors.old.members.items }
    ensures toggles { IsTrue result → Toggles xors.old xors.new place }
{
    if place >= xors.members.len() {
        return false;
    }
    let member = xors.members[place];
    xors.members[place] = !member;
    true
}

/// Whether no member and no constant is left.
fn is_zero_xor(xors: &XorSet) -> bool
    ensures { IsTrue result → IsZeroXor xors.now }
{
    for member in &xors.members {
        if *member {
            return false;
        }
    }
    xors.constant == 0
}
