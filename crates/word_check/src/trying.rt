//! A circuit on all values of its leaves, where these have few bits together.

ghost use Rattle.std.specs.Prelude.{◌≡◌, ◌<◌, ◌≤◌, ◌^◌, ◌/◌, ◌∷◌, [], ℕ, IsTrue, IfOk, IfSome, IsSome, OnOk, Some, length, take, slice_get, slice_index};
ghost use Rattle.axe_io.specs.Shapes.{leaf_widths};
ghost use Rattle.dag.specs.Node.{IsWord, InWords, word_at, node_width};
ghost use Rattle.bit_blaster.specs.Circuit.{HaveWidths, width_in};
ghost use Rattle.word_check.specs.Valuation.{NeverDiffer};
ghost use Rattle.word_check.specs.Trying.{leaf_bits, bits_of, taken_value, taken_from, AreSameOn};

use axe_io::{Kind, OutPlace, Shape};
use dag::{Node, NodeId, Word, kind_value};
use memory::Memory;
use std::alloc::Global;

/// The most bits that the leaves have together.
const MOST_BITS: u32 = 12;

/// The most values of nodes that are computed.
const MOST_VALUES: u64 = 4194304;

/// Whether two nodes of a circuit have equal values on all values of its leaves, where these have at most 12 bits
/// together and at most 4,194,304 values are to be computed.
pub fn are_same_on_all(
    alloc: Global,
    nodes: &[Node],
    widths: &[u32],
    first: u32,
    second: u32,
) -> Result<bool, Memory>
    requires widths { HaveWidths nodes.now widths.now }
    requires first { first < length nodes.now }
    requires second { second < length nodes.now }
    ensures { IfOk result (λ b. IsTrue b → NeverDiffer nodes.now first second) }
{
    let Some(bits) = few_bits(nodes) else {
        return Ok(false);
    };
    let count = 1u64 << bits;
    if nodes.len() as u64 > MOST_VALUES / count {
        return Ok(false);
    }
    let no_leaves = Shape::of(Vec::new(alloc), OutPlace::Returned, Kind::Int, false);
    let mut values = Vec::new(alloc);
    for number in 0..count {
        fill(&no_leaves, nodes, widths, number, &mut values)?;
        if !are_same(&values, first, second) {
            return Ok(false);
        }
    }
    Ok(true)
}

/// Whether the values at two places are the same.
fn are_same(values: &[u64], first: u32, second: u32) -> bool
    ensures { IsTrue result → slice_index values.now first ≡ slice_index values.now second }
{
    value_at(values, first) == value_at(values, second)
}

/// The value at a place, or 0 from the last on.
fn value_at(values: &[u64], place: u32) -> u64
    ensures { result ≡ slice_index values.now place }
{
    values.get(place as usize).copied().unwrap_or(0)
}

/// The bits of the leaves together, where they are few.
fn few_bits(nodes: &[Node]) -> Option<u32>
    ensures { IfSome result (λ b. (b ≡ leaf_bits nodes.now) × (b ≤ 12)) }
{
    let mut bits = 0u32;
    for node in nodes {
        let more = bits_of(*node);
        if more > MOST_BITS - bits {
            return None;
        }
        bits += more;
    }
    Some(bits)
}

/// The bits of a leaf, and 0 of another node.
fn bits_of(node: Node) -> u32
    ensures { result ≡ bits_of node }
{
    if let Node::Leaf { width, .. } = node {
        width
    } else {
        0
    }
}

/// The values of all nodes on a number's bits.
fn fill(
    no_leaves: &Shape,
    nodes: &[Node],
    widths: &[u32],
    number: u64,
    values: &mut Vec<u64>,
) -> Result<(), Memory>
    requires shape { leaf_widths no_leaves.now.params ≡ [] }
    requires widths { HaveWidths nodes.now widths.now }
    requires few { leaf_bits nodes.now < 64 }
    ensures { OnOk result (values.new.items ≡ taken_from number widths.now [] nodes.now) }
{
    values.clear();
    let mut left = number;
    for node in nodes {
        let value = taken_value(no_leaves, widths, values, left, *node);
        left = after(left, *node);
        values.push(value)?;
    }
    Ok(())
}

/// What is left of a number after a node has taken its bits.
fn after(left: u64, node: Node) -> u64
    requires { bits_of node < 64 }
    ensures { result ≡ left / 2 ^ bits_of node }
{
    left >> bits_of(node)
}

/// The value of a node on the lowest bits of a number.
fn taken_value(no_leaves: &Shape, widths: &[u32], values: &[u64], left: u64, node: Node) -> u64
    requires shape { leaf_widths no_leaves.now.params ≡ [] }
    requires size { length values.now ≤ length widths.now }
    requires words { InWords (take (length values.now) widths.now) values.now }
    requires fits { IsSome (width_in (take (length values.now) widths.now) node) }
    ensures { result ≡ taken_value left widths.now values.now node }
{
    if let Node::Leaf { width, .. } = node {
        return bv_words::chop(width, left);
    }
    let [a, b, c] = node.children().ids;
    let x = word_of(widths, values, a);
    let y = word_of(widths, values, b);
    let z = word_of(widths, values, c);
    kind_value(no_leaves, &[], node, x, y, z)
}

/// The word at a place, or any word past the last value.
fn word_of(widths: &[u32], values: &[u64], id: NodeId) -> Word
    requires size { length values.now ≤ length widths.now }
    requires words { InWords (take (length values.now) widths.now) values.now }
    ensures word { IsWord result.width result.value }
    ensures is { id.0 < length values.now → result ≡ word_at widths.now values.now id.0 }
{
    let place = id.0 as usize;
    if place < values.len() {
        Word {
            width: widths[place],
            value: values[place],
        }
    } else {
        Word { width: 1, value: 0 }
    }
}
