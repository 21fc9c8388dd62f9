//! The value of each kind of node.

ghost use Rattle.std.specs.Prelude.{◌≡◌, ℕ, Some, IsSome, ◌<◌, ◌≤◌, length, take, slice_index, nat_eq, cond};
ghost use Rattle.axe_io.specs.Shapes.{leaf_widths};
ghost use Rattle.bv_words.specs.Words.{slice, cat, sx, slt, one_if as one_if_of};
ghost use Rattle.dag.specs.Node.{IsWord, form, width_by, cut_width, joined_width, widened_width, test_width, same_width, kind_value as kind_value_of, node_width, node_value as node_value_of, word_at, InWords};

use crate::node::{Node, NodeId};
use axe_io::Shape;

/// A number with its width, which is from 1 to 64; the number is below `2 ^ width`.
#[derive(Clone, Copy, Debug, PartialEq, Eq)]
pub struct Word {
    pub width: u32,
    pub value: u64,
}

/// The value of a node on an input of a shape, where its children have the words `x`, `y` and `z`. A word past the
/// node's children is any word.
pub fn kind_value(shape: &Shape, input: &[u64], node: Node, x: Word, y: Word, z: Word) -> u64
    requires first { IsWord x.width x.value }
    requires second { IsWord y.width y.value }
    requires third { IsWord z.width z.value }
    requires fits { IsSome (width_by (leaf_widths shape.now.params) (form node) (Some x.width) (Some y.width) (Some z.width)) }
    ensures { result ≡ kind_value_of input.now node x y z }
{
    match node {
        Node::Leaf { index, .. } => leaf_value(input, index),
        Node::Const { value, .. } => value,
        Node::Not(_) => bv_words::not(x.width, x.value),
        Node::And(..) => bv_words::and(x.width, x.value, y.value),
        Node::Or(..) => bv_words::or(x.width, x.value, y.value),
        Node::Xor(..) => bv_words::xor(x.width, x.value, y.value),
        Node::Neg(_) => bv_words::neg(x.width, x.value),
        Node::Plus(..) => bv_words::plus(x.width, x.value, y.value),
        Node::Times(..) => bv_words::times(x.width, x.value, y.value),
        Node::Eq(..) => one_if(x.value == y.value),
        Node::Ult(..) => one_if(bv_words::ult(x.width, x.value, y.value)),
        Node::Slt(..) => slt_value(x, y),
        Node::Ite(..) => choice_value(x, y, z),
        Node::Slice { high, low, .. } => slice_value(high, low, x),
        Node::Cat(..) => cat_value(x, y),
        Node::Sext { width, .. } => sext_value(width, x),
        Node::Shl(..) => bv_words::shl(x.width, x.value, y.value),
        Node::Shr(..) => bv_words::shr(x.width, x.value, y.value),
        Node::Udiv(..) => bv_words::udiv(x.width, x.value, y.value),
        Node::Urem(..) => bv_words::urem(x.width, x.value, y.value),
    }
}

fn one_if(holds: bool) -> u64
    ensures { result ≡ one_if_of holds }
{
    if holds { 1 } else { 0 }
}

fn leaf_value(input: &[u64], index: u32) -> u64
    ensures { result ≡ slice_index input.now index }
{
    input.get(index as usize).copied().unwrap_or(0)
}

fn slt_value(x: Word, y: Word) -> u64
    requires first { IsWord x.width x.value }
    requires second { IsWord y.width y.value }
    requires fits { IsSome (test_width (same_width (Some x.width) (Some y.width))) }
    ensures { result ≡ one_if_of (slt x.width x.value y.value) }
{
    one_if(bv_words::slt(x.width, x.value, y.value))
}

fn choice_value(x: Word, y: Word, z: Word) -> u64
    ensures { result ≡ cond (nat_eq x.value 1) y.value z.value }
{
    if x.value == 1 { y.value } else { z.value }
}

fn slice_value(high: u32, low: u32, x: Word) -> u64
    requires first { IsWord x.width x.value }
    requires fits { IsSome (cut_width high low (Some x.width)) }
    ensures { result ≡ slice high low x.value }
{
    bv_words::slice(high, low, x.value)
}

fn cat_value(x: Word, y: Word) -> u64
    requires first { IsWord x.width x.value }
    requires second { IsWord y.width y.value }
    requires fits { IsSome (joined_width (Some x.width) (Some y.width)) }
    ensures { result ≡ cat x.width x.value y.width y.value }
{
    bv_words::cat(x.width, x.value, y.width, y.value)
}

fn sext_value(width: u32, x: Word) -> u64
    requires first { IsWord x.width x.value }
    requires fits { IsSome (widened_width width (Some x.width)) }
    ensures { result ≡ sx width x.width x.value }
{
    bv_words::sx(width, x.width, x.value)
}

/// The value of a node on an input of a shape, from the widths of a graph's nodes and the values of the first of them.
pub(crate) fn node_value(
    shape: &Shape,
    input: &[u64],
    widths: &[u32],
    values: &[u64],
    node: Node,
) -> u64
    requires size { length values.now ≤ length widths.now }
    requires words { InWords (take (length values.now) widths.now) values.now }
    requires fits { IsSome (node_width (leaf_widths shape.now.params) (take (length values.now) widths.now) node) }
    ensures { result ≡ node_value_of input.now widths.now values.now node }
{
    let [a, b, c] = node.children().ids;
    let x = word_of(widths, values, a);
    let y = word_of(widths, values, b);
    let z = word_of(widths, values, c);
    kind_value(shape, input, node, x, y, z)
}

/// The word at a place, or any word past the last value.
fn word_of(widths: &[u32], values: &[u64], id: NodeId) -> Word
    requires size { length values.now ≤ length widths.now }
    requires words { InWords (take (length values.now) widths.now) values.now }
    ensures word { IsWord result.width result.value }
    ensures is { id.0 < length values.now → result ≡ word_at widths.now values.now id.0 }
{
    let place = id.0 as usize;
    if place < values.len() {
        Word {
            width: widths[place],
            value: values[place],
        }
    } else {
        Word { width: 1, value: 0 }
    }
}
