use crate::builder::{Builder, Fault};
use crate::sbox::tree;
use dag::{Node, NodeId};
use std::alloc::Global;

/// The names of the pairs.
pub const NAMES: [&str; 17] = [
    "sum_swapped",
    "sum_by_parts",
    "xor_by_parts",
    "rotation_by_shifts",
    "tea_round",
    "nine_times",
    "sign_extension",
    "substitution",
    "sum_and_xor",
    "rotation_by_another",
    "tea_round_and_another",
    "eight_times",
    "zero_extension",
    "substitution_and_another",
    "tea_sums",
    "hash_sums",
    "hash_sums_and_others",
];

/// The two nodes of a pair. The first eight pairs and the two of sums are equal, and the others aren't.
pub fn pair(b: &mut Builder, alloc: Global, number: u32) -> Result<(NodeId, NodeId), Fault> {
    let x = b.input(0)?;
    let y = b.input(1)?;
    match number {
        0 => Ok((b.put(Node::Plus(x, y))?, b.put(Node::Plus(y, x))?)),
        1 => Ok((b.put(Node::Plus(x, y))?, sum_by_parts(b, x, y)?)),
        2 => Ok((b.put(Node::Xor(x, y))?, b.xor_by_parts(x, y)?)),
        3 => Ok((rotation(b, x, 5)?, cut_rotation(b, x)?)),
        4 => Ok((tea_round(b, false, 5)?, tea_round(b, true, 5)?)),
        5 => Ok((times(b, x, 9)?, nine_times(b, x)?)),
        6 => Ok((extended(b, x)?, extended_by_hand(b, x)?)),
        7 => Ok((
            tree(b, alloc, x, true, false)?,
            tree(b, alloc, x, false, false)?,
        )),
        8 => Ok((b.put(Node::Plus(x, y))?, b.put(Node::Xor(x, y))?)),
        9 => Ok((rotation(b, x, 6)?, cut_rotation(b, x)?)),
        10 => Ok((tea_round(b, false, 5)?, tea_round(b, true, 6)?)),
        11 => Ok((times(b, x, 8)?, nine_times(b, x)?)),
        12 => Ok((extended(b, x)?, low_byte(b, x)?)),
        13 => Ok((
            tree(b, alloc, x, true, false)?,
            tree(b, alloc, x, false, true)?,
        )),
        14 => Ok((tea_sums(b, false)?, tea_sums(b, true)?)),
        15 => Ok((hash_sums(b, false, 7)?, hash_sums(b, true, 7)?)),
        16 => Ok((hash_sums(b, false, 7)?, hash_sums(b, true, 9)?)),
        _ => Err(Fault::NoSuchPair),
    }
}

/// Two sums of the Tiny Encryption Algorithm one after another, in either association.
fn tea_sums(b: &mut Builder, other: bool) -> Result<NodeId, Fault> {
    let (y, z) = (b.input(0)?, b.input(1)?);
    let (key0, key1) = (b.input(2)?, b.input(3)?);
    let up = b.shl(z, 4)?;
    if other {
        let keys = b.put(Node::Plus(key0, key1))?;
        let rest = b.put(Node::Plus(y, up))?;
        return b.put(Node::Plus(rest, keys));
    }
    let first = b.put(Node::Plus(up, key0))?;
    let second = b.put(Node::Plus(y, first))?;
    b.put(Node::Plus(second, key1))
}

/// Five words of a round of SHA-256 added up, in either order, with a rotation by so much.
fn hash_sums(b: &mut Builder, other: bool, amount: u32) -> Result<NodeId, Fault> {
    let (e, f) = (b.input(0)?, b.input(1)?);
    let (h, w) = (b.input(2)?, b.input(3)?);
    let turned = rotation(b, e, amount)?;
    let chosen = b.put(Node::And(e, f))?;
    let constant = b.constant(32, 0x428a_2f98)?;
    let words = if other {
        [w, constant, chosen, turned, h]
    } else {
        [h, turned, chosen, constant, w]
    };
    let mut sum = words[0];
    for word in &words[1..] {
        sum = b.put(Node::Plus(sum, *word))?;
    }
    Ok(sum)
}

fn sum_by_parts(b: &mut Builder, x: NodeId, y: NodeId) -> Result<NodeId, Fault> {
    let either = b.put(Node::Or(x, y))?;
    let both = b.put(Node::And(x, y))?;
    b.put(Node::Plus(either, both))
}

/// A word rotated up, by two shifts.
fn rotation(b: &mut Builder, x: NodeId, amount: u32) -> Result<NodeId, Fault> {
    let up = b.shl(x, u64::from(amount))?;
    let down = b.shr(x, u64::from(32u32.saturating_sub(amount)))?;
    b.put(Node::Or(up, down))
}

/// A word rotated up by 5, by its two parts joined.
fn cut_rotation(b: &mut Builder, x: NodeId) -> Result<NodeId, Fault> {
    let low = b.put(Node::Slice {
        high: 26,
        low: 0,
        a: x,
    })?;
    let high = b.put(Node::Slice {
        high: 31,
        low: 27,
        a: x,
    })?;
    b.put(Node::Cat(low, high))
}

/// Half a cycle of the Tiny Encryption Algorithm (Wheeler and Needham), with each exclusive or by its node or by parts,
/// and with a shift down by so much.
fn tea_round(b: &mut Builder, by_parts: bool, down: u64) -> Result<NodeId, Fault> {
    let (y, z) = (b.input(0)?, b.input(1)?);
    let (key0, key1) = (b.input(2)?, b.input(3)?);
    let delta = b.constant(32, 0x9e37_79b9)?;
    let up = b.shl(z, 4)?;
    let first = b.put(Node::Plus(up, key0))?;
    let second = b.put(Node::Plus(z, delta))?;
    let low = b.shr(z, down)?;
    let third = b.put(Node::Plus(low, key1))?;
    let two = b.xor(by_parts, first, second)?;
    let mixed = b.xor(by_parts, two, third)?;
    b.put(Node::Plus(y, mixed))
}

fn times(b: &mut Builder, x: NodeId, factor: u64) -> Result<NodeId, Fault> {
    let factor = b.constant(32, factor)?;
    b.put(Node::Times(x, factor))
}

fn nine_times(b: &mut Builder, x: NodeId) -> Result<NodeId, Fault> {
    let up = b.shl(x, 3)?;
    b.put(Node::Plus(up, x))
}

/// The lowest byte of a word, extended with its sign.
fn extended(b: &mut Builder, x: NodeId) -> Result<NodeId, Fault> {
    let a = b.put(Node::Slice {
        high: 7,
        low: 0,
        a: x,
    })?;
    b.put(Node::Sext { width: 32, a })
}

fn low_byte(b: &mut Builder, x: NodeId) -> Result<NodeId, Fault> {
    let mask = b.constant(32, 255)?;
    b.put(Node::And(x, mask))
}

/// The same by turning the sign's bit and taking it off.
fn extended_by_hand(b: &mut Builder, x: NodeId) -> Result<NodeId, Fault> {
    let byte = low_byte(b, x)?;
    let sign = b.constant(32, 128)?;
    let turned = b.put(Node::Xor(byte, sign))?;
    b.minus(turned, sign)
}
