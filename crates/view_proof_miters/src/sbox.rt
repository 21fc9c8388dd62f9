use crate::builder::{Builder, Fault};
use dag::{Node, NodeId};
use std::alloc::Global;

/// The product of two bytes in the field of the AES (FIPS 197, section 4.2).
fn product(x: u8, y: u8) -> u8 {
    let mut sum = 0u8;
    let mut power = x;
    for i in 0..8u32 {
        if (y >> i) & 1 == 1 {
            sum ^= power;
        }
        let carry = power >> 7;
        power = power.wrapping_mul(2) ^ carry.wrapping_mul(0x1b);
    }
    sum
}

/// The substitution of a byte in the AES: its inverse in the field, which is its power 254, and then an affine map
/// (FIPS 197, section 5.1.1).
fn substitution(x: u8) -> u8 {
    let mut inverse = 1u8;
    for i in 0..254u32 {
        let _n = i;
        inverse = product(inverse, x);
    }
    inverse
        ^ inverse.rotate_left(1)
        ^ inverse.rotate_left(2)
        ^ inverse.rotate_left(3)
        ^ inverse.rotate_left(4)
        ^ 0x63
}

/// The table of substitutions as constants, where one entry has its lowest bit turned if `wrong`.
fn entries(b: &mut Builder, alloc: Global, wrong: bool) -> Result<Vec<NodeId>, Fault> {
    let mut words = Vec::new(alloc);
    for x in 0..=255u8 {
        let turned = u64::from(wrong && x == 0x53);
        words.push(b.constant(8, u64::from(substitution(x)) ^ turned)?)?;
    }
    Ok(words)
}

/// Halves a list of words by a bit: of the words at even and odd places, or of its first and last half.
fn halved(
    b: &mut Builder,
    alloc: Global,
    words: &[NodeId],
    bit: NodeId,
    interleaved: bool,
) -> Result<Vec<NodeId>, Fault> {
    let mut half = Vec::new(alloc);
    let count = words.len() / 2;
    for i in 0..count {
        let (low, high) = if interleaved {
            (i.saturating_mul(2), i.saturating_mul(2).saturating_add(1))
        } else {
            (i, i.saturating_add(count))
        };
        let off = words.get(low).copied().unwrap_or(NodeId(0));
        let on = words.get(high).copied().unwrap_or(NodeId(0));
        half.push(b.put(Node::Ite(bit, on, off))?)?;
    }
    Ok(half)
}

/// The substitution of a word's lowest byte, as a tree of choices by its bits from the lowest on, or from the highest.
pub fn tree(
    b: &mut Builder,
    alloc: Global,
    x: NodeId,
    upwards: bool,
    wrong: bool,
) -> Result<NodeId, Fault> {
    let mut words = entries(b, alloc, wrong)?;
    for i in 0..8u32 {
        let at = if upwards { i } else { 7 - i };
        let bit = b.put(Node::Slice {
            high: at,
            low: at,
            a: x,
        })?;
        words = halved(b, alloc, &words, bit, upwards)?;
    }
    Ok(words.first().copied().unwrap_or(NodeId(0)))
}

/// A byte twice in the field: moved up, and the field's polynomial taken off where a bit is lost.
fn doubled(b: &mut Builder, x: NodeId) -> Result<NodeId, Fault> {
    let one = b.constant(8, 1)?;
    let up = b.put(Node::Shl(x, one))?;
    let sign = b.put(Node::Slice {
        high: 7,
        low: 7,
        a: x,
    })?;
    let polynomial = b.constant(8, 0x1b)?;
    let turned = b.put(Node::Xor(up, polynomial))?;
    b.put(Node::Ite(sign, turned, up))
}

/// The product of two bytes in the field, by the bits of the second.
fn product_node(b: &mut Builder, x: NodeId, y: NodeId) -> Result<NodeId, Fault> {
    let mut sum = b.constant(8, 0)?;
    let mut power = x;
    for i in 0..8u32 {
        let bit = b.put(Node::Slice {
            high: i,
            low: i,
            a: y,
        })?;
        let more = b.put(Node::Xor(sum, power))?;
        sum = b.put(Node::Ite(bit, more, sum))?;
        power = doubled(b, power)?;
    }
    Ok(sum)
}

/// A byte rotated up.
fn turned(b: &mut Builder, x: NodeId, amount: u64) -> Result<NodeId, Fault> {
    let up = b.constant(8, amount)?;
    let down = b.constant(8, 8u64.saturating_sub(amount))?;
    let high = b.put(Node::Shl(x, up))?;
    let low = b.put(Node::Shr(x, down))?;
    b.put(Node::Or(high, low))
}

/// The substitution of a byte by inversion: its power 254 from the power 127 down, and then the affine map.
pub fn inverted(b: &mut Builder, x: NodeId) -> Result<NodeId, Fault> {
    let mut power = x;
    for _ in 0..6 {
        let square = product_node(b, power, power)?;
        power = product_node(b, square, x)?;
    }
    let inverse = product_node(b, power, power)?;
    let mut sum = b.constant(8, 0x63)?;
    sum = b.put(Node::Xor(sum, inverse))?;
    for amount in 1..5u64 {
        let part = turned(b, inverse, amount)?;
        sum = b.put(Node::Xor(sum, part))?;
    }
    Ok(sum)
}
