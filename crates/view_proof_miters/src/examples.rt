//! Pairs whose answer is known to the line, and paths.

ghost use Rattle.std.specs.Prelude.{◌≡◌, Some};

use crate::builder::{Builder, Fault};
use crate::found::{Came, found};
use crate::sbox::{inverted, tree};
use dag::{Dag, Node, NodeId};
use std::alloc::Global;
use view_proof::{Settled, settle};

/// The names of the pairs.
pub const EXAMPLES: [&str; 13] = [
    "sum_as_or_and_and",
    "xor_as_or_minus_and",
    "sum_and_itself",
    "sum_and_xor_of_bytes",
    "or_and_and",
    "cut_at_products",
    "cut_at_a_leaf",
    "same_without_cut",
    "product_with_three_lines",
    "distributivity_with_200_lines",
    "too_many_variables",
    "substitution_against_inversion",
    "wrong_substitution_against_inversion",
];

/// What is found of the pair of a number.
pub fn example(alloc: Global, number: u32) -> Result<Came, Fault> {
    let mut b = Builder::new(alloc, 65536)?;
    match number {
        0..=4 => {
            let pair = bytes(&mut b, number)?;
            found(alloc, &b.dag, pair, None, 10000)
        }
        5 => {
            let pair = products(&mut b)?;
            found(alloc, &b.dag, pair, Some(2), 10000)
        }
        6 => {
            let pair = next(&mut b)?;
            found(alloc, &b.dag, pair, Some(1), 10000)
        }
        7 => {
            let pair = next(&mut b)?;
            found(alloc, &b.dag, pair, None, 10000)
        }
        8 => {
            let pair = turned_product(&mut b)?;
            found(alloc, &b.dag, pair, None, 3)
        }
        9 => {
            let pair = distributed(&mut b)?;
            found(alloc, &b.dag, pair, None, 200)
        }
        10 => {
            let pair = many_products(&mut b)?;
            found(alloc, &b.dag, pair, None, 10000)
        }
        11 => {
            let pair = substitutions(&mut b, alloc, false)?;
            found(alloc, &b.dag, pair, None, 10000)
        }
        _ => {
            let pair = substitutions(&mut b, alloc, true)?;
            found(alloc, &b.dag, pair, None, 10000)
        }
    }
}

/// Pairs of words over two bytes.
fn bytes(b: &mut Builder, number: u32) -> Result<(NodeId, NodeId), Fault> {
    let (x, y) = (b.byte(0)?, b.byte(1)?);
    let both = b.put(Node::And(x, y))?;
    let either = b.put(Node::Or(x, y))?;
    let differ = b.put(Node::Xor(x, y))?;
    let sum = b.put(Node::Plus(x, y))?;
    match number {
        0 => Ok((sum, b.put(Node::Plus(either, both))?)),
        1 => Ok((differ, b.minus(either, both)?)),
        2 => Ok((sum, sum)),
        3 => Ok((sum, differ)),
        _ => Ok((both, either)),
    }
}

/// Not both of two products, in two forms.
fn products(b: &mut Builder) -> Result<(NodeId, NodeId), Fault> {
    let (x, y, z) = (b.input(0)?, b.input(1)?, b.input(2)?);
    let p = b.put(Node::Times(x, y))?;
    let q = b.put(Node::Times(y, z))?;
    let not_p = b.put(Node::Not(p))?;
    let not_q = b.put(Node::Not(q))?;
    let either = b.put(Node::Or(not_p, not_q))?;
    let both = b.put(Node::And(p, q))?;
    Ok((either, b.put(Node::Not(both))?))
}

/// A word and the next one.
fn next(b: &mut Builder) -> Result<(NodeId, NodeId), Fault> {
    let x = b.input(0)?;
    let one = b.constant(32, 1)?;
    Ok((x, b.put(Node::Plus(x, one))?))
}

/// A product of two bytes in both orders.
fn turned_product(b: &mut Builder) -> Result<(NodeId, NodeId), Fault> {
    let (x, y) = (b.byte(0)?, b.byte(1)?);
    Ok((b.put(Node::Times(x, y))?, b.put(Node::Times(y, x))?))
}

/// A product by a sum of bytes, and the sum of the products.
fn distributed(b: &mut Builder) -> Result<(NodeId, NodeId), Fault> {
    let (x, y, z) = (b.byte(0)?, b.byte(1)?, b.byte(2)?);
    let sum = b.put(Node::Plus(y, z))?;
    let whole = b.put(Node::Times(x, sum))?;
    let first = b.put(Node::Times(x, y))?;
    let second = b.put(Node::Times(x, z))?;
    Ok((whole, b.put(Node::Plus(first, second))?))
}

/// A product of 1,025 words of 64 bits, of 16,384 units for each product, beside one of the words.
fn many_products(b: &mut Builder) -> Result<(NodeId, NodeId), Fault> {
    let (x, y) = (b.long(0)?, b.long(1)?);
    let mut product = x;
    for _ in 0..1024 {
        product = b.put(Node::Times(product, y))?;
    }
    Ok((product, x))
}

/// The substitution of the AES on a byte, by its table and by inversion in the field.
fn substitutions(b: &mut Builder, alloc: Global, wrong: bool) -> Result<(NodeId, NodeId), Fault> {
    let x = b.byte(0)?;
    Ok((tree(b, alloc, x, true, wrong)?, inverted(b, x)?))
}

/// What is found of a path: that it is never 1, or the first byte of an input on which it is.
#[derive(Clone, Copy)]
pub enum Path {
    Never,
    Reached { byte: u64 },
    Open,
}

/// Whether the lowest bit of a byte, as a byte, is ever a number.
pub fn lowest_bit_is(alloc: Global, number: u64) -> Result<Path, Fault> {
    let mut b = Builder::new(alloc, 65536)?;
    let x = b.byte(0)?;
    let one = b.constant(8, 1)?;
    let low = b.put(Node::And(x, one))?;
    let wanted = b.constant(8, number)?;
    let path = b.put(Node::Eq(low, wanted))?;
    path_of(alloc, &b.dag, path)
}

fn path_of(alloc: Global, dag: &Dag, path: NodeId) -> Result<Path, Fault> {
    if dag.width_at(path) != Some(1) {
        return Err(Fault::Unfit);
    }
    match settle(alloc, dag, path, 10000)? {
        Settled::Reached(input) => Ok(match input.leaves().get(8) {
            Some(byte) => Path::Reached { byte: *byte },
            None => Path::Open,
        }),
        Settled::Never => Ok(Path::Never),
        _ => Ok(Path::Open),
    }
}
