//! Built nodes against values found by other operations, on random nodes and inputs.

ghost use Rattle.std.specs.Prelude.{◌≤◌};

use axe_io::{Kind, OutPlace, Param, Shape};
use dag::{Dag, DagError, Node, NodeId};
use rewriter::{Charge, build};
use std::alloc::{AllocError, Global};
use std::process::Abort;
use std::test::Fail;

/// Numbers that look random, from a linear congruence modulo 2^64.
#[derive(Drop)]
struct Numbers {
    state: u64,
}

impl Numbers {
    fn next(&mut self) -> u64 {
        self.state = self
            .state
            .wrapping_mul(6_364_136_223_846_793_005)
            .wrapping_add(1_442_695_040_888_963_407);
        self.state ^ (self.state >> 29)
    }

    /// A number below a bound, 0 where the bound is 0.
    fn below(&mut self, bound: u32) -> u32 {
        (self.next() / 128 % u64::from(bound.max(1))) as u32
    }
}

/// 2 to a width of at most 64.
fn modulus(width: u32) -> u128
    ensures { 1 ≤ result }
{
    2u128.wrapping_pow(width.min(64)).max(1)
}

/// A number modulo 2 to a width.
fn cut(width: u32, number: u128) -> u64 {
    let rest = number % modulus(width);
    rest.min(u128::from(u64::MAX)) as u64
}

/// The size of a number as a signed one, and whether it is negative.
fn signed(width: u32, x: u64) -> (u128, bool) {
    let number = u128::from(cut(width, u128::from(x)));
    if number.wrapping_mul(2) >= modulus(width) {
        (modulus(width).wrapping_sub(number), true)
    } else {
        (number, false)
    }
}

/// Whether one number is less than another one as signed numbers.
fn is_less(width: u32, x: u64, y: u64) -> bool {
    match (signed(width, x), signed(width, y)) {
        ((a, true), (b, true)) => a > b,
        ((_, true), (_, false)) => true,
        ((_, false), (_, true)) => false,
        ((a, false), (b, false)) => a < b,
    }
}

/// A number of a width extended with its sign.
fn extended(width: u32, old: u32, x: u64) -> u64 {
    let (size, negative) = signed(old, x);
    if negative {
        cut(width, modulus(width).wrapping_sub(size))
    } else {
        cut(width, size)
    }
}

/// The sum of 2^i over the bits i at which a table of two bits has a 1.
fn bitwise(x: u64, y: u64, table: [u64; 4]) -> u64 {
    let mut sum = 0u64;
    for i in 0..64u32 {
        let place = (x >> i) % 2 * 2 + (y >> i) % 2;
        sum |= table[place as usize] << i;
    }
    sum
}

fn bit(holds: bool) -> u64 {
    if holds { 1 } else { 0 }
}

/// A width and a number.
type Sized = (u32, u64);

/// The value of a node of a width over children of these words.
fn expected(node: Node, width: u32, x: Sized, y: Sized, z: Sized) -> u64 {
    let (wx, x) = x;
    let (wy, y) = y;
    let wide_x = u128::from(x);
    let wide_y = u128::from(y);
    match node {
        Node::Leaf { .. } => x,
        Node::Const { value, .. } => value,
        Node::Not(_) => cut(width, modulus(width).wrapping_sub(1).wrapping_sub(wide_x)),
        Node::And(..) => bitwise(x, y, [0, 0, 0, 1]),
        Node::Or(..) => bitwise(x, y, [0, 1, 1, 1]),
        Node::Xor(..) => bitwise(x, y, [0, 1, 1, 0]),
        Node::Neg(_) => cut(width, modulus(width).wrapping_sub(wide_x)),
        Node::Plus(..) => cut(width, wide_x + wide_y),
        Node::Times(..) => cut(width, wide_x.wrapping_mul(wide_y)),
        Node::Eq(..) => bit(x <= y && y <= x),
        Node::Ult(..) => bit(!(y <= x)),
        Node::Slt(..) => bit(is_less(wx, x, y)),
        Node::Ite(..) => { if x == 0 { z.1 } else { y } }
        Node::Slice { low, .. } => cut(width, wide_x / modulus(low)),
        Node::Cat(..) => cut(width, wide_x.wrapping_mul(modulus(wy)).wrapping_add(wide_y)),
        Node::Sext { .. } => extended(width, wx, x),
        Node::Shl(..) => {
            if y >= u64::from(wx) {
                0
            } else {
                cut(width, wide_x.wrapping_mul(modulus(y.min(64) as u32)))
            }
        }
        Node::Shr(..) => {
            if y >= u64::from(wx) {
                0
            } else {
                cut(64, wide_x / modulus(y.min(64) as u32))
            }
        }
        Node::Udiv(..) => u64::checked_div(x, y).unwrap_or(0),
        Node::Urem(..) => u64::checked_rem(x, y).unwrap_or(x),
    }
}

/// A graph over two bytes, an int and a long.
fn begin(alloc: Global) -> Result<Dag, DagError> {
    let scalar = |kind: Kind| Param { kind, len: None };
    let params = Vec::from_slice(
        alloc,
        &[
            scalar(Kind::Byte),
            scalar(Kind::Byte),
            scalar(Kind::Int),
            scalar(Kind::Long),
        ],
    )?;
    let shape = Shape::of(params, OutPlace::Returned, Kind::Int, false);
    Dag::begin(alloc, 100_000, &shape)
}

/// A node that is chosen at random over those of a graph; it may not fit.
fn drawn(numbers: &mut Numbers, count: u32) -> Node {
    let a = NodeId(numbers.below(count));
    let b = NodeId(numbers.below(count));
    let c = NodeId(numbers.below(count));
    let width = [1, 3, 5, 8, 16, 24, 32, 64][(numbers.below(8) % 8) as usize];
    let low = numbers.below(32);
    let high = low.wrapping_add(numbers.below(16));
    match numbers.below(20) {
        0 => constant(numbers, width),
        1 => Node::Not(a),
        2 => Node::And(a, b),
        3 => Node::Or(a, b),
        4 => Node::Xor(a, b),
        5 => Node::Neg(a),
        6 => Node::Plus(a, b),
        7 => Node::Times(a, b),
        8 => Node::Eq(a, b),
        9 => Node::Ult(a, b),
        10 => Node::Slt(a, b),
        11 => Node::Ite(a, b, c),
        12 => Node::Slice { high, low, a },
        13 => Node::Cat(a, b),
        14 => Node::Sext { width, a },
        15 => Node::Shl(a, b),
        16 => Node::Shr(a, b),
        17 => Node::Udiv(a, b),
        18 => Node::Urem(a, b),
        _ => Node::Xor(a, a),
    }
}

/// A constant of a width: zero, one, all ones, a mask, or any other.
fn constant(numbers: &mut Numbers, width: u32) -> Node {
    let any = numbers.next();
    let number = match numbers.below(6) {
        0 => 0,
        1 => 1,
        2 => u64::MAX,
        3 => 255,
        4 => 1u64 << (any % 64),
        _ => any,
    };
    Node::Const {
        width,
        value: cut(width, u128::from(number)),
    }
}

/// The numbers of the leaves.
fn leaves(numbers: &mut Numbers) -> [u64; 4] {
    [
        numbers.next() % 256,
        numbers.next() % 256,
        numbers.next() % (1 << 32),
        numbers.next(),
    ]
}

fn word_at(dag: &Dag, values: &[u64], id: NodeId) -> Sized {
    let width = dag.width_at(id).unwrap_or(1);
    let value = values.get(id.0 as usize).copied().unwrap_or(0);
    (width, value)
}

/// The value of a node over those of a graph that have these values.
fn value_of(dag: &Dag, values: &[u64], leaves: &[u64; 4], node: Node) -> u64 {
    let ids = node.children().ids;
    let width = dag.width_of(node).unwrap_or(1);
    let first = match node {
        Node::Leaf { index, width } => { (width, leaves.get(index as usize).copied().unwrap_or(0)) }
        _ => word_at(dag, values, ids[0]),
    };
    let second = word_at(dag, values, ids[1]);
    let third = word_at(dag, values, ids[2]);
    expected(node, width, first, second, third)
}

/// Adds the values of the nodes from a place on.
fn extend(
    dag: &Dag,
    values: &mut Vec<u64>,
    leaves: &[u64; 4],
    from: u32,
) -> Result<(), AllocError> {
    for place in from..dag.len() {
        if let Some(node) = dag.node_at(NodeId(place)) {
            let value = value_of(dag, values, leaves, node);
            values.push(value)?;
        }
    }
    Ok(())
}

/// How many nodes each graph is asked for, and how many graphs there are.
const NODES: u32 = 120;

const GRAPHS: u32 = 100;

#[test]
fn built_nodes_have_the_expected_values(rt: HostRuntime) -> Result<(), Fail> {
    let mut numbers = Numbers { state: 1 };
    let mut replaced = 0u32;
    for _ in 0..GRAPHS {
        let mut dag = begin(rt.alloc())?;
        let mut charge = Charge { added: 0, units: 0 };
        for (index, width) in [8, 8, 32, 64].iter().enumerate() {
            let leaf = Node::Leaf {
                width: *width,
                index: index as u32,
            };
            assert!(rt; dag.fits(leaf), "a leaf of the shape");
            build(&mut dag, leaf, &mut charge)?;
        }
        let leaves = leaves(&mut numbers);
        let mut values = Vec::new(rt.alloc());
        extend(&dag, &mut values, &leaves, 0)?;
        for _ in 0..NODES {
            let count = dag.len();
            let node = drawn(&mut numbers, count);
            if !dag.fits(node) {
                continue;
            }
            let want = value_of(&dag, &values, &leaves, node);
            let id = build(&mut dag, node, &mut charge)?;
            extend(&dag, &mut values, &leaves, count)?;
            assert_eq!(rt; word_at(&dag, &values, id).1, want, "{node:?}");
            if dag.node_at(id) != Some(node) {
                replaced = replaced.wrapping_add(1);
            }
        }
    }
    assert!(rt; replaced > 1000, "rules applied {replaced} times");
    Ok(())
}
