//! The limits of a graph, the children of each kind, and node values at the edges of widths, worked out by hand.

ghost use Rattle.std.specs.Prelude.{ℕ, ◌≤◌, ◌^◌};

use axe_io::{Input, Kind, OutPlace, Param, Shape};
use dag::{Dag, DagError, Node, NodeId};
use std::alloc::{AllocError, Global};
use std::process::Abort;
use std::test::Fail;

/// The shape of one byte.
fn byte(alloc: Global) -> Result<Shape, AllocError> {
    let param = Param {
        kind: Kind::Byte,
        len: None,
    };
    let params = Vec::from_slice(alloc, &[param])?;
    Ok(Shape::of(params, OutPlace::Returned, Kind::Int, false))
}

/// A graph over one byte.
fn begin(alloc: Global, limit: u32) -> Result<Dag, DagError>
    requires low { 1 ≤ limit }
    requires high { limit ≤ 2 ^ 31 }
{
    let shape = byte(alloc)?;
    Dag::begin(alloc, limit, &shape)
}

/// Adds a node that the test knows to fit.
fn put(rt: &impl Abort, dag: &mut Dag, node: Node) -> Result<NodeId, Fail> {
    assert!(rt; dag.fits(node), "a node that fits");
    let id = dag.add(node)?;
    Ok(id)
}

/// A node's value where each leaf is 0.
fn value(alloc: Global, dag: &Dag, id: NodeId) -> Result<u64, Fail> {
    let input = Input::first(alloc, dag.shape())?;
    let mut values = vec![in alloc; 0; dag.len() as usize]?;
    dag.value_at(&input, &mut values);
    Ok(values.get(id.0 as usize).copied().unwrap_or(0))
}

/// Whether adding a node is refused since the graph is full at this limit.
fn is_full(rt: &impl Abort, dag: &mut Dag, node: Node, at: u32) -> bool {
    assert!(rt; dag.fits(node), "a node that fits");
    match dag.add(node) {
        Err(DagError::Full { limit }) => limit == at,
        _ => false,
    }
}

#[test]
fn graph_limits(rt: HostRuntime) -> Result<(), Fail> {
    assert!(rt; matches!(begin(rt.alloc(), 1), Err(DagError::Full { limit: 1 })));
    let mut dag = begin(rt.alloc(), 3)?;
    let leaf = Node::Leaf { width: 8, index: 0 };
    assert_eq!(rt; put(&rt, &mut dag, leaf)?, NodeId(2));
    assert_eq!(rt; put(&rt, &mut dag, leaf)?, NodeId(2));
    let five = Node::Const { width: 8, value: 5 };
    assert!(rt; is_full(&rt, &mut dag, five, 3));
    assert_eq!(rt; dag.len(), 3);
    assert_eq!(rt; dag.node_at(NodeId(2)), Some(leaf));
    assert_eq!(rt; dag.width_at(NodeId(2)), Some(8));
    Ok(())
}

#[test]
fn nodes_that_do_not_fit(rt: HostRuntime) -> Result<(), Fail> {
    let mut dag = begin(rt.alloc(), 10)?;
    let a = put(&rt, &mut dag, Node::Leaf { width: 8, index: 0 })?;
    let bit = NodeId(1);
    let nodes = [
        Node::Leaf {
            width: 16,
            index: 0,
        },
        Node::Leaf { width: 8, index: 1 },
        Node::Const {
            width: 8,
            value: 256,
        },
        Node::Const { width: 0, value: 0 },
        Node::Const {
            width: 65,
            value: 0,
        },
        Node::Plus(a, bit),
        Node::Not(NodeId(3)),
        Node::Ite(a, a, a),
        Node::Ite(bit, a, bit),
        Node::Slice { high: 8, low: 0, a },
        Node::Slice { high: 3, low: 4, a },
        Node::Sext { width: 7, a },
        Node::Sext { width: 65, a },
        Node::Shl(a, NodeId(7)),
    ];
    for node in nodes {
        assert_eq!(rt; dag.fits(node), false, "{node:?}");
    }
    Ok(())
}

#[test]
fn children_by_kind(rt: HostRuntime) {
    let (a, b, c) = (NodeId(4), NodeId(5), NodeId(6));
    let nodes = [
        (Node::Leaf { width: 8, index: 3 }, 0, 0),
        (Node::Const { width: 8, value: 3 }, 1, 0),
        (Node::Not(a), 2, 1),
        (Node::And(a, b), 3, 2),
        (Node::Or(a, b), 4, 2),
        (Node::Xor(a, b), 5, 2),
        (Node::Neg(a), 6, 1),
        (Node::Plus(a, b), 7, 2),
        (Node::Times(a, b), 8, 2),
        (Node::Eq(a, b), 9, 2),
        (Node::Ult(a, b), 10, 2),
        (Node::Slt(a, b), 11, 2),
        (Node::Ite(a, b, c), 12, 3),
        (Node::Slice { high: 7, low: 1, a }, 13, 1),
        (Node::Cat(a, b), 14, 2),
        (Node::Sext { width: 32, a }, 15, 1),
        (Node::Shl(a, b), 16, 2),
        (Node::Shr(a, b), 17, 2),
        (Node::Udiv(a, b), 18, 2),
        (Node::Urem(a, b), 19, 2),
    ];
    for (node, number, count) in nodes {
        assert_eq!(rt; node.kind_number(), number);
        assert_eq!(rt; node.children().count, count, "children of kind {number}");
        assert_eq!(rt;
            node.children().ids[0],
            if count > 0 { a } else { NodeId(0) }
        );
        assert_eq!(rt;
            node.children().ids[1],
            if count > 1 { b } else { NodeId(0) }
        );
        assert_eq!(rt;
            node.children().ids[2],
            if count > 2 { c } else { NodeId(0) }
        );
    }
    assert_eq!(rt;
        Node::Ite(c, c, a).with_children(&[a, b, c]),
        Node::Ite(a, b, c)
    );
    assert_eq!(rt;
        Node::Slice {
            high: 7,
            low: 1,
            a: c
        }
        .with_children(&[a]),
        Node::Slice { high: 7, low: 1, a }
    );
    assert_eq!(rt; Node::Shr(c, a).with_children(&[a, b]), Node::Shr(a, b));
    assert_eq!(rt; Node::Urem(c, a).with_children(&[a, b]), Node::Urem(a, b));
    assert!(rt;
        Node::Urem(c, a).is_like(Node::Urem(a, b)) && !Node::Urem(a, b).is_like(Node::Udiv(a, b))
    );
}

/// The node of a kind of one or two children.
fn node_of(kind: u32, a: NodeId, b: NodeId) -> Node {
    match kind {
        2 => Node::Not(a),
        3 => Node::And(a, b),
        4 => Node::Or(a, b),
        5 => Node::Xor(a, b),
        6 => Node::Neg(a),
        7 => Node::Plus(a, b),
        8 => Node::Times(a, b),
        9 => Node::Eq(a, b),
        10 => Node::Ult(a, b),
        11 => Node::Slt(a, b),
        16 => Node::Shl(a, b),
        _ => Node::Shr(a, b),
    }
}

/// Two words of a width, and the values of nodes over them, for each of `KINDS`.
struct Row {
    width: u32,
    x: u64,
    y: u64,
    values: [u64; 12],
}

/// The numbers of the kinds from Not to Slt, and of the shifts.
static KINDS: [u32; 12] = [2, 3, 4, 5, 6, 7, 8, 9, 10, 11, 16, 17];

const TOP: u64 = 0x8000_0000_0000_0000;

const HALF: u64 = 0x4000_0000_0000_0000;

const MAX: u64 = 0xffff_ffff_ffff_ffff;

static ROWS: [Row; 11] = [
    Row {
        width: 1,
        x: 1,
        y: 1,
        values: [0, 1, 1, 0, 1, 0, 1, 1, 0, 0, 0, 0],
    },
    Row {
        width: 1,
        x: 1,
        y: 0,
        values: [0, 0, 1, 1, 1, 1, 0, 0, 0, 1, 1, 1],
    },
    Row {
        width: 7,
        x: 0x55,
        y: 0x2a,
        values: [0x2a, 0, 0x7f, 0x7f, 0x2b, 0x7f, 0x72, 0, 0, 1, 0, 0],
    },
    Row {
        width: 7,
        x: 0x55,
        y: 3,
        values: [0x2a, 1, 0x57, 0x56, 0x2b, 0x58, 0x7f, 0, 0, 1, 0x28, 0xa],
    },
    Row {
        width: 8,
        x: 0x80,
        y: 0xff,
        values: [0x7f, 0x80, 0xff, 0x7f, 0x80, 0x7f, 0x80, 0, 1, 1, 0, 0],
    },
    Row {
        width: 8,
        x: 0x81,
        y: 7,
        values: [0x7e, 1, 0x87, 0x86, 0x7f, 0x88, 0x87, 0, 0, 1, 0x80, 1],
    },
    Row {
        width: 32,
        x: 0x8000_0000,
        y: 0xffff_ffff,
        values: [
            0x7fff_ffff,
            0x8000_0000,
            0xffff_ffff,
            0x7fff_ffff,
            0x8000_0000,
            0x7fff_ffff,
            0x8000_0000,
            0,
            1,
            1,
            0,
            0,
        ],
    },
    Row {
        width: 32,
        x: 0xffff_ffff,
        y: 31,
        values: [
            0,
            31,
            0xffff_ffff,
            0xffff_ffe0,
            1,
            30,
            0xffff_ffe1,
            0,
            0,
            1,
            0x8000_0000,
            1,
        ],
    },
    Row {
        width: 63,
        x: HALF,
        y: 0x7fff_ffff_ffff_ffff,
        values: [
            0x3fff_ffff_ffff_ffff,
            HALF,
            0x7fff_ffff_ffff_ffff,
            0x3fff_ffff_ffff_ffff,
            HALF,
            0x3fff_ffff_ffff_ffff,
            HALF,
            0,
            1,
            1,
            0,
            0,
        ],
    },
    Row {
        width: 64,
        x: TOP,
        y: MAX,
        values: [
            0x7fff_ffff_ffff_ffff,
            TOP,
            MAX,
            0x7fff_ffff_ffff_ffff,
            TOP,
            0x7fff_ffff_ffff_ffff,
            TOP,
            0,
            1,
            1,
            0,
            0,
        ],
    },
    Row {
        width: 64,
        x: MAX,
        y: 63,
        values: [
            0,
            63,
            MAX,
            0xffff_ffff_ffff_ffc0,
            1,
            62,
            0xffff_ffff_ffff_ffc1,
            0,
            0,
            1,
            TOP,
            1,
        ],
    },
];

/// Compares the values of a row.
fn compare(rt: &impl Abort, alloc: Global, dag: &mut Dag, row: &Row) -> Result<(), Fail> {
    let width = row.width;
    let a = put(
        rt,
        dag,
        Node::Const {
            width,
            value: row.x,
        },
    )?;
    let b = put(
        rt,
        dag,
        Node::Const {
            width,
            value: row.y,
        },
    )?;
    for (kind, want) in KINDS.iter().zip(row.values.iter()) {
        let id = put(rt, dag, node_of(*kind, a, b))?;
        let got = value(alloc, dag, id)?;
        assert_eq!(rt; got, *want, "kind {kind} at width {width}");
    }
    Ok(())
}

#[test]
fn values_by_kind(rt: HostRuntime) -> Result<(), Fail> {
    let mut dag = begin(rt.alloc(), 1000)?;
    for row in &ROWS {
        compare(&rt, rt.alloc(), &mut dag, row)?;
    }
    Ok(())
}

#[test]
fn values_of_other_kinds(rt: HostRuntime) -> Result<(), Fail> {
    let mut dag = begin(rt.alloc(), 100)?;
    let leaf = put(&rt, &mut dag, Node::Leaf { width: 8, index: 0 })?;
    let a = put(
        &rt,
        &mut dag,
        Node::Const {
            width: 8,
            value: 0x9c,
        },
    )?;
    let b = put(
        &rt,
        &mut dag,
        Node::Const {
            width: 8,
            value: 0x35,
        },
    )?;
    let cases = [
        (Node::Ite(NodeId(1), a, b), 0x9c),
        (Node::Ite(NodeId(0), a, b), 0x35),
        (Node::Slice { high: 7, low: 4, a }, 9),
        (Node::Slice { high: 2, low: 2, a }, 1),
        (Node::Cat(a, b), 0x9c35),
        (Node::Cat(NodeId(1), a), 0x19c),
        (Node::Sext { width: 64, a }, 0xffff_ffff_ffff_ff9c),
        (Node::Sext { width: 9, a: b }, 0x35),
        (Node::Sext { width: 8, a }, 0x9c),
        (Node::Shl(a, NodeId(1)), 0x38),
        (Node::Shr(a, NodeId(1)), 0x4e),
        (Node::Udiv(a, b), 2),
        (Node::Urem(a, b), 0x32),
        (Node::Udiv(a, leaf), 0),
        (Node::Urem(a, leaf), 0x9c),
        (Node::Not(leaf), 0xff),
    ];
    for (node, want) in cases {
        let id = put(&rt, &mut dag, node)?;
        assert_eq!(rt; value(rt.alloc(), &dag, id)?, want, "{node:?}");
    }
    Ok(())
}

/// The value of node 2 on the second input.
fn second_value(alloc: Global, dag: &Dag) -> Result<u64, Fail> {
    let mut input = Input::first(alloc, dag.shape())?;
    input.next(dag.shape());
    let mut values = vec![in alloc; 0; dag.len() as usize]?;
    dag.value_at(&input, &mut values);
    Ok(values.get(2).copied().unwrap_or(0))
}

#[test]
fn values_of_leaves(rt: HostRuntime) -> Result<(), Fail> {
    let mut dag = begin(rt.alloc(), 100)?;
    put(&rt, &mut dag, Node::Leaf { width: 8, index: 0 })?;
    assert_eq!(rt; second_value(rt.alloc(), &dag)?, 1);
    Ok(())
}

#[test]
fn charges_by_kind(rt: HostRuntime) -> Result<(), Fail> {
    let mut dag = begin(rt.alloc(), 100)?;
    let leaf = put(&rt, &mut dag, Node::Leaf { width: 8, index: 0 })?;
    let long = put(&rt, &mut dag, Node::Sext { width: 64, a: leaf })?;
    let cases = [
        (Node::Leaf { width: 8, index: 0 }, 32),
        (Node::Times(leaf, leaf), 256),
        (Node::Shl(leaf, long), 1024),
        (Node::Sext { width: 64, a: leaf }, 256),
        (
            Node::Slice {
                high: 0,
                low: 0,
                a: long,
            },
            256,
        ),
        (Node::Eq(leaf, leaf), 32),
    ];
    for (node, want) in cases {
        assert!(rt; dag.fits(node));
        assert_eq!(rt; dag.charge_of(node), want, "{node:?}");
    }
    Ok(())
}
