//! Building small nodes: what is answered, added and counted.

ghost use Rattle.std.specs.Prelude.{ℕ, ◌≤◌, ◌^◌};

use axe_io::{Kind, OutPlace, Param, Shape};
use dag::{Dag, DagError, Node, NodeId};
use rewriter::{Charge, build};
use std::alloc::{AllocError, Global};
use std::process::Abort;
use std::test::Fail;

fn byte(alloc: Global) -> Result<Shape, AllocError> {
    let param = Param {
        kind: Kind::Byte,
        len: None,
    };
    let params = Vec::from_slice(alloc, &[param])?;
    Ok(Shape::of(params, OutPlace::Returned, Kind::Int, false))
}

/// A graph over one byte.
fn begin(alloc: Global, limit: u32) -> Result<Dag, DagError>
    requires low { 1 ≤ limit }
    requires high { limit ≤ 2 ^ 31 }
{
    let shape = byte(alloc)?;
    Dag::begin(alloc, limit, &shape)
}

/// Builds a node that the test knows to fit.
fn built(
    rt: &impl Abort,
    dag: &mut Dag,
    node: Node,
    charge: &mut Charge,
) -> Result<NodeId, DagError> {
    assert!(rt; dag.fits(node), "a node that fits");
    build(dag, node, charge)
}

#[test]
fn graph_limits_of_built_nodes(rt: HostRuntime) -> Result<(), Fail> {
    let mut dag = begin(rt.alloc(), 100)?;
    let mut charge = Charge { added: 0, units: 0 };
    let x = built(
        &rt,
        &mut dag,
        Node::Leaf { width: 8, index: 0 },
        &mut charge,
    )?;
    let zero = built(&rt, &mut dag, Node::Xor(x, x), &mut charge)?;
    assert_eq!(rt; dag.node_at(zero), Some(Node::Const { width: 8, value: 0 }));
    assert_eq!(rt; built(&rt, &mut dag, Node::Plus(x, zero), &mut charge)?, x);
    assert_eq!(rt; charge.added, 2);
    assert_eq!(rt; charge.units, 64);
    assert_eq!(rt; dag.len(), 4);
    Ok(())
}

#[test]
fn full_graph_takes_no_more(rt: HostRuntime) -> Result<(), Fail> {
    let mut dag = begin(rt.alloc(), 3)?;
    let mut charge = Charge { added: 0, units: 0 };
    let x = built(
        &rt,
        &mut dag,
        Node::Leaf { width: 8, index: 0 },
        &mut charge,
    )?;
    let full = built(&rt, &mut dag, Node::Not(x), &mut charge);
    assert!(rt; matches!(full, Err(DagError::Full { limit: 3 })));
    assert_eq!(rt; dag.len(), 3);
    assert_eq!(rt; charge.added, 1);
    Ok(())
}

#[test]
fn rules_follow_one_another(rt: HostRuntime) -> Result<(), Fail> {
    let mut dag = begin(rt.alloc(), 100)?;
    let mut charge = Charge { added: 0, units: 0 };
    let x = built(
        &rt,
        &mut dag,
        Node::Leaf { width: 8, index: 0 },
        &mut charge,
    )?;
    let ones = built(
        &rt,
        &mut dag,
        Node::Const {
            width: 8,
            value: 255,
        },
        &mut charge,
    )?;
    let not_x = built(&rt, &mut dag, Node::Xor(ones, x), &mut charge)?;
    assert_eq!(rt; dag.node_at(not_x), Some(Node::Not(x)));
    assert_eq!(rt;
        built(&rt, &mut dag, Node::Xor(not_x, ones), &mut charge)?,
        x
    );
    assert_eq!(rt; charge.added, 3);
    Ok(())
}
