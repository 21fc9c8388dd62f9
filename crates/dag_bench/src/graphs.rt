ghost use Rattle.std.specs.Prelude.{IfOk};
ghost use Rattle.axe_io.specs.Inputs.{IsInput};
ghost use Rattle.dag.specs.Graph.{leaves_of};

use axe_io::{Input, Kind, OutPlace, Param, Shape};
use dag::{Dag, DagError, Node, NodeId};
use std::alloc::{AllocError, Global};

/// How many nodes a graph may hold.
const LIMIT: u32 = 1 << 31;

/// A graph over one long.
fn begin(alloc: Global) -> Result<Dag, AllocError> {
    let param = Param {
        kind: Kind::Long,
        len: None,
    };
    let params = Vec::from_slice(alloc, &[param])?;
    let shape = Shape::of(params, OutPlace::Returned, Kind::Long, false);
    Dag::begin(alloc, LIMIT, &shape).map_err(out_of_memory)
}

fn out_of_memory(_error: DagError) -> AllocError {
    AllocError
}

/// The constant with a number, spread over 64 bits.
fn constant(number: u32) -> Node {
    Node::Const {
        width: 64,
        value: u64::from(number).wrapping_mul(0x9e37_79b9_7f4a_7c15),
    }
}

/// Adds a node where it fits; the answer is its place.
fn put(dag: &mut Dag, node: Node) -> Result<u32, AllocError> {
    if dag.fits(node) {
        let id = dag.add(node).map_err(out_of_memory)?;
        Ok(id.0)
    } else {
        Ok(0)
    }
}

/// Makes so many `add` calls: each even one for a new node, each odd one for a node that is there. The answer is the
/// sum of the places, modulo 2^32.
pub fn added(alloc: Global, count: u32) -> Result<u32, AllocError> {
    let mut dag = begin(alloc)?;
    let mut sum = 0u32;
    for i in 0..count {
        let number = if i % 2 == 0 { i / 2 } else { i / 4 };
        sum = sum.wrapping_add(put(&mut dag, constant(number))?);
    }
    Ok(sum)
}

/// The node with a number over the nodes before it.
fn operation(number: u32, last: NodeId) -> Node {
    let before = NodeId(last.0 / 2 + 1);
    match number % 4 {
        0 => Node::Plus(last, before),
        1 => Node::Xor(last, before),
        2 => Node::And(last, before),
        _ => Node::Not(last),
    }
}

/// A graph of so many operations on words of 64 bits over one leaf.
pub fn values_graph(alloc: Global, nodes: u32) -> Result<Dag, AllocError> {
    let mut dag = begin(alloc)?;
    let leaf = Node::Leaf {
        width: 64,
        index: 0,
    };
    let mut last = NodeId(put(&mut dag, leaf)?);
    for number in 0..nodes {
        last = NodeId(put(&mut dag, operation(number, last))?);
    }
    Ok(dag)
}

/// Finds the values on so many inputs; the answer is the sum of the last nodes' values, modulo 2^64.
pub fn summed(alloc: Global, dag: &Dag, inputs: u32) -> Result<u64, AllocError> {
    let mut input = first(alloc, dag)?;
    let mut values = vec![in alloc; 0; dag.len() as usize]?;
    let mut sum = 0u64;
    for _ in 0..inputs {
        dag.value_at(&input, &mut values);
        sum = sum.wrapping_add(values.last().copied().unwrap_or(0));
        input.next(dag.shape());
    }
    Ok(sum)
}

/// The input whose leaf is 0.
fn first(alloc: Global, dag: &Dag) -> Result<Input, AllocError>
    ensures { IfOk result (λ input. IsInput (leaves_of dag.now) input) }
{
    match Input::first(alloc, dag.shape()) {
        Ok(input) => Ok(input),
        Err(_) => Err(AllocError),
    }
}
