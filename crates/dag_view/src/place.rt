//! How the nodes of a view are placed.

ghost use Rattle.std.specs.Prelude.{◌≡◌, ◌<◌, ◌≤◌, ◌^◌, ℕ, Some, IfOk, length, slice_get};
ghost use Rattle.dag_view.specs.View.{IsTableOf};
ghost use Rattle.dag_view.specs.Made.{IsMade, view_of};
ghost use Rattle.dag_view.specs.Under.{ArePlaced, AreReady, AreWidthsOf, Among, IsBelow, IsPlaced, IsPlacedWhole, IsRising};

use crate::expanded::Expanded;
use crate::retains::Retains;
use crate::under::nodes_under;
use dag::{Dag, Node, NodeId};
use memory::Memory;
use std::alloc::Global;

/// Nodes that are placed, their widths, the graph's nodes that they stand for, the places of two of them, and the number
/// of the shape's leaves.
#[derive(Drop)]
pub struct Placed {
    pub nodes: Vec<Node>,
    pub widths: Vec<u32>,
    pub ids: Vec<u32>,
    pub first: u32,
    pub second: u32,
    pub leaves: u32,
}

/// Places the nodes under a pair.
pub fn place<R: Retains>(
    alloc: Global,
    dag: &Dag,
    table: &R,
    a: u32,
    b: u32,
    expanded: &Expanded,
) -> Result<Placed, Memory>
    requires first { a < length dag.now.nodes }
    requires second { b < length dag.now.nodes }
    requires width { slice_get dag.now.widths a ≡ slice_get dag.now.widths b }
    requires table { IsTableOf dag.now (R.table table.now) }
    ensures { IfOk result (λ p. IsMade dag.now (R.table table.now) expanded.now (view_of p a b)) }
{
    dag.known();
    let ids = nodes_under(alloc, dag, table, a, b, expanded)?;
    let leaves = dag.shape().leaves();
    let widths = widths_of(alloc, dag, &ids)?;
    let nodes = nodes_of(alloc, dag, table, expanded, &ids, &widths, leaves)?;
    let first = place_of(&ids, a) as u32;
    let second = place_of(&ids, b) as u32;
    Ok(Placed {
        nodes,
        widths,
        ids,
        first,
        second,
        leaves,
    })
}

/// The widths of a graph's nodes.
fn widths_of(alloc: Global, dag: &Dag, ids: &[u32]) -> Result<Vec<u32>, Memory>
    requires { (k : ℕ) → Among ids.now k → k < length dag.now.nodes }
    ensures { IfOk result (λ ws. AreWidthsOf dag.now ids.now ws.items) }
{
    let mut widths = Vec::new(alloc);
    for id in ids {
        widths.push(dag.width(NodeId(*id)))?;
    }
    Ok(widths)
}

/// The nodes of a view that stands for these nodes of the graph.
fn nodes_of<R: Retains>(
    alloc: Global,
    dag: &Dag,
    table: &R,
    expanded: &Expanded,
    ids: &[u32],
    widths: &[u32],
    leaves: u32,
) -> Result<Vec<Node>, Memory>
    requires { AreReady dag.now (R.table table.now) expanded.now ids.now widths.now leaves }
    ensures size { IfOk result (λ ns. length ns.items ≡ length ids.now) }
    ensures placed { IfOk result (λ ns. ArePlaced dag.now (R.table table.now) expanded.now ids.now widths.now leaves ns.items) }
{
    let mut nodes = Vec::new(alloc);
    for k in 0..ids.len() {
        nodes.push(node_at(dag, table, expanded, ids, widths, leaves, k))?;
    }
    Ok(nodes)
}

/// The node at a place: an expanded one with the places of its children, or a free leaf.
fn node_at<R: Retains>(
    dag: &Dag,
    table: &R,
    expanded: &Expanded,
    ids: &[u32],
    widths: &[u32],
    leaves: u32,
    k: usize,
) -> Node
    requires ready { AreReady dag.now (R.table table.now) expanded.now ids.now widths.now leaves }
    requires inside { k < length ids.now }
    ensures { IsPlaced dag.now (R.table table.now) expanded.now ids.now widths.now leaves k result }
{
    let id = ids[k];
    if expanded.expands(id) {
        return expanded_node(dag, table, ids, id);
    }
    Node::Leaf {
        width: widths[k],
        index: leaves + k as u32,
    }
}

/// A node of the graph with the places of what retains its children.
fn expanded_node<R: Retains>(dag: &Dag, table: &R, ids: &[u32], id: u32) -> Node
    requires inside { id < length dag.now.nodes }
    requires table { IsTableOf dag.now (R.table table.now) }
    requires rising { IsRising ids.now }
    requires few { length ids.now ≤ 2 ^ 31 }
    requires closed { (k : ℕ) → IsBelow dag.now (R.table table.now) id k → Among ids.now k }
    ensures { IsPlacedWhole dag.now (R.table table.now) ids.now id result }
{
    dag.known();
    let node = dag.node(NodeId(id));
    let [a, b, c] = node.children().ids;
    let children = [
        child_place(table, ids, a),
        child_place(table, ids, b),
        child_place(table, ids, c),
    ];
    node.with_children(&children)
}

/// The place of what retains a child.
fn child_place<R: Retains>(table: &R, ids: &[u32], child: NodeId) -> NodeId
    requires there { child.0 < length (R.table table.now) }
    requires rising { IsRising ids.now }
    requires few { length ids.now ≤ 2 ^ 31 }
    ensures { (r : ℕ) → slice_get (R.table table.now) child.0 ≡ Some r → Among ids.now r → slice_get ids.now result.0 ≡ Some r }
{
    NodeId(place_of(ids, table.retained_by(child.0)) as u32)
}

/// The place of a number among rising ones, where it is one of them.
fn place_of(ids: &[u32], id: u32) -> usize
    requires { IsRising ids.now }
    ensures at { Among ids.now id → slice_get ids.now result ≡ Some id }
    ensures within { result ≤ length ids.now }
{
    let mut low = 0;
    let mut high = ids.len();
    while low < high {
        let middle = low + (high - low) / 2;
        if ids[middle] < id {
            low = middle + 1;
        } else {
            high = middle;
        }
    }
    low
}
