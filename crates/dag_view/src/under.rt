//! The nodes of a view, in the order of their places in the graph.

ghost use Rattle.std.specs.Prelude.{◌≡◌, ◌↔◌, ◌⊎◌, ◌<◌, ◌++◌, ◌∷◌, [], ℕ, Some, IfOk, OnOk, IfSome, IfNone, length, slice_get};
ghost use Rattle.dag_view.specs.View.{IsTableOf, arity, nth_child};
ghost use Rattle.dag_view.specs.Under.{AddsChildren, AreMet, AreUnder, Among};

use crate::expanded::Expanded;
use crate::retains::Retains;
use dag::{Dag, Node, NodeId};
use memory::Memory;
use std::alloc::Global;
use std::collections::BTreeSet;

/// Two nodes, and what retains a child of each expanded one among them, in rising order. They are found from the last
/// one back, since a child stands before its node: so each is taken once, and none beside them is looked at.
pub fn nodes_under<R: Retains>(
    alloc: Global,
    dag: &Dag,
    table: &R,
    a: u32,
    b: u32,
    expanded: &Expanded,
) -> Result<Vec<u32>, Memory>
    requires first { a < length dag.now.nodes }
    requires second { b < length dag.now.nodes }
    requires table { IsTableOf dag.now (R.table table.now) }
    ensures { IfOk result (λ ids. AreUnder dag.now (R.table table.now) expanded.now a b ids.items) }
{
    dag.known();
    let mut waiting = BTreeSet::new(alloc);
    wait(&mut waiting, a)?;
    wait(&mut waiting, b)?;
    let mut taken = Vec::new(alloc);
    let mut bound = dag.len();
    while let Some(id) = take_last(&mut waiting) {
        bound = id;
        taken.push(id)?;
        if expanded.expands(id) {
            wait_for_children(table, &mut waiting, dag.node(NodeId(id)))?;
        }
    }
    taken.reverse();
    Ok(taken)
}

/// Adds a node to those that wait.
fn wait(waiting: &mut BTreeSet<u32>, id: u32) -> Result<(), Memory>
    ensures { OnOk result ((k : ℕ) → Among waiting.new.keys k ↔ (k ≡ id) ⊎ Among waiting.old.keys k) }
{
    waiting.insert(id)?;
    Ok(())
}

/// Takes the last of the nodes that wait.
fn take_last(waiting: &mut BTreeSet<u32>) -> Option<u32>
    ensures taken { IfSome result (λ id. waiting.old.keys ≡ waiting.new.keys ++ id ∷ []) }
    ensures last { IfSome result (λ id. (k : ℕ) → Among waiting.new.keys k → k < id) }
    ensures none { IfNone result (waiting.old.keys ≡ []) }
{
    waiting.pop_last()
}

/// Has what retains the children of a node wait.
fn wait_for_children<R: Retains>(
    table: &R,
    waiting: &mut BTreeSet<u32>,
    node: Node,
) -> Result<(), Memory>
    requires { (i : ℕ) → i < arity node → nth_child node i < length (R.table table.now) }
    ensures { OnOk result (AddsChildren (R.table table.now) node (arity node) waiting.old.keys waiting.new.keys) }
{
    let children = node.children();
    for i in 0..children.count as usize {
        wait(waiting, table.retained_by(children.ids[i].0))?;
    }
    Ok(())
}
