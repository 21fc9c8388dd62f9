//! The nodes within a number of steps below two.

ghost use Rattle.std.specs.Prelude.{◌≡◌, ◌↔◌, ◌⊎◌, ◌<◌, ◌≤◌, ◌+◌, ℕ, Some, IfOk, OnOk, IfSome, length, slice_get};
ghost use Rattle.dag_view.specs.View.{IsTableOf, arity, nth_child};
ghost use Rattle.dag_view.specs.Under.{AddsChildren, Among};
ghost use Rattle.dag_view.specs.Steps.{AddsLevel, AreReached, IsWithin};

use crate::retains::Retains;
use dag::{Dag, Node, NodeId};
use indexmap::IndexSet;
use memory::Memory;
use std::alloc::Global;

/// The nodes whose shortest way down from one of two has fewer than so many steps. Each level follows the one before it
/// in the set, so none is looked at twice.
pub fn nodes_within<R: Retains>(
    alloc: Global,
    dag: &Dag,
    table: &R,
    a: u32,
    b: u32,
    steps: u32,
) -> Result<IndexSet<u32>, Memory>
    requires first { a < length dag.now.nodes }
    requires second { b < length dag.now.nodes }
    requires table { IsTableOf dag.now (R.table table.now) }
    ensures { IfOk result (λ s. (k : ℕ) → Among s.keys k ↔ IsWithin dag.now (R.table table.now) a b steps k) }
{
    dag.known();
    let mut met = IndexSet::new(alloc);
    if steps == 0 {
        return Ok(met);
    }
    meet(&mut met, a)?;
    meet(&mut met, b)?;
    let mut from = 0;
    let mut level = 1;
    while level < steps {
        let upto = met.len();
        if from == upto {
            return Ok(met);
        }
        meet_level(dag, table, &mut met, from, upto)?;
        from = upto;
        level += 1;
    }
    Ok(met)
}

/// Meets what retains the children of the nodes from one place to another.
fn meet_level<R: Retains>(
    dag: &Dag,
    table: &R,
    met: &mut IndexSet<u32>,
    from: usize,
    upto: usize,
) -> Result<(), Memory>
    requires table { IsTableOf dag.now (R.table table.now) }
    requires inside { (k : ℕ) → Among met.old.keys k → k < length dag.now.nodes }
    requires order { from ≤ upto }
    requires within { upto ≤ length met.old.keys }
    ensures { OnOk result (AddsLevel dag.now (R.table table.now) from upto met.old.keys met.new.keys) }
{
    dag.known();
    for k in from..upto {
        let id = met_at(met, k);
        meet_children(table, met, dag.node(NodeId(id)))?;
    }
    Ok(())
}

/// The node that was met as the one of a number.
fn met_at(met: &IndexSet<u32>, k: usize) -> u32
    requires { k < length met.now.keys }
    ensures { slice_get met.now.keys k ≡ Some result }
{
    *met.get_index(k).unwrap()
}

/// Meets what retains the children of a node.
fn meet_children<R: Retains>(table: &R, met: &mut IndexSet<u32>, node: Node) -> Result<(), Memory>
    requires { (i : ℕ) → i < arity node → nth_child node i < length (R.table table.now) }
    ensures adds { OnOk result (AddsChildren (R.table table.now) node (arity node) met.old.keys met.new.keys) }
    ensures kept { OnOk result ((k x : ℕ) → slice_get met.old.keys k ≡ Some x → slice_get met.new.keys k ≡ Some x) }
{
    let children = node.children();
    for i in 0..children.count as usize {
        meet(met, table.retained_by(children.ids[i].0))?;
    }
    Ok(())
}

/// Adds a node to those that were met.
fn meet(met: &mut IndexSet<u32>, id: u32) -> Result<(), Memory>
    ensures among { OnOk result ((k : ℕ) → Among met.new.keys k ↔ (k ≡ id) ⊎ Among met.old.keys k) }
    ensures kept { OnOk result ((k x : ℕ) → slice_get met.old.keys k ≡ Some x → slice_get met.new.keys k ≡ Some x) }
{
    met.insert(id)?;
    Ok(())
}
