ghost use Rattle.std.specs.Prelude.{◌≡◌, length, IfOk};
ghost use Rattle.std.specs.List.{range_with_len};
ghost use Rattle.dag_view.specs.View.{Embeds};

use crate::builder::Fault;
use dag::{Dag, NodeId};
use dag_view::{Apart, View};
use std::alloc::Global;

/// The view of two nodes, where each node retains itself.
pub fn view(alloc: Global, dag: &Dag, a: NodeId, b: NodeId) -> Result<View, Fault>
    ensures first { IfOk result (λ v. v.a ≡ a.0) }
    ensures second { IfOk result (λ v. v.b ≡ b.0) }
    ensures embeds { IfOk result (Embeds dag.now (range_with_len 0 (length dag.now.nodes))) }
{
    if a.0 >= dag.len() || b.0 >= dag.len() || dag.width(a) != dag.width(b) {
        return Err(Fault::Unfit);
    }
    let apart = Apart::of(dag);
    let view = View::cone(alloc, dag, &apart, a, b, None)?;
    Ok(view)
}

/// The view of one node.
pub fn alone(alloc: Global, dag: &Dag, id: NodeId) -> Result<View, Fault>
    ensures first { IfOk result (λ v. v.a ≡ id.0) }
    ensures second { IfOk result (λ v. v.b ≡ id.0) }
    ensures embeds { IfOk result (Embeds dag.now (range_with_len 0 (length dag.now.nodes))) }
{
    view(alloc, dag, id, id)
}
