//! What a graph no longer has as a view has seen it.

ghost use Rattle.std.specs.Prelude.{◌≡◌, ◌<◌, ◌≤◌, ℕ, Some, IfOk, OnOk, IfErr, IsTrue, false, length, slice_get, slice_index};
ghost use Rattle.dag.specs.declared.node.Node.TheVariants.{Leaf as a_leaf};
ghost use Rattle.dag_view.specs.View.{HasKind, HasChildren, IsOtherChild, arity, nth_child};

use dag::{Dag, Node, NodeId};
use merge_table::MergeTable;

/// A node that a graph no longer has as a view has seen it.
#[derive(Clone, Copy, Debug)]
pub enum Misfit {
    /// The child at position `child` of the graph's node `node`: `seen` retains the child that was seen, and `now`
    /// the one that the graph has.
    Child {
        node: u32,
        child: u32,
        seen: u32,
        now: u32,
    },
    /// The graph's node `node` has another definition without regard to children than was seen, or, where it was a
    /// free leaf, another width; None where there is no such node.
    Definition {
        node: u32,
        seen: Node,
        now: Option<Node>,
    },
}

/// Whether a node of a view over so many leaves of the shape is a free leaf.
pub fn is_free(node: Node, leaves: u32) -> bool
    ensures free { IsTrue result → (w : ℕ) × (i : ℕ) × (node ≡ a_leaf w i) × (leaves ≤ i) }
    ensures own { result ≡ false → (w i : ℕ) → node ≡ a_leaf w i → i < leaves }
{
    if let Node::Leaf { index, .. } = node {
        index >= leaves
    } else {
        false
    }
}

/// Whether a graph's node has the width of a free leaf.
pub fn same_width(dag: &Dag, seen: Node, width: u32, id: u32) -> Result<(), Misfit>
    ensures ok { OnOk result (slice_get dag.now.widths id ≡ Some width) }
    ensures err { IfErr result (λ e. (e ≡ Misfit.Definition id seen (slice_get dag.now.nodes id)) × (slice_get dag.now.widths id ≡ Some width → ⊥)) }
{
    if dag.width_at(NodeId(id)) == Some(width) {
        return Ok(());
    }
    Err(Misfit::Definition {
        node: id,
        seen,
        now: dag.node_at(NodeId(id)),
    })
}

/// The node of a graph at a place, where it has this definition without regard to children.
pub fn same_kind(dag: &Dag, seen: Node, id: u32) -> Result<Node, Misfit>
    ensures ok { IfOk result (HasKind dag.now seen id) }
    ensures err { IfErr result (λ e. (e ≡ Misfit.Definition id seen (slice_get dag.now.nodes id)) × ((n : _) → HasKind dag.now seen id n → ⊥)) }
{
    let found = dag.node_at(NodeId(id));
    let Some(now) = found else {
        return Err(Misfit::Definition {
            node: id,
            seen,
            now: found,
        });
    };
    if !now.is_like(seen) {
        return Err(Misfit::Definition {
            node: id,
            seen,
            now: found,
        });
    }
    Ok(now)
}

/// Whether the children that were seen, which are places of `ids`, and those of a graph's node are retained by the
/// same nodes.
pub fn same_children(
    table: &MergeTable,
    ids: &[u32],
    id: u32,
    seen: Node,
    now: Node,
) -> Result<(), Misfit>
    requires arity { arity now ≡ arity seen }
    requires places { (i : ℕ) → i < arity seen → nth_child seen i < length ids.now }
    requires seen { (i : ℕ) → i < arity seen → slice_index ids.now (nth_child seen i) < length table.now }
    requires now { (i : ℕ) → i < arity seen → nth_child now i < length table.now }
    ensures ok { OnOk result (HasChildren table.now ids.now seen now) }
    ensures err { IfErr result (IsOtherChild table.now ids.now id seen now) }
{
    let old = seen.children();
    let new = now.children();
    for i in 0..old.count as usize {
        let before = table.retained(ids[old.ids[i].0 as usize]);
        let after = table.retained(new.ids[i].0);
        if before != after {
            return Err(Misfit::Child {
                node: id,
                child: i as u32,
                seen: before,
                now: after,
            });
        }
    }
    Ok(())
}
