//! A view, and whether a graph still has it.

ghost use Rattle.std.specs.Prelude.{◌≡◌, ◌<◌, ◌≤◌, ◌+◌, ℕ, List, IsTrue, true, false, Some, None, IfOk, OnOk, IfErr, length, slice_get, slice_index};
ghost use Rattle.axe_io.specs.Shapes.{leaf_widths};
ghost use Rattle.dag.specs.Graph.{graph_charge};
ghost use Rattle.bit_blaster.specs.Circuit.{IsCircuit, units, widths_of};
ghost use Rattle.dag_view.specs.View.{IsView, IsUnder, IsTableOf, IsWhole, HasFree, Embeds, StandBefore, HasMisfit, HasMisfitAt, HasGraphValues};
ghost use Rattle.dag_view.specs.Steps.{IsCutAt};
ghost use Rattle.dag_view.specs.Under.{IsBySet};

use crate::expanded::Expanded;
use crate::misfit::{Misfit, is_free, same_children, same_kind, same_width};
use crate::place::place;
use crate::retains::Retains;
use crate::steps::nodes_within;
use dag::{Dag, Node, NodeId};
use memory::Memory;
use merge_table::MergeTable;
use std::alloc::Global;
use std::marker::Model;

/// Nodes under a pair of a graph's nodes as a circuit, in rising order of their places in the graph.
#[derive(Drop)]
pub struct View {
    nodes: Vec<Node>,
    widths: Vec<u32>,
    ids: Vec<u32>,
    first: u32,
    second: u32,
    a: NodeId,
    b: NodeId,
    leaves: u32,
}

impl Model for View {
    ghost use Rattle.dag_view.specs.View.{ViewParts, IsView};

    ghost Value = { ViewParts };

    ghost view = { λ v. record { nodes = v.nodes.items; widths = v.widths.items; ids = v.ids.items; first = v.first; second = v.second; a = v.a.0; b = v.b.0; leaves = v.leaves } };

    ghost invariant = { λ v. IsView (record { nodes = v.nodes.items; widths = v.widths.items; ids = v.ids.items; first = v.first; second = v.second; a = v.a.0; b = v.b.0; leaves = v.leaves }) };
}

impl View {
    /// The nodes, whose children are places in this list. They are a circuit.
    pub fn nodes(&self) -> &[Node]
        ensures nodes { result.now ≡ self.now.nodes }
        ensures known { IsView self.now }
        ensures circuit { IsCircuit result.now }
        ensures widths { widths_of result.now ≡ self.now.widths }
    {
        let _widths = &self.widths;
        &self.nodes
    }

    /// The widths of the nodes.
    pub fn widths(&self) -> &[u32]
        ensures { result.now ≡ self.now.widths }
    {
        &self.widths
    }

    /// The places of the two nodes in this list.
    pub fn ends(&self) -> (u32, u32)
        ensures first { result.0 ≡ self.now.first }
        ensures second { result.1 ≡ self.now.second }
    {
        (self.first, self.second)
    }

    /// The two nodes of the graph.
    pub fn pair(&self) -> (NodeId, NodeId)
        ensures first { result.0.0 ≡ self.now.a }
        ensures second { result.1.0 ≡ self.now.b }
    {
        (self.a, self.b)
    }

    /// Whether a node became a free leaf.
    pub fn is_cut(&self) -> bool
        ensures cut { IsTrue result → HasFree self.now }
        ensures whole { result ≡ false → IsWhole self.now }
    {
        for k in 0..self.nodes.len() {
            if self.is_free_at(k) {
                return true;
            }
        }
        false
    }

    /// Whether the node at a place is a free leaf.
    fn is_free_at(&self, k: usize) -> bool
        requires { k < length self.now.nodes }
        ensures free { IsTrue result → HasFree self.now }
        ensures own { result ≡ false → (w i : ℕ) → slice_get self.now.nodes k ≡ Some (Node.Leaf w i) → i < self.now.leaves }
    {
        let (node, _, _) = self.seen_at(k);
        is_free(node, self.leaves())
    }

    /// The number of the shape's leaves.
    pub fn leaves(&self) -> u32
        ensures { result ≡ self.now.leaves }
    {
        self.leaves
    }

    /// Whether a graph and its table have what the view has seen: for a free leaf a node of its width, and for each
    /// other node the same definition, and children that are retained by the same nodes. Then the view's nodes have the
    /// graph's values on each input, the free leaves those of their nodes. A misfit is the first in the view's order,
    /// the definition before the children, and these in their order.
    pub fn embeds(&self, dag: &Dag, table: &MergeTable) -> Result<(), Misfit>
        requires { IsTableOf dag.now table.now }
        ensures embeds { OnOk result (Embeds dag.now table.now self.now) }
        ensures misfit { IfErr result (HasMisfit dag.now table.now self.now) }
        ensures values { OnOk result (HasGraphValues dag.now table.now self.now) }
    {
        dag.known();
        for k in 0..self.nodes.len() {
            if let Err(misfit) = self.stands_at(dag, table, k) {
                return Err(misfit);
            }
        }
        Ok(())
    }

    /// Whether the node at a place stands for its node of a graph, where those before it do.
    fn stands_at(&self, dag: &Dag, table: &MergeTable, k: usize) -> Result<(), Misfit>
        requires table { IsTableOf dag.now table.now }
        requires inside { k < length self.now.nodes }
        requires before { StandBefore dag.now table.now self.now k }
        ensures ok { OnOk result (StandBefore dag.now table.now self.now (k + 1)) }
        ensures err { IfErr result (HasMisfitAt dag.now table.now self.now k) }
    {
        dag.known();
        let (seen, width, id) = self.seen_at(k);
        if is_free(seen, self.leaves()) {
            if let Err(misfit) = same_width(dag, seen, width, id) {
                return Err(misfit);
            }
            return Ok(());
        }
        let now = match same_kind(dag, seen, id) {
            Ok(now) => now,
            Err(misfit) => return Err(misfit),
        };
        if let Err(misfit) = same_children(table, self.seen_ids(), id, seen, now) {
            return Err(misfit);
        }
        Ok(())
    }

    /// The node at a place, its width, and the graph's node that it stands for.
    fn seen_at(&self, k: usize) -> (Node, u32, u32)
        requires { k < length self.now.nodes }
        ensures node { slice_get self.now.nodes k ≡ Some result.0 }
        ensures width { result.1 ≡ slice_index self.now.widths k }
        ensures id { result.2 ≡ slice_index self.now.ids k }
        ensures known { IsView self.now }
    {
        (self.nodes[k], self.widths[k], self.ids[k])
    }

    /// The graph's nodes that the nodes stand for.
    fn seen_ids(&self) -> &[u32]
        ensures { result.now ≡ self.now.ids }
    {
        &self.ids
    }

    /// The view of two nodes of one width by a set: the two and what retains a child of each expanded node that is met,
    /// and no others. Those that are expanded stand with their definitions, each other one is a free leaf.
    pub fn by_set<R: Retains>(
        alloc: Global,
        dag: &Dag,
        table: &R,
        a: NodeId,
        b: NodeId,
        expanded: &Expanded,
    ) -> Result<View, Memory>
        requires first { a.0 < length dag.now.nodes }
        requires second { b.0 < length dag.now.nodes }
        requires width { slice_get dag.now.widths a.0 ≡ slice_get dag.now.widths b.0 }
        requires table { IsTableOf dag.now (R.table table.now) }
        ensures first { IfOk result (λ v. v.a ≡ a.0) }
        ensures second { IfOk result (λ v. v.b ≡ b.0) }
        ensures leaves { IfOk result (λ v. v.leaves ≡ length (leaf_widths dag.now.shape.params)) }
        ensures embeds { IfOk result (Embeds dag.now (R.table table.now)) }
        ensures under { IfOk result IsUnder }
        ensures few { IfOk result (λ v. units v.nodes ≤ graph_charge dag.now) }
        ensures by_set { IfOk result (IsBySet expanded.now) }
    {
        let placed = place(alloc, dag, table, a.0, b.0, expanded)?;
        Ok(View {
            nodes: placed.nodes,
            widths: placed.widths,
            ids: placed.ids,
            first: placed.first,
            second: placed.second,
            a,
            b,
            leaves: placed.leaves,
        })
    }

    /// The view of two nodes of one width with the definitions under them, each child replaced by the node that retains
    /// it. With a number of steps a node whose shortest way down has that many is a free leaf.
    pub fn cone<R: Retains>(
        alloc: Global,
        dag: &Dag,
        table: &R,
        a: NodeId,
        b: NodeId,
        cut: Option<u32>,
    ) -> Result<View, Memory>
        requires first { a.0 < length dag.now.nodes }
        requires second { b.0 < length dag.now.nodes }
        requires width { slice_get dag.now.widths a.0 ≡ slice_get dag.now.widths b.0 }
        requires table { IsTableOf dag.now (R.table table.now) }
        ensures first { IfOk result (λ v. v.a ≡ a.0) }
        ensures second { IfOk result (λ v. v.b ≡ b.0) }
        ensures leaves { IfOk result (λ v. v.leaves ≡ length (leaf_widths dag.now.shape.params)) }
        ensures embeds { IfOk result (Embeds dag.now (R.table table.now)) }
        ensures under { IfOk result IsUnder }
        ensures few { IfOk result (λ v. units v.nodes ≤ graph_charge dag.now) }
        ensures cut { IfOk result (IsCutAt dag.now (R.table table.now) a.0 b.0 cut) }
    {
        let Some(steps) = cut else {
            return View::by_set(alloc, dag, table, a, b, &Expanded::All);
        };
        let set = Expanded::Only(nodes_within(alloc, dag, table, a.0, b.0, steps)?);
        let view = View::by_set(alloc, dag, table, a, b, &set)?;
        Ok(view)
    }
}
