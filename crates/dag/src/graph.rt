//! The graph.

ghost use Rattle.std.specs.Prelude.{◌≡◌, ℕ, ◌+◌, ◌^◌, ◌↔◌, ◌<◌, ◌≤◌, IsTrue, IsSome, IsOk, Some, Err, IfSome, IfOk, OnOk, OnErr, IfErr, MatchOption, List, [], ◌∷◌, slice_index, length, take, slice_get, vec_len, vec_capacity};
ghost use Rattle.std.specs.List.{Contains};
ghost use Rattle.axe_io.specs.Shapes.{leaf_widths};
ghost use Rattle.axe_io.specs.Inputs.{IsInput};
ghost use Rattle.dag.specs.Node.{IsWord, node_width, node_value as node_value_of, form, width_by as width_by_of, word_at};
ghost use Rattle.dag.specs.Graph.{Graph, IsGraph, HasValues, AreValues, Makes, Adds, AddFails, Costs, fits_width, leaves_of, node_values, first_graph, BeginFails, NoRepeats, Inserts, charge_in, HasWidth};
ghost use Rattle.dag.specs.declared.node.Node.TheVariants.{Const};

use crate::charge::kind_charge;
use crate::node::{Node, NodeId};
use crate::value::node_value;
use crate::width::width_by;
use axe_io::{Input, Shape};
use indexmap::IndexSet;
use std::alloc::{AllocError, AllocFailed, Global};
use std::marker::Model;
use thiserror::Error;

/// A graph of word operations over the leaves of a shape. It holds each node once; places are counted from 0 in the
/// order of adding, and a node's children stand before it. Node 0 is the constant 0 of width 1, and node 1 the 1.
#[derive(Drop)]
pub struct Dag {
    nodes: IndexSet<Node>,
    widths: Vec<u32>,
    shape: Shape,
    limit: u32,
}

impl Model for Dag {
    ghost use Rattle.dag.specs.Graph.{Graph, IsGraph};

    ghost Value = { Graph };

    ghost view = { λ d. record { nodes = d.nodes.keys; widths = d.widths.items; shape = d.shape; limit = d.limit } };

    ghost invariant = { λ d. IsGraph (record { nodes = d.nodes.keys; widths = d.widths.items; shape = d.shape; limit = d.limit }) };
}

/// Why a graph takes no further node.
#[derive(Debug, Drop, Error)]
pub enum DagError {
    /// The node is new, and the graph holds as many nodes as it may.
    #[error("the graph holds its {limit} nodes")]
    Full { limit: u32 },
    /// Memory is wanting.
    #[error("out of memory")]
    Memory,
}

impl Dag {
    /// The graph of node 0, the constant 0 of width 1, and node 1, the 1, for at most `limit` nodes over a shape.
    /// Full exactly where the limit is below 2.
    pub fn begin(alloc: Global, limit: u32, shape: &Shape) -> Result<Dag, DagError>
        requires low { 1 ≤ limit }
        requires high { limit ≤ 2 ^ 31 }
        ensures made { IfOk result (λ g. g ≡ first_graph limit shape.now) }
        ensures full { (result ≡ Err (DagError.Full limit)) ↔ (limit < 2) }
        ensures cause { IfErr result (BeginFails limit) }
    {
        if limit < 2 {
            return Err(DagError::Full { limit });
        }
        let nodes = first_nodes(alloc)?;
        let widths = Vec::from_slice(alloc, &[1, 1])?;
        let shape = copy_of(alloc, shape)?;
        Ok(Dag {
            nodes,
            widths,
            shape,
            limit,
        })
    }

    /// Hands out what holds of each graph: its nodes fit and don't repeat, each has a width from 1 to 64, and each
    /// input has values, which are those from front to back.
    #[tactic(auto, using(crate::proofs::Values::has_values, crate::proofs::Growing::fits_at, crate::proofs::Growing::place_inside))]
    pub fn known(&self)
        ensures graph { IsGraph self.now }
        ensures values { HasValues self.now }
        ensures fits { (k : ℕ) (n : _) → slice_get self.now.nodes k ≡ Some n → fits_width self.now n ≡ slice_get self.now.widths k }
        ensures inside { (k w : ℕ) → HasWidth self.now.widths k w → k < length self.now.nodes }
    {
        let _nodes = &self.nodes;
    }

    /// The number of nodes.
    pub fn len(&self) -> u32
        ensures { result ≡ length self.now.nodes }
    {
        self.widths.len() as u32
    }

    /// The node at a place.
    pub fn node(&self, id: NodeId) -> Node
        requires { id.0 < length self.now.nodes }
        ensures { slice_get self.now.nodes id.0 ≡ Some result }
    {
        let _widths = &self.widths;
        *self.nodes.get_index(id.0 as usize).unwrap()
    }

    /// The width of the node at a place, from 1 to 64.
    pub fn width(&self, id: NodeId) -> u32
        requires { id.0 < length self.now.nodes }
        ensures is { slice_get self.now.widths id.0 ≡ Some result }
        ensures wide { (1 ≤ result) × (result ≤ 64) }
    {
        self.widths[id.0 as usize]
    }

    /// The node at a place, or None from the last on.
    pub fn node_at(&self, id: NodeId) -> Option<Node>
        ensures { result ≡ slice_get self.now.nodes id.0 }
    {
        self.nodes.get_index(id.0 as usize).copied()
    }

    /// The width of the node at a place, or None from the last on.
    pub fn width_at(&self, id: NodeId) -> Option<u32>
        ensures is { result ≡ slice_get self.now.widths id.0 }
        ensures wide { IfSome result (λ w. (1 ≤ w) × (w ≤ 64)) }
    {
        self.widths.get(id.0 as usize).copied()
    }

    /// The widths of the nodes in their order, each from 1 to 64.
    pub fn widths(&self) -> &[u32]
        ensures { result.now ≡ self.now.widths }
    {
        &self.widths
    }

    /// The shape whose leaves the graph reads.
    pub fn shape(&self) -> &Shape
        ensures { result.now ≡ self.now.shape }
    {
        &self.shape
    }

    /// The width that a node has over this graph, from 1 to 64, or None where it doesn't fit.
    pub fn width_of(&self, node: Node) -> Option<u32>
        ensures is { result ≡ fits_width self.now node }
        ensures wide { IfSome result (λ w. (1 ≤ w) × (w ≤ 64)) }
    {
        let outline = node.outline();
        let [a, b, c] = outline.children.ids;
        width_by(
            &self.shape,
            outline.form,
            self.width_at(a),
            self.width_at(b),
            self.width_at(c),
        )
    }

    /// Whether a node fits: its children are in the graph, its widths are right and from 1 to 64, a constant is below
    /// `2 ^ width`, and a leaf has an index of the shape and that leaf's width.
    pub fn fits(&self, node: Node) -> bool
        ensures { IsTrue result ↔ IsSome (fits_width self.now node) }
    {
        self.width_of(node).is_some()
    }

    /// The charge of a node that fits: what its bits cost. It is 8 w w for a quotient or a remainder, 4 w w for a
    /// product, 16 w for a shift and 4 w for every other kind, where w is the greatest width of the node and its children.
    pub fn charge_of(&self, node: Node) -> u64
        requires { IsSome (fits_width self.now node) }
        ensures { result ≡ charge_in self.now node }
    {
        let width = self.width_of(node).unwrap();
        let [a, b, c] = node.children().ids;
        kind_charge(
            node,
            width,
            self.width_or_zero(a),
            self.width_or_zero(b),
            self.width_or_zero(c),
        )
    }

    /// Adds a node that fits, and answers its one place: the one where it stands already, or else the next. A node
    /// that is present takes no memory. Full exactly where the node is new and the graph holds `limit` nodes. After a
    /// refusal the graph is unchanged.
    pub fn add(&mut self, node: Node) -> Result<NodeId, DagError>
        requires { IsSome (fits_width self.old node) }
        ensures place { IfOk result (λ id. Adds self.old self.new node id.0) }
        ensures makes { IfOk result (λ id. Makes self.old self.new node id.0) }
        ensures present { Contains self.old.nodes node → IsOk result }
        ensures cause { IfErr result (AddFails self.old.nodes self.old.limit node) }
        ensures unchanged { OnErr result (self.new ≡ self.old) }
        ensures cost { Costs self.old self.new 1 (charge_in self.old node) }
    {
        let width = self.width_of(node).unwrap();
        if let Some(id) = make_room(&self.nodes, &mut self.widths, self.limit, node)? {
            return Ok(id);
        }
        let id = insert(&mut self.nodes, &mut self.widths, node, width)?;
        Ok(id)
    }

    /// Fills `values`, one place for each node, with the values of the nodes on an input, from front to back.
    pub fn value_at(&self, input: &Input, values: &mut [u64])
        requires size { length values.old ≡ length self.now.nodes }
        requires input { IsInput (leaves_of self.now) input.now }
        ensures values { values.new ≡ node_values self.now input.now }
        ensures hold { AreValues self.now input.now values.new }
    {
        let leaves = input.leaves();
        for i in 0..self.widths.len() {
            let node = *self.nodes.get_index(i).unwrap();
            values[i] = node_value(&self.shape, leaves, &self.widths, &values[..i], node);
        }
    }

    /// The width of the node at a place, or 0 from the last on.
    fn width_or_zero(&self, id: NodeId) -> u32
        ensures is { result ≡ slice_index self.now.widths id.0 }
        ensures high { result ≤ 64 }
    {
        self.widths.get(id.0 as usize).copied().unwrap_or(0)
    }
}

/// The two nodes that each graph begins with.
fn first_nodes(alloc: Global) -> Result<IndexSet<Node>, DagError>
    ensures keys { IfOk result (λ s. s.keys ≡ Const 1 0 ∷ Const 1 1 ∷ []) }
    ensures distinct { IfOk result (λ s. NoRepeats s.keys) }
    ensures cause { IfErr result (λ e. e ≡ DagError.Memory) }
{
    let mut nodes = IndexSet::new(alloc);
    nodes.insert_full(Node::Const { width: 1, value: 0 })?;
    nodes.insert_full(Node::Const { width: 1, value: 1 })?;
    Ok(nodes)
}

fn copy_of(alloc: Global, shape: &Shape) -> Result<Shape, DagError>
    ensures same { IfOk result (λ s. s ≡ shape.now) }
    ensures cause { IfErr result (λ e. e ≡ DagError.Memory) }
{
    let _leaves = shape.leaves();
    let params = Vec::from_slice(alloc, shape.params())?;
    Ok(Shape::of(params, shape.out(), shape.kind(), shape.is_array()))
}

/// Makes room for the width of a node, or finds the place where it stands already. While there is room the node isn't
/// looked for here, so that adding a node takes one look-up.
fn make_room(
    nodes: &IndexSet<Node>,
    widths: &mut Vec<u32>,
    limit: u32,
    node: Node,
) -> Result<Option<NodeId>, DagError>
    requires size { vec_len widths.old ≡ length nodes.now.keys }
    requires within { length nodes.now.keys ≤ limit }
    requires small { limit ≤ 2 ^ 31 }
    ensures found { IfOk result (λ found. MatchOption found (length nodes.now.keys < limit) (λ id. slice_get nodes.now.keys id.0 ≡ Some node)) }
    ensures room { IfOk result (λ found. MatchOption found (vec_len widths.new < vec_capacity widths.new) (λ _. Unit {0})) }
    ensures cause { IfErr result (AddFails nodes.now.keys limit node) }
    ensures same { widths.new.items ≡ widths.old.items }
{
    if nodes.len() < limit as usize && widths.len() < widths.capacity() {
        return Ok(None);
    }
    if let Some(place) = nodes.get_index_of(&node) {
        return Ok(Some(NodeId(place as u32)));
    }
    if nodes.len() >= limit as usize {
        return Err(DagError::Full { limit });
    }
    widths.reserve(1)?;
    Ok(None)
}

/// Inserts a node with its width, unless it is there already.
fn insert(
    nodes: &mut IndexSet<Node>,
    widths: &mut Vec<u32>,
    node: Node,
    width: u32,
) -> Result<NodeId, DagError>
    requires room { vec_len widths.old < vec_capacity widths.old }
    requires small { length nodes.old.keys < 2 ^ 31 }
    ensures place { IfOk result (λ id. Inserts nodes.old.keys nodes.new.keys widths.old.items widths.new.items node width id.0) }
    ensures distinct { OnOk result (NoRepeats nodes.new.keys) }
    ensures cause { IfErr result (λ e. (e ≡ DagError.Memory) × (Contains nodes.old.keys node → ⊥)) }
    ensures nodes { OnErr result (nodes.new.keys ≡ nodes.old.keys) }
    ensures widths { OnErr result (widths.new.items ≡ widths.old.items) }
{
    let (place, is_new) = nodes.insert_full(node)?;
    if is_new {
        widths.push_reserved(width);
    }
    Ok(NodeId(place as u32))
}

impl From<AllocError> for DagError {
    ghost use Rattle.dag.specs.declared.graph.DagError.TheVariants.{Memory as no_memory};

    ghost from_gives = { λ _ e. e ≡ no_memory };

    fn from(_: AllocError) -> DagError {
        DagError::Memory
    }
}

impl From<AllocFailed<Node>> for DagError {
    ghost use Rattle.dag.specs.declared.graph.DagError.TheVariants.{Memory as no_memory};

    ghost from_gives = { λ _ e. e ≡ no_memory };

    fn from(_: AllocFailed<Node>) -> DagError {
        DagError::Memory
    }
}
