//! Views and plans.

ghost use Rattle.std.specs.Prelude.{◌≡◌, IsSome, IsTrue, IfSome};
ghost use Rattle.dag.specs.Graph.{fits_width};
ghost use Rattle.bv_rules.specs.Plans.{Views, IsConst, blank as blank_step, step as step_of, same_plan, one_plan, two_plan, three_plan};
ghost use Rattle.dag.specs.declared.node.Node.TheVariants.{Const};
ghost use Rattle.bv_rules.specs.declared.plan.PlanId.TheVariants.{Old, New};

use dag::{Dag, Node, NodeId};

/// A node with the nodes of its children.
#[derive(Clone, Copy, Debug)]
pub struct NodeView {
    /// The node, which fits a graph.
    pub node: Node,
    /// The nodes that the graph has at its children in order, and None past them.
    pub children: [Option<Node>; 3],
}

/// A node with the nodes that the graph has at its children.
pub fn view_of(dag: &Dag, node: Node) -> NodeView
    requires { IsSome (fits_width dag.now node) }
    ensures node { result.node ≡ node }
    ensures view { Views dag.now node result.children }
{
    let children = node.children();
    let mut nodes = [None; 3];
    if children.count > 0 {
        nodes[0] = dag.node_at(children.ids[0]);
    }
    if children.count > 1 {
        nodes[1] = dag.node_at(children.ids[1]);
    }
    if children.count > 2 {
        nodes[2] = dag.node_at(children.ids[2]);
    }
    NodeView {
        node,
        children: nodes,
    }
}

/// A node that a plan names.
#[derive(Clone, Copy, Debug)]
pub enum PlanId {
    /// A node of the graph.
    Old(NodeId),
    /// The node at this place of the plan.
    New(u32),
}

/// A node of a plan: `node` with its children replaced in order by `children`. Each New among them is an earlier
/// place, and what is past the node's own children isn't read.
#[derive(Clone, Copy, Debug)]
pub struct PlanNode {
    pub node: Node,
    pub children: [PlanId; 3],
}

/// Nodes to be added to a graph one after another, unless they are there, and which of them is meant.
#[derive(Clone, Copy, Debug)]
pub struct Plan {
    /// How many of `nodes` belong to the plan, at most 16.
    pub count: u32,
    /// The nodes, in order; those from `count` on aren't read.
    pub nodes: [PlanNode; 16],
    /// The node whose value is the plan's.
    pub result: PlanId,
}

impl Plan {
    /// The plan that is a node of the graph.
    pub(crate) fn same(a: NodeId) -> Plan
        ensures { result ≡ same_plan a }
    {
        Plan {
            count: 0,
            nodes: [blank(); 16],
            result: PlanId::Old(a),
        }
    }

    /// The plan of one node.
    pub(crate) fn one(step: PlanNode) -> Plan
        ensures { result ≡ one_plan step }
    {
        let mut nodes = [blank(); 16];
        nodes[0] = step;
        Plan {
            count: 1,
            nodes,
            result: PlanId::New(0),
        }
    }

    /// The plan of two nodes whose result is the second.
    pub(crate) fn two(first: PlanNode, second: PlanNode) -> Plan
        ensures { result ≡ two_plan first second }
    {
        let mut nodes = [blank(); 16];
        nodes[0] = first;
        nodes[1] = second;
        Plan {
            count: 2,
            nodes,
            result: PlanId::New(1),
        }
    }

    /// The plan of three nodes whose result is the third.
    pub(crate) fn three(first: PlanNode, second: PlanNode, third: PlanNode) -> Plan
        ensures { result ≡ three_plan first second third }
    {
        let mut nodes = [blank(); 16];
        nodes[0] = first;
        nodes[1] = second;
        nodes[2] = third;
        Plan {
            count: 3,
            nodes,
            result: PlanId::New(2),
        }
    }

    /// The plan of a constant.
    pub(crate) fn constant(width: u32, value: u64) -> Plan
        ensures { result ≡ one_plan (step_of (Const width value) (New 0) (New 0) (New 0)) }
    {
        let none = PlanId::New(0);
        Plan::one(step(Node::Const { width, value }, none, none, none))
    }

    /// The plan of one node over one node of the graph.
    pub(crate) fn one_old(node: Node, a: NodeId) -> Plan
        ensures { result ≡ one_plan (step_of node (Old a) (New 0) (New 0)) }
    {
        Plan::one(step(node, PlanId::Old(a), PlanId::New(0), PlanId::New(0)))
    }

    /// The plan of one node over two nodes of the graph.
    pub(crate) fn two_old(node: Node, a: NodeId, b: NodeId) -> Plan
        ensures { result ≡ one_plan (step_of node (Old a) (Old b) (New 0)) }
    {
        Plan::one(step(node, PlanId::Old(a), PlanId::Old(b), PlanId::New(0)))
    }
}

fn blank() -> PlanNode
    ensures { result ≡ blank_step }
{
    let none = PlanId::New(0);
    PlanNode {
        node: Node::Const { width: 1, value: 0 },
        children: [none, none, none],
    }
}

/// A node of a plan, with children for each position.
pub(crate) fn step(node: Node, a: PlanId, b: PlanId, c: PlanId) -> PlanNode
    ensures { result ≡ step_of node a b c }
{
    PlanNode {
        node,
        children: [a, b, c],
    }
}

/// Whether a child is a constant of this value.
pub(crate) fn is_const(child: Option<Node>, number: u64) -> bool
    ensures { IsTrue result → IsConst child number }
{
    match child {
        Some(Node::Const { value, .. }) => value == number,
        _ => false,
    }
}

/// The value of a child that is a constant.
pub(crate) fn const_of(child: Option<Node>) -> Option<u64>
    ensures { IfSome result (λ v. IsConst child v) }
{
    match child {
        Some(Node::Const { value, .. }) => Some(value),
        _ => None,
    }
}
