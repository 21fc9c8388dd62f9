//! Building a node.

ghost use Rattle.std.specs.Prelude.{◌≡◌, ℕ, ◌*◌, IsSome, IsTrue, IfSome, IfOk, IfErr};
ghost use Rattle.dag.specs.Graph.{fits_width, Makes, Extends, Costs, charge_in};
ghost use Rattle.bv_rules.specs.Plans.{Keeps};
ghost use Rattle.rewriter.specs.Building.{IsCounted, BuildFails, resolve as resolve_of, placed as placed_of, IsLike, IsPresent};
ghost use Rattle.bv_rules.specs.declared.plan.PlanId.{PlanId};
ghost use Rattle.bv_rules.specs.declared.plan.PlanId.TheVariants.{New, Old};

use bv_rules::{Plan, PlanId, PlanNode, pick, view_of};
use dag::{Dag, DagError, Node, NodeId};

/// What building has added to a graph. Each count stands still at its type's end.
#[derive(Clone, Copy, Debug, PartialEq, Eq)]
pub struct Charge {
    /// The number of nodes.
    pub added: u64,
    /// Their charges together.
    pub units: u64,
}

/// A node of the asked node's width and value, made by the rules: a plan of one node that is no dearer is looked at
/// again, up to eight times, and the first other plan is added. Where no rule applies the node itself is added.
///
/// It adds at most 16 nodes, whose charges together are at most four times the asked node's, and counts both in
/// `charge`. Full only where the graph holds its limit of nodes, and Memory only where it holds fewer. After a refusal
/// the graph has its old nodes as a prefix, and what was added until then is counted.
pub fn build(dag: &mut Dag, node: Node, charge: &mut Charge) -> Result<NodeId, DagError>
    requires { IsSome (fits_width dag.old node) }
    ensures makes { IfOk result (λ id. Makes dag.old dag.new node id.0) }
    ensures grows { Extends dag.old dag.new }
    ensures cost { Costs dag.old dag.new 16 (4 * charge_in dag.old node) }
    ensures counted { IsCounted charge.old charge.new dag.old dag.new }
    ensures cause { IfErr result (BuildFails dag.new) }
{
    let (next, plan) = settled(dag, node);
    match plan {
        Some(plan) => place_plan(dag, node, next, plan, charge),
        None => place_like(dag, node, next, charge),
    }
}

/// How often a node is replaced by another one before it is added.
const ROUNDS: u32 = 8;

/// The node that the rules lead to by plans of one node, and the plan that is to be added for it, if any.
fn settled(dag: &Dag, node: Node) -> (Node, Option<Plan>)
    requires { IsSome (fits_width dag.now node) }
    ensures like { IsLike dag.now node result.0 }
    ensures plan { IfSome result.1 (λ p. Keeps dag.now result.0 p) }
{
    let mut next = node;
    for _ in 0..ROUNDS {
        let Some(plan) = pick(dag, view_of(dag, next)) else {
            return (next, None);
        };
        match next_node(dag, next, plan) {
            Some(better) => next = better,
            None => return (next, Some(plan)),
        }
    }
    (next, None)
}

/// The one node of a plan over nodes of the graph, where it is no dearer than the node that it stands for.
fn next_node(dag: &Dag, node: Node, plan: Plan) -> Option<Node>
    requires fits { IsSome (fits_width dag.now node) }
    requires keeps { Keeps dag.now node plan }
    ensures { IfSome result (λ m. IsLike dag.now node m) }
{
    let nodes = &plan.nodes[..plan.count as usize];
    if nodes.len() == 1 && is_first(plan.result) {
        let next = placed(&[], nodes[0]);
        if dag.charge_of(next) <= dag.charge_of(node) {
            return Some(next);
        }
    }
    None
}

/// Whether an id names the first node of a plan.
fn is_first(id: PlanId) -> bool
    ensures { IsTrue result → id ≡ PlanId.New 0 }
{
    match id {
        PlanId::New(place) => place == 0,
        PlanId::Old(_) => false,
    }
}

/// Adds the plan of a node that is like the asked one.
fn place_plan(
    dag: &mut Dag,
    asked: Node,
    node: Node,
    plan: Plan,
    charge: &mut Charge,
) -> Result<NodeId, DagError>
    requires fits { IsSome (fits_width dag.old asked) }
    requires like { IsLike dag.old asked node }
    requires keeps { Keeps dag.old node plan }
    ensures makes { IfOk result (λ id. Makes dag.old dag.new asked id.0) }
    ensures grows { Extends dag.old dag.new }
    ensures cost { Costs dag.old dag.new 16 (4 * charge_in dag.old asked) }
    ensures counted { IsCounted charge.old charge.new dag.old dag.new }
    ensures cause { IfErr result (BuildFails dag.new) }
{
    let id = place_all(dag, node, plan, charge)?;
    Ok(id)
}

/// Adds a node that is like the asked one.
fn place_like(
    dag: &mut Dag,
    asked: Node,
    node: Node,
    charge: &mut Charge,
) -> Result<NodeId, DagError>
    requires fits { IsSome (fits_width dag.old asked) }
    requires like { IsLike dag.old asked node }
    ensures makes { IfOk result (λ id. Makes dag.old dag.new asked id.0) }
    ensures grows { Extends dag.old dag.new }
    ensures cost { Costs dag.old dag.new 16 (4 * charge_in dag.old asked) }
    ensures counted { IsCounted charge.old charge.new dag.old dag.new }
    ensures cause { IfErr result (BuildFails dag.new) }
{
    let id = place_no_dearer(dag, asked, node, charge)?;
    Ok(id)
}

/// Adds a node as it is, and counts it where it is new.
fn place(dag: &mut Dag, node: Node, charge: &mut Charge) -> Result<NodeId, DagError>
    requires { IsSome (fits_width dag.old node) }
    ensures makes { IfOk result (λ id. Makes dag.old dag.new node id.0) }
    ensures grows { Extends dag.old dag.new }
    ensures cost { Costs dag.old dag.new 1 (charge_in dag.old node) }
    ensures counted { IsCounted charge.old charge.new dag.old dag.new }
    ensures cause { IfErr result (BuildFails dag.new) }
{
    dag.known();
    let before = dag.len();
    let units = dag.charge_of(node);
    let Charge {
        added,
        units: total,
    } = *charge;
    let id = dag.add(node)?;
    if dag.len() > before {
        charge.added = added.saturating_add(1);
        charge.units = total.saturating_add(units);
    }
    Ok(id)
}

/// Adds a node of a plan, or one that the rules lead to by plans of one node or none and that is no dearer.
fn place_settled(dag: &mut Dag, node: Node, charge: &mut Charge) -> Result<NodeId, DagError>
    requires { IsSome (fits_width dag.old node) }
    ensures makes { IfOk result (λ id. Makes dag.old dag.new node id.0) }
    ensures grows { Extends dag.old dag.new }
    ensures cost { Costs dag.old dag.new 1 (charge_in dag.old node) }
    ensures counted { IsCounted charge.old charge.new dag.old dag.new }
    ensures cause { IfErr result (BuildFails dag.new) }
{
    let Charge {
        added: _added,
        units: _units,
    } = *charge;
    let (next, plan) = settled(dag, node);
    match present(plan) {
        Some(id) => Ok(id),
        None => place_no_dearer(dag, node, next, charge),
    }
}

/// The node of the graph that a plan consists of, if it adds none.
fn present(plan: Option<Plan>) -> Option<NodeId>
    ensures { IfSome result (λ id. IsPresent plan id) }
{
    let plan = plan?;
    match plan.result {
        PlanId::Old(id) => { if plan.count == 0 { Some(id) } else { None } }
        PlanId::New(_) => None,
    }
}

/// Adds a node that is like the asked one, and so adds no more than that.
fn place_no_dearer(
    dag: &mut Dag,
    asked: Node,
    node: Node,
    charge: &mut Charge,
) -> Result<NodeId, DagError>
    requires fits { IsSome (fits_width dag.old asked) }
    requires like { IsLike dag.old asked node }
    ensures makes { IfOk result (λ id. Makes dag.old dag.new asked id.0) }
    ensures grows { Extends dag.old dag.new }
    ensures cost { Costs dag.old dag.new 1 (charge_in dag.old asked) }
    ensures counted { IsCounted charge.old charge.new dag.old dag.new }
    ensures cause { IfErr result (BuildFails dag.new) }
{
    let id = place(dag, node, charge)?;
    Ok(id)
}

/// Adds the nodes of a plan that keeps a node, one after another.
fn place_all(dag: &mut Dag, node: Node, plan: Plan, charge: &mut Charge) -> Result<NodeId, DagError>
    requires fits { IsSome (fits_width dag.old node) }
    requires keeps { Keeps dag.old node plan }
    ensures makes { IfOk result (λ id. Makes dag.old dag.new node id.0) }
    ensures grows { Extends dag.old dag.new }
    ensures cost { Costs dag.old dag.new 16 (4 * charge_in dag.old node) }
    ensures counted { IsCounted charge.old charge.new dag.old dag.new }
    ensures cause { IfErr result (BuildFails dag.new) }
{
    let nodes = &plan.nodes[..plan.count as usize];
    let mut ids = [NodeId(0); 16];
    for i in 0..nodes.len() {
        let next = placed(&ids[..i], nodes[i]);
        ids[i] = place_settled(dag, next, charge)?;
    }
    Ok(resolve(&ids[..nodes.len()], plan.result))
}

/// A plan's node over the graph, where the nodes before it have these places.
fn placed(ids: &[NodeId], step: PlanNode) -> Node
    ensures { result ≡ placed_of ids.now step }
{
    let a = resolve(ids, step.children[0]);
    let b = resolve(ids, step.children[1]);
    let c = resolve(ids, step.children[2]);
    step.node.with_children(&[a, b, c])
}

fn resolve(ids: &[NodeId], id: PlanId) -> NodeId
    ensures { result ≡ resolve_of ids.now id }
{
    match id {
        PlanId::Old(k) => k,
        PlanId::New(i) => ids.get(i as usize).copied().unwrap_or(NodeId(0)),
    }
}
