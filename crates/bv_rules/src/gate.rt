//! The gate that each plan passes: it fits the graph, keeps the viewed node's width, and costs at most four times that
//! node's charge.

ghost use Rattle.std.specs.Prelude.{◌≡◌, ℕ, ◌+◌, ◌<◌, ◌≤◌, Some, IsSome, IfSome, length, take, [], slice_get};
ghost use Rattle.dag.specs.Graph.{fits_width};
ghost use Rattle.bv_rules.specs.Plans.{IsSound, width_at, step_width, step_charge, plan_widths, plan_charge, steps};

use crate::plan::{Plan, PlanId, PlanNode};
use dag::{Dag, Node, kind_charge, width_by};

/// The plan, where it may stand for the node as far as widths and charges go.
pub(crate) fn checked(dag: &Dag, node: Node, plan: Plan) -> Option<Plan>
    requires { IsSome (fits_width dag.now node) }
    ensures { IfSome result (λ p. (p ≡ plan) × IsSound dag.now node p) }
{
    if plan.count > 16 {
        return None;
    }
    let count = plan.count as usize;
    let cost = plan_cost(dag, &plan.nodes[..count])?;
    let width = id_width(dag, &cost.widths[..count], plan.result)?;
    if dag.width_of(node) == Some(width) && cost.charge <= dag.charge_of(node).saturating_mul(4) {
        Some(plan)
    } else {
        None
    }
}

/// The widths of a plan's nodes, and their charges together.
#[derive(Clone, Copy)]
struct Cost {
    widths: [u32; 16],
    charge: u64,
}

fn plan_cost(dag: &Dag, nodes: &[PlanNode]) -> Option<Cost>
    requires { length nodes.now ≤ 16 }
    ensures widths { IfSome result (λ c. plan_widths dag.now [] nodes.now ≡ Some (take (length nodes.now) c.widths)) }
    ensures charge { IfSome result (λ c. plan_charge dag.now [] nodes.now ≡ c.charge) }
{
    let mut widths = [0u32; 16];
    let mut charge = 0u64;
    for i in 0..nodes.len() {
        let (width, units) = step_cost(dag, &widths[..i], nodes[i])?;
        widths[i] = width;
        charge = charge.checked_add(units)?;
    }
    Some(Cost { widths, charge })
}

/// The width and the charge of a plan's node after nodes of these widths.
fn step_cost(dag: &Dag, made: &[u32], step: PlanNode) -> Option<(u32, u64)>
    ensures width { IfSome result (λ r. step_width dag.now made.now step ≡ Some r.0) }
    ensures charge { IfSome result (λ r. step_charge dag.now made.now step ≡ r.1) }
{
    let x = id_width(dag, made, step.children[0]);
    let y = id_width(dag, made, step.children[1]);
    let z = id_width(dag, made, step.children[2]);
    let width = width_by(dag.shape(), step.node.outline().form, x, y, z)?;
    let (x, y, z) = (x.unwrap_or(0), y.unwrap_or(0), z.unwrap_or(0));
    if width <= 64 && x <= 64 && y <= 64 && z <= 64 {
        Some((width, kind_charge(step.node, width, x, y, z)))
    } else {
        None
    }
}

fn id_width(dag: &Dag, made: &[u32], id: PlanId) -> Option<u32>
    ensures { result ≡ width_at dag.now made.now id }
{
    match id {
        PlanId::Old(k) => dag.width_at(k),
        PlanId::New(i) => made.get(i as usize).copied(),
    }
}
