//! Joints of parts: regrouped, put together again, and cut across.

ghost use Rattle.std.specs.Prelude.{◌≡◌};
ghost use Rattle.bv_rules.specs.Plans.{IsView, KeepsIf, regrouped as regrouped_plan, cut_parts as cut_parts_plan};

use crate::gate::checked;
use crate::matching::joint_at;
use crate::plan::{NodeView, Plan, PlanId, step};
use case_tables::first_of;
use dag::{Dag, Node, NodeId};

/// The first of these rules that applies.
pub(crate) fn first(dag: &Dag, view: NodeView) -> Option<Plan>
    requires { IsView dag.now view.node view.children }
    ensures { KeepsIf dag.now view.node result }
{
    first_of!(
        slice_cat_across(dag, view),
        cat_cat(dag, view),
        cat_slices(dag, view)
    )
}

/// `((a, b), c)` is `(a, (b, c))`.
fn cat_cat(dag: &Dag, view: NodeView) -> Option<Plan>
    requires { IsView dag.now view.node view.children }
    ensures { KeepsIf dag.now view.node result }
{
    let Node::Cat(left, c) = view.node else {
        return None;
    };
    let (a, b) = joint_at(dag, left)?;
    checked(dag, view.node, regrouped(a, b, c))
}

/// Bits of a word above the bits next to them are bits of the word.
fn cat_slices(dag: &Dag, view: NodeView) -> Option<Plan>
    requires { IsView dag.now view.node view.children }
    ensures { KeepsIf dag.now view.node result }
{
    let Node::Cat(..) = view.node else {
        return None;
    };
    let upper = view.children[0]?;
    let Node::Slice {
        high,
        low: middle,
        a,
    } = upper
    else {
        return None;
    };
    let lower = view.children[1]?;
    let Node::Slice {
        high: below,
        low,
        a: b,
    } = lower
    else {
        return None;
    };
    if a == b && below < 64 && middle == below + 1 {
        checked(
            dag,
            view.node,
            Plan::one_old(Node::Slice { high, low, a }, a),
        )
    } else {
        None
    }
}

/// Bits of both parts of a joint are a joint: `(h << 8 | l & 255) >> 4`.
fn slice_cat_across(dag: &Dag, view: NodeView) -> Option<Plan>
    requires { IsView dag.now view.node view.children }
    ensures { KeepsIf dag.now view.node result }
{
    let Node::Slice { high, low, .. } = view.node else {
        return None;
    };
    let child = view.children[0]?;
    let Node::Cat(x, y) = child else {
        return None;
    };
    let width = dag.width_at(y)?;
    if low < width && width <= high {
        checked(
            dag,
            view.node,
            cut_parts(high - width, x, width - 1, low, y),
        )
    } else {
        None
    }
}

/// The plan of a above the joint of b and c.
fn regrouped(a: NodeId, b: NodeId, c: NodeId) -> Plan
    ensures { result ≡ regrouped_plan a b c }
{
    let none = PlanId::New(0);
    Plan::two(
        step(Node::Cat(b, c), PlanId::Old(b), PlanId::Old(c), none),
        step(Node::Cat(a, a), PlanId::Old(a), none, none),
    )
}

/// The plan of the lowest bits of x above bits of y.
fn cut_parts(upper: u32, x: NodeId, high: u32, low: u32, y: NodeId) -> Plan
    ensures { result ≡ cut_parts_plan upper x high low y }
{
    let none = PlanId::New(0);
    Plan::three(
        step(
            Node::Slice {
                high: upper,
                low: 0,
                a: x,
            },
            PlanId::Old(x),
            none,
            none,
        ),
        step(Node::Slice { high, low, a: y }, PlanId::Old(y), none, none),
        step(Node::Cat(x, y), PlanId::New(0), PlanId::New(1), none),
    )
}
