//! Slices, sign extension, and shifts by constants as slices and joints.

ghost use Rattle.std.specs.Prelude.{◌≡◌, ◌<◌};
ghost use Rattle.bv_rules.specs.Plans.{IsView, KeepsIf, moved_up as moved_up_plan, moved_down as moved_down_plan};

use crate::gate::checked;
use crate::plan::{NodeView, Plan, PlanId, const_of, step};
use case_tables::first_of;
use dag::{Dag, Node, NodeId};

/// The first of these rules that applies.
pub(crate) fn first(dag: &Dag, view: NodeView) -> Option<Plan>
    requires { IsView dag.now view.node view.children }
    ensures { KeepsIf dag.now view.node result }
{
    first_of!(
        shl_const(dag, view),
        shr_const(dag, view),
        plus_self(dag, view),
        slice_whole(dag, view),
        slice_slice(dag, view),
        slice_cat_high(dag, view),
        slice_cat_low(dag, view),
        sext_same(dag, view)
    )
}

/// A word moved up by a constant is its lower bits above zeros.
fn shl_const(dag: &Dag, view: NodeView) -> Option<Plan>
    requires { IsView dag.now view.node view.children }
    ensures { KeepsIf dag.now view.node result }
{
    let Node::Shl(a, _) = view.node else {
        return None;
    };
    let places = const_of(view.children[1])?;
    let width = dag.width_at(a)?;
    if 0 < places && places < width as u64 {
        checked(dag, view.node, moved_up(width, a, places as u32))
    } else {
        None
    }
}

/// A word moved down by a constant is zeros above its upper bits.
fn shr_const(dag: &Dag, view: NodeView) -> Option<Plan>
    requires { IsView dag.now view.node view.children }
    ensures { KeepsIf dag.now view.node result }
{
    let Node::Shr(a, _) = view.node else {
        return None;
    };
    let places = const_of(view.children[1])?;
    let width = dag.width_at(a)?;
    if 0 < places && places < width as u64 {
        checked(dag, view.node, moved_down(width, a, places as u32))
    } else {
        None
    }
}

/// `x + x` is x moved up by 1.
fn plus_self(dag: &Dag, view: NodeView) -> Option<Plan>
    requires { IsView dag.now view.node view.children }
    ensures { KeepsIf dag.now view.node result }
{
    let Node::Plus(a, b) = view.node else {
        return None;
    };
    let width = dag.width_at(a)?;
    if a == b && 1 < width {
        checked(dag, view.node, moved_up(width, a, 1))
    } else {
        None
    }
}

/// All bits of x are x.
fn slice_whole(dag: &Dag, view: NodeView) -> Option<Plan>
    requires { IsView dag.now view.node view.children }
    ensures { KeepsIf dag.now view.node result }
{
    let Node::Slice { high, low, a } = view.node else {
        return None;
    };
    let width = dag.width_at(a)?;
    if low == 0 && high == width - 1 {
        checked(dag, view.node, Plan::same(a))
    } else {
        None
    }
}

/// Bits of bits are bits of the whole.
fn slice_slice(dag: &Dag, view: NodeView) -> Option<Plan>
    requires { IsView dag.now view.node view.children }
    ensures { KeepsIf dag.now view.node result }
{
    let Node::Slice { high, low, .. } = view.node else {
        return None;
    };
    let child = view.children[0]?;
    let Node::Slice { low: start, a, .. } = child else {
        return None;
    };
    if high < 64 && low < 64 && start < 64 {
        let node = Node::Slice {
            high: start + high,
            low: start + low,
            a,
        };
        checked(dag, view.node, Plan::one_old(node, a))
    } else {
        None
    }
}

/// Bits of the upper part of a joint.
fn slice_cat_high(dag: &Dag, view: NodeView) -> Option<Plan>
    requires { IsView dag.now view.node view.children }
    ensures { KeepsIf dag.now view.node result }
{
    let Node::Slice { high, low, .. } = view.node else {
        return None;
    };
    let child = view.children[0]?;
    let Node::Cat(x, y) = child else {
        return None;
    };
    let width = dag.width_at(y)?;
    if width <= low && low <= high {
        let node = Node::Slice {
            high: high - width,
            low: low - width,
            a: x,
        };
        checked(dag, view.node, Plan::one_old(node, x))
    } else {
        None
    }
}

/// Bits of the lower part of a joint.
fn slice_cat_low(dag: &Dag, view: NodeView) -> Option<Plan>
    requires { IsView dag.now view.node view.children }
    ensures { KeepsIf dag.now view.node result }
{
    let Node::Slice { high, low, .. } = view.node else {
        return None;
    };
    let child = view.children[0]?;
    let Node::Cat(_, y) = child else {
        return None;
    };
    let width = dag.width_at(y)?;
    if high < width {
        checked(
            dag,
            view.node,
            Plan::one_old(Node::Slice { high, low, a: y }, y),
        )
    } else {
        None
    }
}

/// A word extended to its own width is that word.
fn sext_same(dag: &Dag, view: NodeView) -> Option<Plan>
    requires { IsView dag.now view.node view.children }
    ensures { KeepsIf dag.now view.node result }
{
    let Node::Sext { width, a } = view.node else {
        return None;
    };
    let old = dag.width_at(a)?;
    if old == width {
        checked(dag, view.node, Plan::same(a))
    } else {
        None
    }
}

/// The plan of x moved up by some places: its lower bits above zeros.
pub(crate) fn moved_up(width: u32, a: NodeId, places: u32) -> Plan
    requires { places < width }
    ensures { result ≡ moved_up_plan width a places }
{
    let none = PlanId::New(0);
    let zeros = step(
        Node::Const {
            width: places,
            value: 0,
        },
        none,
        none,
        none,
    );
    let kept = step(
        Node::Slice {
            high: width - 1 - places,
            low: 0,
            a,
        },
        PlanId::Old(a),
        none,
        none,
    );
    Plan::three(
        zeros,
        kept,
        step(Node::Cat(a, a), PlanId::New(1), none, none),
    )
}

/// The plan of x moved down by some places: zeros above its upper bits.
pub(crate) fn moved_down(width: u32, a: NodeId, places: u32) -> Plan
    requires { places < width }
    ensures { result ≡ moved_down_plan width a places }
{
    let none = PlanId::New(0);
    let zeros = step(
        Node::Const {
            width: places,
            value: 0,
        },
        none,
        none,
        none,
    );
    let kept = step(
        Node::Slice {
            high: width - 1,
            low: places,
            a,
        },
        PlanId::Old(a),
        none,
        none,
    );
    Plan::three(
        zeros,
        kept,
        step(Node::Cat(a, a), PlanId::New(0), PlanId::New(1), none),
    )
}
