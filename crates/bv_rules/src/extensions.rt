//! Sign extension: bits of an extended word, and extension twice.
//!
//! In Java a byte is extended when it is read, and `(byte) x` cuts and extends. Bits of the word then are bits of the
//! byte or copies of its sign.

ghost use Rattle.std.specs.Prelude.{◌≡◌};
ghost use Rattle.bv_rules.specs.Plans.{IsView, KeepsIf, extended_bits as extended_bits_plan, widened as widened_plan};

use crate::gate::checked;
use crate::matching::{constant_at, joint_at};
use crate::plan::{NodeView, Plan, PlanId, step};
use case_tables::first_of;
use dag::{Dag, Node, NodeId};

/// The first of these rules that applies.
pub(crate) fn first(dag: &Dag, view: NodeView) -> Option<Plan>
    requires { IsView dag.now view.node view.children }
    ensures { KeepsIf dag.now view.node result }
{
    first_of!(
        slice_sext_low(dag, view),
        slice_sext_across(dag, view),
        sext_sext(dag, view),
        sext_joint(dag, view)
    )
}

/// Bits of an extended word that are bits of the word: `(byte) x & 15`.
fn slice_sext_low(dag: &Dag, view: NodeView) -> Option<Plan>
    requires { IsView dag.now view.node view.children }
    ensures { KeepsIf dag.now view.node result }
{
    let Node::Slice { high, low, .. } = view.node else {
        return None;
    };
    let child = view.children[0]?;
    let Node::Sext { a, .. } = child else {
        return None;
    };
    let old = dag.width_at(a)?;
    if high < old {
        checked(
            dag,
            view.node,
            Plan::one_old(Node::Slice { high, low, a }, a),
        )
    } else {
        None
    }
}

/// Bits of an extended word from below its sign on: `(byte) x >> 3`.
fn slice_sext_across(dag: &Dag, view: NodeView) -> Option<Plan>
    requires { IsView dag.now view.node view.children }
    ensures { KeepsIf dag.now view.node result }
{
    let Node::Slice { high, low, .. } = view.node else {
        return None;
    };
    let child = view.children[0]?;
    let Node::Sext { a, .. } = child else {
        return None;
    };
    let old = dag.width_at(a)?;
    if low < old && old <= high && high < 64 {
        checked(
            dag,
            view.node,
            extended_bits(high - low + 1, old - 1, low, a),
        )
    } else {
        None
    }
}

/// A word extended twice is extended once: `(long) (int) b`.
fn sext_sext(dag: &Dag, view: NodeView) -> Option<Plan>
    requires { IsView dag.now view.node view.children }
    ensures { KeepsIf dag.now view.node result }
{
    let Node::Sext { width, .. } = view.node else {
        return None;
    };
    let child = view.children[0]?;
    let Node::Sext { a, .. } = child else {
        return None;
    };
    checked(dag, view.node, Plan::one_old(Node::Sext { width, a }, a))
}

/// A word with zeros above has no sign: `(long) (b & 255)`.
fn sext_joint(dag: &Dag, view: NodeView) -> Option<Plan>
    requires { IsView dag.now view.node view.children }
    ensures { KeepsIf dag.now view.node result }
{
    let Node::Sext { width, a } = view.node else {
        return None;
    };
    let (zeros, x) = joint_at(dag, a)?;
    let value = constant_at(dag, zeros)?;
    let bits = dag.width_at(x)?;
    if value == 0 && bits < width {
        checked(dag, view.node, widened(width - bits, x))
    } else {
        None
    }
}

/// The plan of bits of a word, extended to a width.
fn extended_bits(width: u32, high: u32, low: u32, a: NodeId) -> Plan
    ensures { result ≡ extended_bits_plan width high low a }
{
    let none = PlanId::New(0);
    Plan::two(
        step(Node::Slice { high, low, a }, PlanId::Old(a), none, none),
        step(Node::Sext { width, a }, none, none, none),
    )
}

/// The plan of a word below so many zeros.
fn widened(zeros: u32, a: NodeId) -> Plan
    ensures { result ≡ widened_plan zeros a }
{
    let none = PlanId::New(0);
    let front = step(
        Node::Const {
            width: zeros,
            value: 0,
        },
        none,
        none,
        none,
    );
    Plan::two(front, step(Node::Cat(a, a), none, PlanId::Old(a), none))
}
