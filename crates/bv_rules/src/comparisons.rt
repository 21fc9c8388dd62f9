//! Comparisons with constants.

ghost use Rattle.bv_rules.specs.Plans.{IsView, KeepsIf};

use crate::gate::checked;
use crate::gather::with_constant;
use crate::matching::{constant_at, constant_beside, zeros_above};
use crate::plan::{NodeView, Plan, const_of, is_const};
use bv_words::{chop, mask, sx};
use case_tables::first_of;
use dag::{Dag, Node};

/// The first of these rules that applies.
pub(crate) fn first(dag: &Dag, view: NodeView) -> Option<Plan>
    requires { IsView dag.now view.node view.children }
    ensures { KeepsIf dag.now view.node result }
{
    first_of!(
        slt_zero(dag, view),
        ult_zero(dag, view),
        ult_one(dag, view),
        bit_is_one(dag, view),
        bit_is_zero(dag, view),
        eq_joint(dag, view),
        eq_joint_past(dag, view),
        ult_joint(dag, view),
        eq_sext(dag, view),
        eq_choice_then(dag, view),
        eq_choice_else(dag, view)
    )
}

/// Below 0 as a signed number is the top bit.
fn slt_zero(dag: &Dag, view: NodeView) -> Option<Plan>
    requires { IsView dag.now view.node view.children }
    ensures { KeepsIf dag.now view.node result }
{
    let Node::Slt(a, _) = view.node else {
        return None;
    };
    let width = dag.width_at(a)?;
    if is_const(view.children[1], 0) {
        let top = width - 1;
        checked(
            dag,
            view.node,
            Plan::one_old(
                Node::Slice {
                    high: top,
                    low: top,
                    a,
                },
                a,
            ),
        )
    } else {
        None
    }
}

/// Nothing is below 0.
fn ult_zero(dag: &Dag, view: NodeView) -> Option<Plan>
    requires { IsView dag.now view.node view.children }
    ensures { KeepsIf dag.now view.node result }
{
    let Node::Ult(..) = view.node else {
        return None;
    };
    if is_const(view.children[1], 0) {
        checked(dag, view.node, Plan::constant(1, 0))
    } else {
        None
    }
}

/// A bit that is compared with 1 is that bit.
fn bit_is_one(dag: &Dag, view: NodeView) -> Option<Plan>
    requires { IsView dag.now view.node view.children }
    ensures { KeepsIf dag.now view.node result }
{
    let Node::Eq(a, b) = view.node else {
        return None;
    };
    let (x, value) = constant_beside(dag, a, b)?;
    let width = dag.width_at(x)?;
    if width == 1 && value == 1 {
        checked(dag, view.node, Plan::same(x))
    } else {
        None
    }
}

/// A bit that is compared with 0 is turned.
fn bit_is_zero(dag: &Dag, view: NodeView) -> Option<Plan>
    requires { IsView dag.now view.node view.children }
    ensures { KeepsIf dag.now view.node result }
{
    let Node::Eq(a, b) = view.node else {
        return None;
    };
    let (x, value) = constant_beside(dag, a, b)?;
    let width = dag.width_at(x)?;
    if width == 1 && value == 0 {
        checked(dag, view.node, Plan::one_old(Node::Not(x), x))
    } else {
        None
    }
}

/// `(b & 255) == 7` compares the byte.
fn eq_joint(dag: &Dag, view: NodeView) -> Option<Plan>
    requires { IsView dag.now view.node view.children }
    ensures { KeepsIf dag.now view.node result }
{
    let Node::Eq(a, b) = view.node else {
        return None;
    };
    let (joint, value) = constant_beside(dag, a, b)?;
    let (x, bits) = zeros_above(dag, joint)?;
    checked(
        dag,
        view.node,
        with_constant(Node::Eq(x, x), x, bits, value),
    )
}

/// `(b & 255) == 300` never holds.
fn eq_joint_past(dag: &Dag, view: NodeView) -> Option<Plan>
    requires { IsView dag.now view.node view.children }
    ensures { KeepsIf dag.now view.node result }
{
    let Node::Eq(a, b) = view.node else {
        return None;
    };
    let (joint, value) = constant_beside(dag, a, b)?;
    let (x, _) = zeros_above(dag, joint)?;
    let bits = dag.width_at(x)?;
    if mask(bits) < value {
        checked(dag, view.node, Plan::constant(1, 0))
    } else {
        None
    }
}

/// `(b & 255) < 7` without signs compares the byte.
fn ult_joint(dag: &Dag, view: NodeView) -> Option<Plan>
    requires { IsView dag.now view.node view.children }
    ensures { KeepsIf dag.now view.node result }
{
    let Node::Ult(a, _) = view.node else {
        return None;
    };
    let value = const_of(view.children[1])?;
    let (x, bits) = zeros_above(dag, a)?;
    checked(
        dag,
        view.node,
        with_constant(Node::Ult(x, x), x, bits, value),
    )
}

/// Below 1 is 0.
fn ult_one(dag: &Dag, view: NodeView) -> Option<Plan>
    requires { IsView dag.now view.node view.children }
    ensures { KeepsIf dag.now view.node result }
{
    let Node::Ult(a, _) = view.node else {
        return None;
    };
    let width = dag.width_at(a)?;
    if is_const(view.children[1], 1) {
        checked(dag, view.node, with_constant(Node::Eq(a, a), a, width, 0))
    } else {
        None
    }
}

/// `(byte) x == -3` compares the byte.
fn eq_sext(dag: &Dag, view: NodeView) -> Option<Plan>
    requires { IsView dag.now view.node view.children }
    ensures { KeepsIf dag.now view.node result }
{
    let Node::Eq(a, b) = view.node else {
        return None;
    };
    let (extended, value) = constant_beside(dag, a, b)?;
    let child = dag.node_at(extended)?;
    let Node::Sext { width, a: x } = child else {
        return None;
    };
    let old = dag.width_at(x)?;
    let low = chop(old, value);
    if old <= width && width <= 64 && sx(width, old, low) == value {
        checked(dag, view.node, with_constant(Node::Eq(x, x), x, old, low))
    } else {
        None
    }
}

/// `(c ? 1 : 0) == 1` is c, as javac compares truth values.
fn eq_choice_then(dag: &Dag, view: NodeView) -> Option<Plan>
    requires { IsView dag.now view.node view.children }
    ensures { KeepsIf dag.now view.node result }
{
    let Node::Eq(a, b) = view.node else {
        return None;
    };
    let (choice, value) = constant_beside(dag, a, b)?;
    let child = dag.node_at(choice)?;
    let Node::Ite(condition, p, q) = child else {
        return None;
    };
    let then = constant_at(dag, p)?;
    let other = constant_at(dag, q)?;
    if value == then && value != other {
        checked(dag, view.node, Plan::same(condition))
    } else {
        None
    }
}

/// `(c ? 1 : 0) == 0` is the contrary of c.
fn eq_choice_else(dag: &Dag, view: NodeView) -> Option<Plan>
    requires { IsView dag.now view.node view.children }
    ensures { KeepsIf dag.now view.node result }
{
    let Node::Eq(a, b) = view.node else {
        return None;
    };
    let (choice, value) = constant_beside(dag, a, b)?;
    let child = dag.node_at(choice)?;
    let Node::Ite(condition, p, q) = child else {
        return None;
    };
    let then = constant_at(dag, p)?;
    let other = constant_at(dag, q)?;
    if value == other && value != then {
        checked(
            dag,
            view.node,
            Plan::one_old(Node::Not(condition), condition),
        )
    } else {
        None
    }
}
