//! Words that are put together from two parts: rotations by constants, and bytes joined to words.
//!
//! In Java a rotation is `x << k | x >>> 32 - k`, with `^` or `+` in place of `|`, and bytes are joined by
//! `h << 8 | l & 255`. The shifts are joints with zeros when they meet here.

ghost use Rattle.std.specs.Prelude.{◌≡◌};
ghost use Rattle.bv_rules.specs.Plans.{IsView, KeepsIf, joined as joined_plan};

use crate::gate::checked;
use crate::matching::parts;
use crate::plan::{NodeView, Plan};
use case_tables::first_of;
use dag::{Dag, Node, NodeId};

/// The first of these rules that applies.
pub(crate) fn first(dag: &Dag, view: NodeView) -> Option<Plan>
    requires { IsView dag.now view.node view.children }
    ensures { KeepsIf dag.now view.node result }
{
    first_of!(
        or_parts(dag, view),
        xor_parts(dag, view),
        plus_parts(dag, view)
    )
}

/// `(h, 0) | (0, l)` is `(h, l)`.
fn or_parts(dag: &Dag, view: NodeView) -> Option<Plan>
    requires { IsView dag.now view.node view.children }
    ensures { KeepsIf dag.now view.node result }
{
    let Node::Or(a, b) = view.node else {
        return None;
    };
    let (high, low) = parts(dag, a, b)?;
    checked(dag, view.node, joined(high, low))
}

/// `(h, 0) ^ (0, l)` is `(h, l)`.
fn xor_parts(dag: &Dag, view: NodeView) -> Option<Plan>
    requires { IsView dag.now view.node view.children }
    ensures { KeepsIf dag.now view.node result }
{
    let Node::Xor(a, b) = view.node else {
        return None;
    };
    let (high, low) = parts(dag, a, b)?;
    checked(dag, view.node, joined(high, low))
}

/// `(h, 0) + (0, l)` is `(h, l)`.
fn plus_parts(dag: &Dag, view: NodeView) -> Option<Plan>
    requires { IsView dag.now view.node view.children }
    ensures { KeepsIf dag.now view.node result }
{
    let Node::Plus(a, b) = view.node else {
        return None;
    };
    let (high, low) = parts(dag, a, b)?;
    checked(dag, view.node, joined(high, low))
}

fn joined(high: NodeId, low: NodeId) -> Plan
    ensures { result ≡ joined_plan high low }
{
    Plan::two_old(Node::Cat(high, low), high, low)
}
