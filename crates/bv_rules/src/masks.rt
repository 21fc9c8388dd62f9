//! Masks and products with powers of two as cuts.

ghost use Rattle.std.specs.Prelude.{◌≡◌, ◌<◌, ◌≤◌, ◌^◌, ◌-◌, IfSome};
ghost use Rattle.bv_rules.specs.Plans.{IsView, KeepsIf, lowest as lowest_plan};

use crate::cuts::moved_up;
use crate::gate::checked;
use crate::matching::constant_beside;
use crate::plan::{NodeView, Plan, PlanId, step};
use bv_words::mask;
use case_tables::first_of;
use dag::{Dag, Node, NodeId};

/// The first of these rules that applies.
pub(crate) fn first(dag: &Dag, view: NodeView) -> Option<Plan>
    requires { IsView dag.now view.node view.children }
    ensures { KeepsIf dag.now view.node result }
{
    first_of!(and_mask(dag, view), times_power(dag, view))
}

/// `x & 255` is the lowest eight bits of x below zeros.
fn and_mask(dag: &Dag, view: NodeView) -> Option<Plan>
    requires { IsView dag.now view.node view.children }
    ensures { KeepsIf dag.now view.node result }
{
    let Node::And(a, b) = view.node else {
        return None;
    };
    let (x, value) = constant_beside(dag, a, b)?;
    let width = dag.width_at(x)?;
    let bits = ones_of(value)?;
    if bits < width {
        checked(dag, view.node, lowest(width - bits, bits, x))
    } else {
        None
    }
}

/// `x * 8` is x moved up by three places.
fn times_power(dag: &Dag, view: NodeView) -> Option<Plan>
    requires { IsView dag.now view.node view.children }
    ensures { KeepsIf dag.now view.node result }
{
    let Node::Times(a, b) = view.node else {
        return None;
    };
    let (x, value) = constant_beside(dag, a, b)?;
    let width = dag.width_at(x)?;
    let places = exponent_of(value)?;
    if places < width {
        checked(dag, view.node, moved_up(width, x, places))
    } else {
        None
    }
}

/// How many ones a number consists of, from the lowest bit up, if of nothing else.
fn ones_of(value: u64) -> Option<u32>
    ensures is { IfSome result (λ k. value ≡ 2 ^ k - 1) }
    ensures range { IfSome result (λ k. (1 ≤ k) × (k ≤ 64)) }
{
    let bits = 64 - value.leading_zeros();
    if 1 <= bits && bits <= 64 && value == mask(bits) {
        Some(bits)
    } else {
        None
    }
}

/// The exponent of a power of two above 1.
pub(crate) fn exponent_of(value: u64) -> Option<u32>
    ensures is { IfSome result (λ k. value ≡ 2 ^ k) }
    ensures range { IfSome result (λ k. (0 < k) × (k < 64)) }
{
    let places = value.trailing_zeros();
    if 0 < places && places < 64 && value == 1 << places {
        Some(places)
    } else {
        None
    }
}

/// The plan of the lowest bits of a word below so many zeros.
pub(crate) fn lowest(zeros: u32, bits: u32, a: NodeId) -> Plan
    requires { 1 ≤ bits }
    ensures { result ≡ lowest_plan zeros bits a }
{
    let none = PlanId::New(0);
    let front = step(
        Node::Const {
            width: zeros,
            value: 0,
        },
        none,
        none,
        none,
    );
    let kept = step(
        Node::Slice {
            high: bits - 1,
            low: 0,
            a,
        },
        PlanId::Old(a),
        none,
        none,
    );
    Plan::three(
        front,
        kept,
        step(Node::Cat(a, a), PlanId::New(0), PlanId::New(1), none),
    )
}
