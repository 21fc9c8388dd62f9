//! Local rules that replace a node by a plan of the same value.
//!
//! A rule looks at a node and its children's nodes, and answers a plan: at most 16 nodes over those of the graph, the
//! last of which has the viewed node's width and, on every input, its value. A rule that doesn't apply answers None.
//! No rule multiplies out a sum.
//!
//! - `plan`: views, plans and their makers
//! - `gate`: the test that a plan fits, keeps the width and isn't dear; the proof of a rule is its value alone
//! - `neutral`, `absorbing`, `folding`, `equal`, `order`, `choices`, `comparisons`, `opposite`, `nests`, `gather`,
//!   `masks`, `divisions`, `cuts`, `joints`, `extensions`, `rotations`: the rules, family by family
//! - `matching`: what several families look for
//! - `picking`: the first rule that applies
//!
//! `specs/Plans.antt` says what a plan is and what it keeps; `docs` of each rule name its pattern and its result.
#![tactic(auto)]

mod absorbing;
mod choices;
mod comparisons;
mod cuts;
mod divisions;
mod equal;
mod extensions;
mod folding;
mod gate;
mod gather;
mod joints;
mod masks;
mod matching;
mod nests;
mod neutral;
mod opposite;
mod order;
mod picking;
mod plan;
mod rotations;

pub use picking::pick;
pub use plan::{NodeView, Plan, PlanId, PlanNode, view_of};
