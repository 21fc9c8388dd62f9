//! The first rule that applies.

ghost use Rattle.bv_rules.specs.Plans.{IsView, KeepsIf, Views};

use crate::plan::{NodeView, Plan};
use crate::{
    absorbing, choices, comparisons, cuts, divisions, equal, extensions, folding, gather, joints,
    masks, nests, neutral, opposite, order, rotations,
};
use case_tables::first_of;
use dag::Dag;

/// The plan of the first rule that applies to a view, whose node fits the graph and whose children are the nodes that
/// the graph has there. None is no fault: the node is then added as it is.
///
/// What makes constants or takes a node away comes first, then the order of children, and then what makes new nodes,
/// so that a rule finds its operands in one order.
pub fn pick(dag: &Dag, view: NodeView) -> Option<Plan>
    requires { Views dag.now view.node view.children }
    ensures { KeepsIf dag.now view.node result }
{
    dag.known();
    first(dag, view)
}

fn first(dag: &Dag, view: NodeView) -> Option<Plan>
    requires { IsView dag.now view.node view.children }
    ensures { KeepsIf dag.now view.node result }
{
    first_of!(
        neutral::first(dag, view),
        absorbing::first(dag, view),
        folding::first(dag, view),
        equal::first(dag, view),
        order::first(dag, view),
        choices::first(dag, view),
        comparisons::first(dag, view),
        opposite::first(dag, view),
        nests::first(dag, view),
        gather::first(dag, view),
        masks::first(dag, view),
        divisions::first(dag, view),
        cuts::first(dag, view),
        joints::first(dag, view),
        extensions::first(dag, view),
        rotations::first(dag, view)
    )
}
