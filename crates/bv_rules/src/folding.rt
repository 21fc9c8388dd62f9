//! Operations on constants are constants.

ghost use Rattle.std.specs.Prelude.{◌≡◌, IfSome, Some, []};
ghost use Rattle.dag.specs.declared.node.Node.TheVariants.{Const};
ghost use Rattle.dag.specs.Node.{IsWord, kind_value as kind_value_of};
ghost use Rattle.bv_rules.specs.Plans.{IsView, KeepsIf};

use crate::gate::checked;
use crate::plan::{NodeView, Plan};
use bv_words::mask;
use case_tables::first_of;
use dag::{Dag, Node, Word, kind_value, width_by};

/// The first of these rules that applies.
pub(crate) fn first(dag: &Dag, view: NodeView) -> Option<Plan>
    requires { IsView dag.now view.node view.children }
    ensures { KeepsIf dag.now view.node result }
{
    first_of!(fold_one(dag, view), fold_two(dag, view))
}

/// An operation on one constant: `-3`, `(byte) 200`.
fn fold_one(dag: &Dag, view: NodeView) -> Option<Plan>
    requires { IsView dag.now view.node view.children }
    ensures { KeepsIf dag.now view.node result }
{
    if view.node.children().count != 1 {
        return None;
    }
    let x = word(view.children[0])?;
    let value = folded(dag, view.node, x, x)?;
    let width = dag.width_of(view.node)?;
    checked(dag, view.node, Plan::constant(width, value))
}

/// An operation on two constants: `3 + 4`, `1 << 5`.
fn fold_two(dag: &Dag, view: NodeView) -> Option<Plan>
    requires { IsView dag.now view.node view.children }
    ensures { KeepsIf dag.now view.node result }
{
    if view.node.children().count != 2 {
        return None;
    }
    let x = word(view.children[0])?;
    let y = word(view.children[1])?;
    let value = folded(dag, view.node, x, y)?;
    let width = dag.width_of(view.node)?;
    checked(dag, view.node, Plan::constant(width, value))
}

/// The word of a child that is a constant.
fn word(child: Option<Node>) -> Option<Word>
    ensures is { IfSome result (λ w. child ≡ Some (Const w.width w.value)) }
    ensures word { IfSome result (λ w. IsWord w.width w.value) }
{
    match child {
        Some(Node::Const { width, value }) => {
            if 1 <= width && width <= 64 && value <= mask(width) {
                Some(Word { width, value })
            } else {
                None
            }
        }
        _ => None,
    }
}

/// The value of a node over at most two children of these words, which reads no input.
fn folded(dag: &Dag, node: Node, x: Word, y: Word) -> Option<u64>
    requires first { IsWord x.width x.value }
    requires second { IsWord y.width y.value }
    ensures { IfSome result (λ v. v ≡ kind_value_of [] node x y y) }
{
    let form = node.outline().form;
    let second = Some(y.width);
    width_by(dag.shape(), form, Some(x.width), second, second)?;
    Some(kind_value(dag.shape(), &[], node, x, y, y))
}
