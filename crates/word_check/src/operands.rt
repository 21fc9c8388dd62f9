//! The operands of And, or of Or, as sets of nodes.

ghost use Rattle.std.specs.Prelude.{◌≡◌, ◌<◌, ℕ, List, IsTrue, IfOk, IfSome, length};
ghost use Rattle.bit_blaster.specs.Circuit.{AreWide};
ghost use Rattle.word_check.specs.Valuation.{AlwaysSame};
ghost use Rattle.word_check.specs.Operands.{AreOperands, IsJoined, KeepsJoined};

use crate::members::no_members;
use crate::parts::node_at;
use dag::Node;
use memory::Memory;
use std::alloc::Global;

/// And, or Or.
#[derive(Clone, Copy)]
pub enum Joining {
    And,
    Or,
}

/// Whether two nodes are And, or Or, of the same operands, where an operand of the same kind counts as its own operands.
pub fn have_same_operands(
    alloc: Global,
    nodes: &[Node],
    first: u32,
    second: u32,
) -> Result<bool, Memory>
    requires first { first < length nodes.now }
    requires second { second < length nodes.now }
    ensures { IfOk result (λ b. IsTrue b → (widths : List ℕ) → length widths ≡ length nodes.now → AreWide widths → AlwaysSame nodes.now widths first second) }
{
    let Some(joining) = joining_at(nodes, first as usize) else {
        return Ok(false);
    };
    let left = operands_of(alloc, nodes, joining, first as usize)?;
    let right = operands_of(alloc, nodes, joining, second as usize)?;
    Ok(are_same(&left, &right))
}

/// Whether the node at a place is And or Or, or None where it is neither.
fn joining_at(nodes: &[Node], place: usize) -> Option<Joining> {
    match node_at(nodes, place)? {
        Node::And(..) => Some(Joining::And),
        Node::Or(..) => Some(Joining::Or),
        _ => None,
    }
}

/// The operands of the node at a place, or the node alone where it isn't of this kind. Each member of the kind, the last
/// place first, is replaced by its two.
fn operands_of(
    alloc: Global,
    nodes: &[Node],
    joining: Joining,
    place: usize,
) -> Result<Vec<bool>, Memory>
    requires { place < length nodes.now }
    ensures { IfOk result (λ m. AreOperands nodes.now joining place m.items) }
{
    let count = nodes.len();
    let mut members = no_members(alloc, count)?;
    members[place] = true;
    for i in 0..count {
        replace(nodes, joining, &mut members, count - 1 - i);
    }
    Ok(members)
}

/// Replaces a member of this kind by its operands.
fn replace(nodes: &[Node], joining: Joining, members: &mut Vec<bool>, place: usize)
    requires { place < length members.old.items }
    ensures size { length members.new.items ≡ length members.old.items }
    ensures joined { KeepsJoined nodes.now joining members.old.items members.new.items }
{
    if !members[place] {
        return;
    }
    let Some((a, b)) = two_joined(nodes, joining, place) else {
        return;
    };
    if a >= members.len() || b >= members.len() {
        return;
    }
    members[place] = false;
    members[a] = true;
    members[b] = true;
}

/// The places of the operands of the node at a place, where it is of this kind.
fn two_joined(nodes: &[Node], joining: Joining, place: usize) -> Option<(usize, usize)>
    ensures { IfSome result (λ p. IsJoined nodes.now joining place p.0 p.1) }
{
    match (joining, node_at(nodes, place)?) {
        (Joining::And, Node::And(a, b)) => Some((a.0 as usize, b.0 as usize)),
        (Joining::Or, Node::Or(a, b)) => Some((a.0 as usize, b.0 as usize)),
        _ => None,
    }
}

/// Whether two sets are one.
fn are_same(left: &[bool], right: &[bool]) -> bool
    ensures { IsTrue result → left.now ≡ right.now }
{
    left == right
}
