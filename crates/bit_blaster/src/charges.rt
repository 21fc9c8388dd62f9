//! The charges of a circuit's nodes together.

ghost use Rattle.std.specs.Prelude.{◌≡◌, ◌↔◌, ◌≤◌, [], IsTrue, IsSome, Some, IfOk, slice_get, slice_index};
ghost use Rattle.axe_io.specs.Shapes.{leaf_widths};
ghost use Rattle.dag.specs.Node.{node_charge};
ghost use Rattle.bit_blaster.specs.Circuit.{AreWide, IsCircuit, units, most_units, width_in};

use axe_io::{Kind, OutPlace, Shape};
use dag::{Node, NodeId, kind_charge, width_by};
use memory::Memory;
use std::alloc::Global;

/// The most units that are made into clauses.
pub const MOST_UNITS: u32 = 16777216;

/// Whether the charges of a circuit's nodes together are at most 16,777,216 units.
pub fn is_affordable(alloc: Global, nodes: &[Node]) -> Result<bool, Memory>
    requires { IsCircuit nodes.now }
    ensures { IfOk result (λ b. IsTrue b ↔ (units nodes.now ≤ most_units)) }
{
    let no_leaves = Shape::of(Vec::new(alloc), OutPlace::Returned, Kind::Int, false);
    let mut widths = Vec::new(alloc);
    let mut sum = 0u64;
    for node in nodes {
        let width = width_of(&no_leaves, &widths, *node);
        sum = sum.saturating_add(charge_of(&widths, width, *node));
        if sum > MOST_UNITS as u64 {
            return Ok(false);
        }
        widths.push(width)?;
    }
    Ok(true)
}

/// The width of a node that fits nodes of these widths. A leaf's is the one that it names, whatever the shape.
fn width_of(no_leaves: &Shape, widths: &[u32], node: Node) -> u32
    requires shape { leaf_widths no_leaves.now.params ≡ [] }
    requires fits { IsSome (width_in widths.now node) }
    ensures { width_in widths.now node ≡ Some result }
{
    if let Node::Leaf { width, .. } = node {
        return width;
    }
    let outline = node.outline();
    let [a, b, c] = outline.children.ids;
    width_by(
        no_leaves,
        outline.form,
        width_at(widths, a),
        width_at(widths, b),
        width_at(widths, c),
    )
    .unwrap()
}

/// The charge of a node of a width over nodes of these widths.
fn charge_of(widths: &[u32], width: u32, node: Node) -> u64
    requires own { width ≤ 64 }
    requires wide { AreWide widths.now }
    ensures { result ≡ node_charge widths.now width node }
{
    let [a, b, c] = node.children().ids;
    kind_charge(
        node,
        width,
        width_or_zero(widths, a),
        width_or_zero(widths, b),
        width_or_zero(widths, c),
    )
}

/// The width at a place, or None from the last on.
fn width_at(widths: &[u32], id: NodeId) -> Option<u32>
    ensures { result ≡ slice_get widths.now id.0 }
{
    widths.get(id.0 as usize).copied()
}

/// The width at a place, or 0 from the last on.
fn width_or_zero(widths: &[u32], id: NodeId) -> u32
    requires { AreWide widths.now }
    ensures is { result ≡ slice_index widths.now id.0 }
    ensures high { result ≤ 64 }
{
    width_at(widths, id).unwrap_or(0)
}
