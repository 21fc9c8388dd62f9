//! A word from several nodes.

ghost use Rattle.std.specs.Prelude.{◌≤◌, ◌<◌, ℕ, List, IfOk, IfErr, slice_index};
ghost use Rattle.bv_words.specs.Words.{chop, minus};
ghost use Rattle.dag.specs.Graph.{HasWidth, Tells};
ghost use Rattle.rewriter.specs.Building.{BuildFails};
ghost use Rattle.word_nodes.specs.Gains.{Gains};
ghost use Rattle.word_nodes.specs.Moves.{sign_word, down_signed as down_signed_of};

use crate::single::{constant, differ, down, extended, joined, negative, part, sum};
use dag::{Dag, DagError, NodeId};
use rewriter::Charge;

/// The difference of two words.
pub fn difference(
    dag: &mut Dag,
    charge: &mut Charge,
    width: u32,
    a: NodeId,
    b: NodeId,
) -> Result<NodeId, DagError>
    requires a { HasWidth dag.old.widths a.0 width }
    requires b { HasWidth dag.old.widths b.0 width }
    ensures tells { IfOk result (λ id. Tells dag.new width (λ values. minus width (slice_index values a.0) (slice_index values b.0)) id) }
    ensures gains { Gains charge.old charge.new dag.old dag.new 32 2048 }
    ensures cause { IfErr result (BuildFails dag.new) }
{
    let less = negative(dag, charge, width, b)?;
    let id = sum(dag, charge, width, a, less)?;
    Ok(id)
}

/// The lowest bits of a word that has at least so many.
pub fn low_bits(
    dag: &mut Dag,
    charge: &mut Charge,
    width: u32,
    bits: u32,
    a: NodeId,
) -> Result<NodeId, DagError>
    requires a { HasWidth dag.old.widths a.0 width }
    requires low { 1 ≤ bits }
    requires high { bits ≤ width }
    ensures tells { IfOk result (λ id. Tells dag.new bits (λ values. chop bits (slice_index values a.0)) id) }
    ensures gains { Gains charge.old charge.new dag.old dag.new 16 1024 }
    ensures cause { IfErr result (BuildFails dag.new) }
{
    let id = part(dag, charge, width, bits - 1, 0, a)?;
    Ok(id)
}

/// A word below zeros, up to a greater width.
pub fn below_zeros(
    dag: &mut Dag,
    charge: &mut Charge,
    new_width: u32,
    width: u32,
    a: NodeId,
) -> Result<NodeId, DagError>
    requires a { HasWidth dag.old.widths a.0 width }
    requires order { width < new_width }
    requires high { new_width ≤ 64 }
    ensures tells { IfOk result (λ id. Tells dag.new new_width (λ values. slice_index values a.0) id) }
    ensures gains { Gains charge.old charge.new dag.old dag.new 32 2048 }
    ensures cause { IfErr result (BuildFails dag.new) }
{
    let zeros = constant(dag, charge, new_width - width, 0)?;
    let id = joined(dag, charge, new_width - width, zeros, width, a)?;
    Ok(id)
}

/// The word whose bits are all the sign of a word.
pub fn sign(dag: &mut Dag, charge: &mut Charge, width: u32, a: NodeId) -> Result<NodeId, DagError>
    requires a { HasWidth dag.old.widths a.0 width }
    requires low { 1 ≤ width }
    requires high { width ≤ 64 }
    ensures tells { IfOk result (λ id. Tells dag.new width (λ values. sign_word width (slice_index values a.0)) id) }
    ensures gains { Gains charge.old charge.new dag.old dag.new 32 2048 }
    ensures cause { IfErr result (BuildFails dag.new) }
{
    let top = part(dag, charge, width, width - 1, width - 1, a)?;
    let id = extended(dag, charge, width, 1, top)?;
    Ok(id)
}

/// A word moved down by an amount of any width, which is not masked, with its sign coming in: each bit that is the sign
/// is turned before and after.
pub fn down_signed(
    dag: &mut Dag,
    charge: &mut Charge,
    width: u32,
    a: NodeId,
    amount_width: u32,
    by: NodeId,
) -> Result<NodeId, DagError>
    requires a { HasWidth dag.old.widths a.0 width }
    requires low { 1 ≤ width }
    requires high { width ≤ 64 }
    requires by { HasWidth dag.old.widths by.0 amount_width }
    ensures tells { IfOk result (λ id. Tells dag.new width (λ values. down_signed_of width (slice_index values a.0) (slice_index values by.0)) id) }
    ensures gains { Gains charge.old charge.new dag.old dag.new 80 8192 }
    ensures cause { IfErr result (BuildFails dag.new) }
{
    let sign = sign(dag, charge, width, a)?;
    let turned = differ(dag, charge, width, a, sign)?;
    let moved = down(dag, charge, width, turned, amount_width, by)?;
    let id = differ(dag, charge, width, moved, sign)?;
    Ok(id)
}
