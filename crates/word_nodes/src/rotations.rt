//! Rotations of ints and longs by amounts that aren't known: both parts of the word, moved by the masked amount and by
//! what is left of the width. Where nothing is turned the second part is moved by the whole width, and is 0.

ghost use Rattle.std.specs.Prelude.{◌≡◌, ◌%◌, ◌≤◌, ◌<◌, ◌^◌, ◌⊎◌, ℕ, List, IfOk, IfErr, slice_index};
ghost use Rattle.bv_words.specs.Words.{minus, rotate_left, rotate_right};
ghost use Rattle.dag.specs.Graph.{HasWidth, Tells};
ghost use Rattle.rewriter.specs.Building.{BuildFails};
ghost use Rattle.word_nodes.specs.Gains.{Gains};
ghost use Rattle.word_nodes.specs.Moves.{both_moved};

use crate::several::difference;
use crate::single::{both, constant, down, either, up};
use dag::{Dag, DagError, NodeId};
use rewriter::Charge;

/// A word turned up by an amount modulo its width.
pub fn turned_left(
    dag: &mut Dag,
    charge: &mut Charge,
    width: u32,
    a: NodeId,
    amount_width: u32,
    amount: NodeId,
) -> Result<NodeId, DagError>
    requires width { (width ≡ 32) ⊎ (width ≡ 64) }
    requires a { HasWidth dag.old.widths a.0 width }
    requires low { 1 ≤ amount_width }
    requires high { amount_width ≤ 64 }
    requires amount { HasWidth dag.old.widths amount.0 amount_width }
    requires room { width < 2 ^ amount_width }
    ensures tells { IfOk result (λ id. Tells dag.new width (λ values. rotate_left width (slice_index values amount.0) (slice_index values a.0)) id) }
    ensures gains { Gains charge.old charge.new dag.old dag.new 128 14336 }
    ensures cause { IfErr result (BuildFails dag.new) }
{
    let by = masked(dag, charge, width, amount_width, amount)?;
    let rest = remaining(dag, charge, width, amount_width, by)?;
    let id = moved_parts(dag, charge, width, a, amount_width, by, rest)?;
    Ok(id)
}

/// A word turned down by an amount modulo its width.
pub fn turned_right(
    dag: &mut Dag,
    charge: &mut Charge,
    width: u32,
    a: NodeId,
    amount_width: u32,
    amount: NodeId,
) -> Result<NodeId, DagError>
    requires width { (width ≡ 32) ⊎ (width ≡ 64) }
    requires a { HasWidth dag.old.widths a.0 width }
    requires low { 1 ≤ amount_width }
    requires high { amount_width ≤ 64 }
    requires amount { HasWidth dag.old.widths amount.0 amount_width }
    requires room { width < 2 ^ amount_width }
    ensures tells { IfOk result (λ id. Tells dag.new width (λ values. rotate_right width (slice_index values amount.0) (slice_index values a.0)) id) }
    ensures gains { Gains charge.old charge.new dag.old dag.new 128 14336 }
    ensures cause { IfErr result (BuildFails dag.new) }
{
    let by = masked(dag, charge, width, amount_width, amount)?;
    let rest = remaining(dag, charge, width, amount_width, by)?;
    let id = moved_parts(dag, charge, width, a, amount_width, rest, by)?;
    Ok(id)
}

/// An amount modulo 32 or 64.
pub fn masked(
    dag: &mut Dag,
    charge: &mut Charge,
    width: u32,
    amount_width: u32,
    amount: NodeId,
) -> Result<NodeId, DagError>
    requires width { (width ≡ 32) ⊎ (width ≡ 64) }
    requires low { 1 ≤ amount_width }
    requires high { amount_width ≤ 64 }
    requires amount { HasWidth dag.old.widths amount.0 amount_width }
    requires room { width < 2 ^ amount_width }
    ensures tells { IfOk result (λ id. Tells dag.new amount_width (λ values. slice_index values amount.0 % width) id) }
    ensures gains { Gains charge.old charge.new dag.old dag.new 32 2048 }
    ensures cause { IfErr result (BuildFails dag.new) }
{
    let ones = u64::from(width - 1);
    let mask = constant(dag, charge, amount_width, ones)?;
    let id = both(dag, charge, amount_width, amount, mask)?;
    Ok(id)
}

/// What is left of a width behind an amount.
fn remaining(
    dag: &mut Dag,
    charge: &mut Charge,
    width: u32,
    amount_width: u32,
    by: NodeId,
) -> Result<NodeId, DagError>
    requires low { 1 ≤ amount_width }
    requires high { amount_width ≤ 64 }
    requires by { HasWidth dag.old.widths by.0 amount_width }
    requires room { width < 2 ^ amount_width }
    ensures tells { IfOk result (λ id. Tells dag.new amount_width (λ values. minus amount_width width (slice_index values by.0)) id) }
    ensures gains { Gains charge.old charge.new dag.old dag.new 48 3072 }
    ensures cause { IfErr result (BuildFails dag.new) }
{
    let whole = u64::from(width);
    let all = constant(dag, charge, amount_width, whole)?;
    let id = difference(dag, charge, amount_width, all, by)?;
    Ok(id)
}

/// A word moved up by one amount, beside the word moved down by another.
fn moved_parts(
    dag: &mut Dag,
    charge: &mut Charge,
    width: u32,
    a: NodeId,
    amount_width: u32,
    above: NodeId,
    below: NodeId,
) -> Result<NodeId, DagError>
    requires a { HasWidth dag.old.widths a.0 width }
    requires above { HasWidth dag.old.widths above.0 amount_width }
    requires below { HasWidth dag.old.widths below.0 amount_width }
    ensures tells { IfOk result (λ id. Tells dag.new width (λ values. both_moved width (slice_index values a.0) (slice_index values above.0) (slice_index values below.0)) id) }
    ensures gains { Gains charge.old charge.new dag.old dag.new 48 9216 }
    ensures cause { IfErr result (BuildFails dag.new) }
{
    let high = up(dag, charge, width, a, amount_width, above)?;
    let low = down(dag, charge, width, a, amount_width, below)?;
    let id = either(dag, charge, width, high, low)?;
    Ok(id)
}
