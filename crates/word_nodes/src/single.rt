//! A word from one node.

ghost use Rattle.std.specs.Prelude.{◌≡◌, ◌+◌, ◌-◌, ◌*◌, ◌≤◌, ◌<◌, ◌^◌, ℕ, List, IfOk, IfErr, IsSome, cond, nat_eq, nat_lt, slice_index, bit_and, bit_or, bit_xor};
ghost use Rattle.bv_words.specs.Words.{one_if, bit_not, neg, plus, times, udiv, urem, slt, shl, shr, slice, cat, sx};
ghost use Rattle.dag.specs.Node.{charge_at};
ghost use Rattle.dag.specs.Graph.{Makes, HasWidth, Tells, fits_width};
ghost use Rattle.rewriter.specs.Building.{BuildFails};
ghost use Rattle.word_nodes.specs.Gains.{Gains};

use dag::{Dag, DagError, Node, NodeId};
use rewriter::{Charge, build};

/// A node that fits, as the rules make it.
pub(crate) fn make(dag: &mut Dag, charge: &mut Charge, node: Node) -> Result<NodeId, DagError>
    requires { IsSome (fits_width dag.old node) }
    ensures makes { IfOk result (λ id. Makes dag.old dag.new node id.0) }
    ensures gains { Gains charge.old charge.new dag.old dag.new 16 (4 * charge_at 64 node) }
    ensures cause { IfErr result (BuildFails dag.new) }
{
    dag.known();
    build(dag, node, charge)
}

/// A constant below `2 ^ width`.
pub fn constant(
    dag: &mut Dag,
    charge: &mut Charge,
    width: u32,
    value: u64,
) -> Result<NodeId, DagError>
    requires low { 1 ≤ width }
    requires high { width ≤ 64 }
    requires word { value < 2 ^ width }
    ensures tells { IfOk result (λ id. Tells dag.new width (λ _. value) id) }
    ensures gains { Gains charge.old charge.new dag.old dag.new 16 1024 }
    ensures cause { IfErr result (BuildFails dag.new) }
{
    let id = make(dag, charge, Node::Const { width, value })?;
    Ok(id)
}

/// Each bit turned.
pub fn inverted(
    dag: &mut Dag,
    charge: &mut Charge,
    width: u32,
    a: NodeId,
) -> Result<NodeId, DagError>
    requires a { HasWidth dag.old.widths a.0 width }
    ensures tells { IfOk result (λ id. Tells dag.new width (λ values. bit_not width (slice_index values a.0)) id) }
    ensures gains { Gains charge.old charge.new dag.old dag.new 16 1024 }
    ensures cause { IfErr result (BuildFails dag.new) }
{
    let id = make(dag, charge, Node::Not(a))?;
    Ok(id)
}

/// The bits that are 1 in both words.
pub fn both(
    dag: &mut Dag,
    charge: &mut Charge,
    width: u32,
    a: NodeId,
    b: NodeId,
) -> Result<NodeId, DagError>
    requires a { HasWidth dag.old.widths a.0 width }
    requires b { HasWidth dag.old.widths b.0 width }
    ensures tells { IfOk result (λ id. Tells dag.new width (λ values. bit_and (slice_index values a.0) (slice_index values b.0)) id) }
    ensures gains { Gains charge.old charge.new dag.old dag.new 16 1024 }
    ensures cause { IfErr result (BuildFails dag.new) }
{
    let id = make(dag, charge, Node::And(a, b))?;
    Ok(id)
}

/// The bits that are 1 in one or both words.
pub fn either(
    dag: &mut Dag,
    charge: &mut Charge,
    width: u32,
    a: NodeId,
    b: NodeId,
) -> Result<NodeId, DagError>
    requires a { HasWidth dag.old.widths a.0 width }
    requires b { HasWidth dag.old.widths b.0 width }
    ensures tells { IfOk result (λ id. Tells dag.new width (λ values. bit_or (slice_index values a.0) (slice_index values b.0)) id) }
    ensures gains { Gains charge.old charge.new dag.old dag.new 16 1024 }
    ensures cause { IfErr result (BuildFails dag.new) }
{
    let id = make(dag, charge, Node::Or(a, b))?;
    Ok(id)
}

/// The bits that are 1 in just one of two words.
pub fn differ(
    dag: &mut Dag,
    charge: &mut Charge,
    width: u32,
    a: NodeId,
    b: NodeId,
) -> Result<NodeId, DagError>
    requires a { HasWidth dag.old.widths a.0 width }
    requires b { HasWidth dag.old.widths b.0 width }
    ensures tells { IfOk result (λ id. Tells dag.new width (λ values. bit_xor (slice_index values a.0) (slice_index values b.0)) id) }
    ensures gains { Gains charge.old charge.new dag.old dag.new 16 1024 }
    ensures cause { IfErr result (BuildFails dag.new) }
{
    let id = make(dag, charge, Node::Xor(a, b))?;
    Ok(id)
}

/// Minus a word.
pub fn negative(
    dag: &mut Dag,
    charge: &mut Charge,
    width: u32,
    a: NodeId,
) -> Result<NodeId, DagError>
    requires a { HasWidth dag.old.widths a.0 width }
    ensures tells { IfOk result (λ id. Tells dag.new width (λ values. neg width (slice_index values a.0)) id) }
    ensures gains { Gains charge.old charge.new dag.old dag.new 16 1024 }
    ensures cause { IfErr result (BuildFails dag.new) }
{
    let id = make(dag, charge, Node::Neg(a))?;
    Ok(id)
}

/// The sum of two words.
pub fn sum(
    dag: &mut Dag,
    charge: &mut Charge,
    width: u32,
    a: NodeId,
    b: NodeId,
) -> Result<NodeId, DagError>
    requires a { HasWidth dag.old.widths a.0 width }
    requires b { HasWidth dag.old.widths b.0 width }
    ensures tells { IfOk result (λ id. Tells dag.new width (λ values. plus width (slice_index values a.0) (slice_index values b.0)) id) }
    ensures gains { Gains charge.old charge.new dag.old dag.new 16 1024 }
    ensures cause { IfErr result (BuildFails dag.new) }
{
    let id = make(dag, charge, Node::Plus(a, b))?;
    Ok(id)
}

/// The product of two words.
pub fn product(
    dag: &mut Dag,
    charge: &mut Charge,
    width: u32,
    a: NodeId,
    b: NodeId,
) -> Result<NodeId, DagError>
    requires a { HasWidth dag.old.widths a.0 width }
    requires b { HasWidth dag.old.widths b.0 width }
    ensures tells { IfOk result (λ id. Tells dag.new width (λ values. times width (slice_index values a.0) (slice_index values b.0)) id) }
    ensures gains { Gains charge.old charge.new dag.old dag.new 16 65536 }
    ensures cause { IfErr result (BuildFails dag.new) }
{
    let id = make(dag, charge, Node::Times(a, b))?;
    Ok(id)
}

/// The quotient of two words as plain numbers; 0 where the second is 0.
pub fn quotient(
    dag: &mut Dag,
    charge: &mut Charge,
    width: u32,
    a: NodeId,
    b: NodeId,
) -> Result<NodeId, DagError>
    requires a { HasWidth dag.old.widths a.0 width }
    requires b { HasWidth dag.old.widths b.0 width }
    ensures tells { IfOk result (λ id. Tells dag.new width (λ values. udiv (slice_index values a.0) (slice_index values b.0)) id) }
    ensures gains { Gains charge.old charge.new dag.old dag.new 16 131072 }
    ensures cause { IfErr result (BuildFails dag.new) }
{
    let id = make(dag, charge, Node::Udiv(a, b))?;
    Ok(id)
}

/// The remainder of two words as plain numbers; the first where the second is 0.
pub fn remainder(
    dag: &mut Dag,
    charge: &mut Charge,
    width: u32,
    a: NodeId,
    b: NodeId,
) -> Result<NodeId, DagError>
    requires a { HasWidth dag.old.widths a.0 width }
    requires b { HasWidth dag.old.widths b.0 width }
    ensures tells { IfOk result (λ id. Tells dag.new width (λ values. urem (slice_index values a.0) (slice_index values b.0)) id) }
    ensures gains { Gains charge.old charge.new dag.old dag.new 16 131072 }
    ensures cause { IfErr result (BuildFails dag.new) }
{
    let id = make(dag, charge, Node::Urem(a, b))?;
    Ok(id)
}

/// 1 where two words of a width are equal.
pub fn equal(
    dag: &mut Dag,
    charge: &mut Charge,
    width: u32,
    a: NodeId,
    b: NodeId,
) -> Result<NodeId, DagError>
    requires a { HasWidth dag.old.widths a.0 width }
    requires b { HasWidth dag.old.widths b.0 width }
    ensures tells { IfOk result (λ id. Tells dag.new 1 (λ values. one_if (nat_eq (slice_index values a.0) (slice_index values b.0))) id) }
    ensures gains { Gains charge.old charge.new dag.old dag.new 16 1024 }
    ensures cause { IfErr result (BuildFails dag.new) }
{
    let id = make(dag, charge, Node::Eq(a, b))?;
    Ok(id)
}

/// 1 where a word is below another as plain numbers.
pub fn below(
    dag: &mut Dag,
    charge: &mut Charge,
    width: u32,
    a: NodeId,
    b: NodeId,
) -> Result<NodeId, DagError>
    requires a { HasWidth dag.old.widths a.0 width }
    requires b { HasWidth dag.old.widths b.0 width }
    ensures tells { IfOk result (λ id. Tells dag.new 1 (λ values. one_if (nat_lt (slice_index values a.0) (slice_index values b.0))) id) }
    ensures gains { Gains charge.old charge.new dag.old dag.new 16 1024 }
    ensures cause { IfErr result (BuildFails dag.new) }
{
    let id = make(dag, charge, Node::Ult(a, b))?;
    Ok(id)
}

/// 1 where a word is below another as signed numbers.
pub fn less(
    dag: &mut Dag,
    charge: &mut Charge,
    width: u32,
    a: NodeId,
    b: NodeId,
) -> Result<NodeId, DagError>
    requires a { HasWidth dag.old.widths a.0 width }
    requires b { HasWidth dag.old.widths b.0 width }
    ensures tells { IfOk result (λ id. Tells dag.new 1 (λ values. one_if (slt width (slice_index values a.0) (slice_index values b.0))) id) }
    ensures gains { Gains charge.old charge.new dag.old dag.new 16 1024 }
    ensures cause { IfErr result (BuildFails dag.new) }
{
    let id = make(dag, charge, Node::Slt(a, b))?;
    Ok(id)
}

/// The second word where a bit is 1, and the third elsewhere.
pub fn choose(
    dag: &mut Dag,
    charge: &mut Charge,
    width: u32,
    bit: NodeId,
    a: NodeId,
    b: NodeId,
) -> Result<NodeId, DagError>
    requires bit { HasWidth dag.old.widths bit.0 1 }
    requires a { HasWidth dag.old.widths a.0 width }
    requires b { HasWidth dag.old.widths b.0 width }
    ensures tells { IfOk result (λ id. Tells dag.new width (λ values. cond (nat_eq (slice_index values bit.0) 1) (slice_index values a.0) (slice_index values b.0)) id) }
    ensures gains { Gains charge.old charge.new dag.old dag.new 16 1024 }
    ensures cause { IfErr result (BuildFails dag.new) }
{
    let id = make(dag, charge, Node::Ite(bit, a, b))?;
    Ok(id)
}

/// A word moved up by an amount of any width, which is not masked.
pub fn up(
    dag: &mut Dag,
    charge: &mut Charge,
    width: u32,
    a: NodeId,
    amount_width: u32,
    by: NodeId,
) -> Result<NodeId, DagError>
    requires a { HasWidth dag.old.widths a.0 width }
    requires by { HasWidth dag.old.widths by.0 amount_width }
    ensures tells { IfOk result (λ id. Tells dag.new width (λ values. shl width (slice_index values a.0) (slice_index values by.0)) id) }
    ensures gains { Gains charge.old charge.new dag.old dag.new 16 4096 }
    ensures cause { IfErr result (BuildFails dag.new) }
{
    let id = make(dag, charge, Node::Shl(a, by))?;
    Ok(id)
}

/// A word moved down by an amount of any width, which is not masked, with zeros coming in.
pub fn down(
    dag: &mut Dag,
    charge: &mut Charge,
    width: u32,
    a: NodeId,
    amount_width: u32,
    by: NodeId,
) -> Result<NodeId, DagError>
    requires a { HasWidth dag.old.widths a.0 width }
    requires by { HasWidth dag.old.widths by.0 amount_width }
    ensures tells { IfOk result (λ id. Tells dag.new width (λ values. shr width (slice_index values a.0) (slice_index values by.0)) id) }
    ensures gains { Gains charge.old charge.new dag.old dag.new 16 4096 }
    ensures cause { IfErr result (BuildFails dag.new) }
{
    let id = make(dag, charge, Node::Shr(a, by))?;
    Ok(id)
}

/// Bits `low` to `high` of a word, both included.
pub fn part(
    dag: &mut Dag,
    charge: &mut Charge,
    width: u32,
    high: u32,
    low: u32,
    a: NodeId,
) -> Result<NodeId, DagError>
    requires a { HasWidth dag.old.widths a.0 width }
    requires order { low ≤ high }
    requires within { high < width }
    ensures tells { IfOk result (λ id. Tells dag.new (high - low + 1) (λ values. slice high low (slice_index values a.0)) id) }
    ensures gains { Gains charge.old charge.new dag.old dag.new 16 1024 }
    ensures cause { IfErr result (BuildFails dag.new) }
{
    let id = make(dag, charge, Node::Slice { high, low, a })?;
    Ok(id)
}

/// The word of `new_width` bits with the signed value of a word that is no wider.
pub fn extended(
    dag: &mut Dag,
    charge: &mut Charge,
    new_width: u32,
    width: u32,
    a: NodeId,
) -> Result<NodeId, DagError>
    requires a { HasWidth dag.old.widths a.0 width }
    requires order { width ≤ new_width }
    requires high { new_width ≤ 64 }
    ensures tells { IfOk result (λ id. Tells dag.new new_width (λ values. sx new_width width (slice_index values a.0)) id) }
    ensures gains { Gains charge.old charge.new dag.old dag.new 16 1024 }
    ensures cause { IfErr result (BuildFails dag.new) }
{
    let id = make(
        dag,
        charge,
        Node::Sext {
            width: new_width,
            a,
        },
    )?;
    Ok(id)
}

/// A word above another one.
pub fn joined(
    dag: &mut Dag,
    charge: &mut Charge,
    high_width: u32,
    a: NodeId,
    low_width: u32,
    b: NodeId,
) -> Result<NodeId, DagError>
    requires a { HasWidth dag.old.widths a.0 high_width }
    requires b { HasWidth dag.old.widths b.0 low_width }
    requires both { high_width + low_width ≤ 64 }
    ensures tells { IfOk result (λ id. Tells dag.new (high_width + low_width) (λ values. cat high_width (slice_index values a.0) low_width (slice_index values b.0)) id) }
    ensures gains { Gains charge.old charge.new dag.old dag.new 16 1024 }
    ensures cause { IfErr result (BuildFails dag.new) }
{
    let id = make(dag, charge, Node::Cat(a, b))?;
    Ok(id)
}
