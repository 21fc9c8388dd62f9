//! The bits of each kind of node, from the rows of its children.

ghost use Rattle.std.specs.Prelude.{◌≡◌, ◌+◌, ◌<◌, ◌≤◌, ◌^◌, [], IfOk, IsSome, length, slice_get, slice_index_or};
ghost use Rattle.cnf_clauses.specs.Clause.{IsOver};
ghost use Rattle.bit_blaster.specs.Circuit.{width_in};
ghost use Rattle.bit_blaster.specs.NodeBits.{IsNodeBits, IsFresh, AreRows, IsReady, widths};
ghost use Rattle.dag.specs.Node.{same_width, test_width, choice_width, cut_width, joined_width, widened_width, shifted_width};

use crate::constants::constants;
use crate::division::division;
use crate::plain::fresh;
use crate::products::times;
use crate::shifts::shifted;
use crate::wires::{extended, joined, part, signed_below, single};
use crate::words;
use cnf_clauses::{Formula, Lit, Rows};
use dag::{Node, NodeId};
use memory::Memory;
use std::alloc::Global;

/// The row of a child.
#[tactic(auto, using(crate::proofs::NodeLemmas::over_row, crate::proofs::NodeLemmas::low_row, crate::proofs::NodeLemmas::high_row, crate::proofs::NodeLemmas::there_row))]
fn one<'a>(f: &Formula, rows: &'a Rows<Lit>, a: NodeId) -> &'a [Lit]
    requires rows { AreRows f.now rows.now }
    requires there { IsSome (slice_get (widths rows.now) a.0) }
    ensures is { result.now ≡ slice_index_or rows.now a.0 [] }
    ensures inside { IsOver f.now.variables result.now }
    ensures width { slice_get (widths rows.now) a.0 ≡ Some (length result.now) }
    ensures low { 1 ≤ length result.now }
    ensures high { length result.now ≤ 64 }
{
    rows.row(a.0 as usize)
}

/// The rows of two children of one width.
fn two<'a>(f: &Formula, rows: &'a Rows<Lit>, a: NodeId, b: NodeId) -> (&'a [Lit], &'a [Lit])
    requires rows { AreRows f.now rows.now }
    requires fits { IsSome (same_width (slice_get (widths rows.now) a.0) (slice_get (widths rows.now) b.0)) }
    ensures first { result.0.now ≡ slice_index_or rows.now a.0 [] }
    ensures second { result.1.now ≡ slice_index_or rows.now b.0 [] }
    ensures first_in { IsOver f.now.variables result.0.now }
    ensures second_in { IsOver f.now.variables result.1.now }
    ensures width { same_width (slice_get (widths rows.now) a.0) (slice_get (widths rows.now) b.0) ≡ Some (length result.0.now) }
    ensures same { length result.0.now ≡ length result.1.now }
    ensures low { 1 ≤ length result.0.now }
    ensures high { length result.0.now ≤ 64 }
{
    (one(f, rows, a), one(f, rows, b))
}

fn and_bits(
    alloc: Global,
    f: &mut Formula,
    rows: &Rows<Lit>,
    a: NodeId,
    b: NodeId,
) -> Result<Vec<Lit>, Memory>
    requires ready { IsReady f.old rows.now }
    requires fits { IsSome (same_width (slice_get (widths rows.now) a.0) (slice_get (widths rows.now) b.0)) }
    ensures { IfOk result (λ r. IsNodeBits f.old f.new rows.now (Node.And a b) r.items) }
{
    let (xs, ys) = two(f, rows, a, b);
    let out = words::and(alloc, f, xs, ys)?;
    Ok(out)
}

fn or_bits(
    alloc: Global,
    f: &mut Formula,
    rows: &Rows<Lit>,
    a: NodeId,
    b: NodeId,
) -> Result<Vec<Lit>, Memory>
    requires ready { IsReady f.old rows.now }
    requires fits { IsSome (same_width (slice_get (widths rows.now) a.0) (slice_get (widths rows.now) b.0)) }
    ensures { IfOk result (λ r. IsNodeBits f.old f.new rows.now (Node.Or a b) r.items) }
{
    let (xs, ys) = two(f, rows, a, b);
    let out = words::or(alloc, f, xs, ys)?;
    Ok(out)
}

fn xor_bits(
    alloc: Global,
    f: &mut Formula,
    rows: &Rows<Lit>,
    a: NodeId,
    b: NodeId,
) -> Result<Vec<Lit>, Memory>
    requires ready { IsReady f.old rows.now }
    requires fits { IsSome (same_width (slice_get (widths rows.now) a.0) (slice_get (widths rows.now) b.0)) }
    ensures { IfOk result (λ r. IsNodeBits f.old f.new rows.now (Node.Xor a b) r.items) }
{
    let (xs, ys) = two(f, rows, a, b);
    let out = words::xor(alloc, f, xs, ys)?;
    Ok(out)
}

fn plus_bits(
    alloc: Global,
    f: &mut Formula,
    rows: &Rows<Lit>,
    a: NodeId,
    b: NodeId,
) -> Result<Vec<Lit>, Memory>
    requires ready { IsReady f.old rows.now }
    requires fits { IsSome (same_width (slice_get (widths rows.now) a.0) (slice_get (widths rows.now) b.0)) }
    ensures { IfOk result (λ r. IsNodeBits f.old f.new rows.now (Node.Plus a b) r.items) }
{
    let (xs, ys) = two(f, rows, a, b);
    let out = words::plus(alloc, f, xs, ys)?;
    Ok(out)
}

fn times_bits(
    alloc: Global,
    f: &mut Formula,
    rows: &Rows<Lit>,
    a: NodeId,
    b: NodeId,
) -> Result<Vec<Lit>, Memory>
    requires ready { IsReady f.old rows.now }
    requires fits { IsSome (same_width (slice_get (widths rows.now) a.0) (slice_get (widths rows.now) b.0)) }
    ensures { IfOk result (λ r. IsNodeBits f.old f.new rows.now (Node.Times a b) r.items) }
{
    let (xs, ys) = two(f, rows, a, b);
    let out = times(alloc, f, xs, ys)?;
    Ok(out)
}

fn udiv_bits(
    alloc: Global,
    f: &mut Formula,
    rows: &Rows<Lit>,
    a: NodeId,
    b: NodeId,
) -> Result<Vec<Lit>, Memory>
    requires ready { IsReady f.old rows.now }
    requires fits { IsSome (same_width (slice_get (widths rows.now) a.0) (slice_get (widths rows.now) b.0)) }
    ensures { IfOk result (λ r. IsNodeBits f.old f.new rows.now (Node.Udiv a b) r.items) }
{
    let (xs, ys) = two(f, rows, a, b);
    let (out, _) = division(alloc, f, xs, ys)?;
    Ok(out)
}

fn urem_bits(
    alloc: Global,
    f: &mut Formula,
    rows: &Rows<Lit>,
    a: NodeId,
    b: NodeId,
) -> Result<Vec<Lit>, Memory>
    requires ready { IsReady f.old rows.now }
    requires fits { IsSome (same_width (slice_get (widths rows.now) a.0) (slice_get (widths rows.now) b.0)) }
    ensures { IfOk result (λ r. IsNodeBits f.old f.new rows.now (Node.Urem a b) r.items) }
{
    let (xs, ys) = two(f, rows, a, b);
    let (_, out) = division(alloc, f, xs, ys)?;
    Ok(out)
}

fn equal_bits(
    alloc: Global,
    f: &mut Formula,
    rows: &Rows<Lit>,
    a: NodeId,
    b: NodeId,
) -> Result<Vec<Lit>, Memory>
    requires ready { IsReady f.old rows.now }
    requires fits { IsSome (test_width (same_width (slice_get (widths rows.now) a.0) (slice_get (widths rows.now) b.0))) }
    ensures { IfOk result (λ r. IsNodeBits f.old f.new rows.now (Node.Eq a b) r.items) }
{
    let (xs, ys) = two(f, rows, a, b);
    let test = words::equal(alloc, f, xs, ys)?;
    single(alloc, test)
}

fn ult_bits(
    alloc: Global,
    f: &mut Formula,
    rows: &Rows<Lit>,
    a: NodeId,
    b: NodeId,
) -> Result<Vec<Lit>, Memory>
    requires ready { IsReady f.old rows.now }
    requires fits { IsSome (test_width (same_width (slice_get (widths rows.now) a.0) (slice_get (widths rows.now) b.0))) }
    ensures { IfOk result (λ r. IsNodeBits f.old f.new rows.now (Node.Ult a b) r.items) }
{
    let (xs, ys) = two(f, rows, a, b);
    let test = words::below(alloc, f, xs, ys)?;
    single(alloc, test)
}

fn slt_bits(
    alloc: Global,
    f: &mut Formula,
    rows: &Rows<Lit>,
    a: NodeId,
    b: NodeId,
) -> Result<Vec<Lit>, Memory>
    requires ready { IsReady f.old rows.now }
    requires fits { IsSome (test_width (same_width (slice_get (widths rows.now) a.0) (slice_get (widths rows.now) b.0))) }
    ensures { IfOk result (λ r. IsNodeBits f.old f.new rows.now (Node.Slt a b) r.items) }
{
    let (xs, ys) = two(f, rows, a, b);
    let test = signed_below(alloc, f, xs, ys)?;
    single(alloc, test)
}

fn not_bits(alloc: Global, f: &mut Formula, rows: &Rows<Lit>, a: NodeId) -> Result<Vec<Lit>, Memory>
    requires ready { IsReady f.old rows.now }
    requires fits { IsSome (slice_get (widths rows.now) a.0) }
    ensures { IfOk result (λ r. IsNodeBits f.old f.new rows.now (Node.Not a) r.items) }
{
    let xs = one(f, rows, a);
    words::inverted(alloc, xs)
}

fn neg_bits(alloc: Global, f: &mut Formula, rows: &Rows<Lit>, a: NodeId) -> Result<Vec<Lit>, Memory>
    requires ready { IsReady f.old rows.now }
    requires fits { IsSome (slice_get (widths rows.now) a.0) }
    ensures { IfOk result (λ r. IsNodeBits f.old f.new rows.now (Node.Neg a) r.items) }
{
    let xs = one(f, rows, a);
    let out = words::negated(alloc, f, xs)?;
    Ok(out)
}

fn shl_bits(
    alloc: Global,
    f: &mut Formula,
    rows: &Rows<Lit>,
    a: NodeId,
    b: NodeId,
) -> Result<Vec<Lit>, Memory>
    requires ready { IsReady f.old rows.now }
    requires fits { IsSome (shifted_width (slice_get (widths rows.now) a.0) (slice_get (widths rows.now) b.0)) }
    ensures { IfOk result (λ r. IsNodeBits f.old f.new rows.now (Node.Shl a b) r.items) }
{
    let xs = one(f, rows, a);
    let ys = one(f, rows, b);
    let out = shifted(alloc, f, true, xs, ys)?;
    Ok(out)
}

fn shr_bits(
    alloc: Global,
    f: &mut Formula,
    rows: &Rows<Lit>,
    a: NodeId,
    b: NodeId,
) -> Result<Vec<Lit>, Memory>
    requires ready { IsReady f.old rows.now }
    requires fits { IsSome (shifted_width (slice_get (widths rows.now) a.0) (slice_get (widths rows.now) b.0)) }
    ensures { IfOk result (λ r. IsNodeBits f.old f.new rows.now (Node.Shr a b) r.items) }
{
    let xs = one(f, rows, a);
    let ys = one(f, rows, b);
    let out = shifted(alloc, f, false, xs, ys)?;
    Ok(out)
}

fn ite_bits(
    alloc: Global,
    f: &mut Formula,
    rows: &Rows<Lit>,
    a: NodeId,
    b: NodeId,
    c: NodeId,
) -> Result<Vec<Lit>, Memory>
    requires ready { IsReady f.old rows.now }
    requires fits { IsSome (choice_width (slice_get (widths rows.now) a.0) (same_width (slice_get (widths rows.now) b.0) (slice_get (widths rows.now) c.0))) }
    ensures { IfOk result (λ r. IsNodeBits f.old f.new rows.now (Node.Ite a b c) r.items) }
{
    let tests = one(f, rows, a);
    let (xs, ys) = two(f, rows, b, c);
    let out = words::chosen(alloc, f, tests[0], xs, ys)?;
    Ok(out)
}

fn slice_bits(
    alloc: Global,
    f: &mut Formula,
    rows: &Rows<Lit>,
    high: u32,
    low: u32,
    a: NodeId,
) -> Result<Vec<Lit>, Memory>
    requires ready { IsReady f.old rows.now }
    requires fits { IsSome (cut_width high low (slice_get (widths rows.now) a.0)) }
    ensures { IfOk result (λ r. IsNodeBits f.old f.new rows.now (Node.Slice high low a) r.items) }
{
    let xs = one(f, rows, a);
    part(alloc, xs, low as usize, (high - low + 1) as usize)
}

fn cat_bits(
    alloc: Global,
    f: &mut Formula,
    rows: &Rows<Lit>,
    a: NodeId,
    b: NodeId,
) -> Result<Vec<Lit>, Memory>
    requires ready { IsReady f.old rows.now }
    requires fits { IsSome (joined_width (slice_get (widths rows.now) a.0) (slice_get (widths rows.now) b.0)) }
    ensures { IfOk result (λ r. IsNodeBits f.old f.new rows.now (Node.Cat a b) r.items) }
{
    let xs = one(f, rows, a);
    let ys = one(f, rows, b);
    joined(alloc, ys, xs)
}

fn sext_bits(
    alloc: Global,
    f: &mut Formula,
    rows: &Rows<Lit>,
    width: u32,
    a: NodeId,
) -> Result<Vec<Lit>, Memory>
    requires ready { IsReady f.old rows.now }
    requires fits { IsSome (widened_width width (slice_get (widths rows.now) a.0)) }
    ensures { IfOk result (λ r. IsNodeBits f.old f.new rows.now (Node.Sext width a) r.items) }
{
    let xs = one(f, rows, a);
    extended(alloc, xs, width as usize - xs.len())
}

/// The bits of a leaf, which are free.
pub fn fresh_bits(alloc: Global, f: &mut Formula, width: u32) -> Result<Vec<Lit>, Memory>
    requires { f.old.variables + width < 2 ^ 31 }
    ensures { IfOk result (λ r. IsFresh f.old f.new width r.items) }
{
    let _variables = f.variables();
    let mut out = Vec::new(alloc);
    for i in 0..width {
        out.push(fresh(f))?;
    }
    Ok(out)
}

/// The bits of a node, from the rows of the nodes before it.
#[tactic(auto, using(crate::proofs::LeafLemmas::leaf_node))]
pub fn node_bits(
    alloc: Global,
    f: &mut Formula,
    rows: &Rows<Lit>,
    node: Node,
) -> Result<Vec<Lit>, Memory>
    requires ready { IsReady f.old rows.now }
    requires fits { IsSome (width_in (widths rows.now) node) }
    ensures { IfOk result (λ r. IsNodeBits f.old f.new rows.now node r.items) }
{
    match node {
        Node::Leaf { width, .. } => {
            let out = fresh_bits(alloc, f, width)?;
            Ok(out)
        }
        Node::Not(a) => not_bits(alloc, f, rows, a),
        Node::Neg(a) => neg_bits(alloc, f, rows, a),
        Node::And(a, b) => and_bits(alloc, f, rows, a, b),
        Node::Or(a, b) => or_bits(alloc, f, rows, a, b),
        Node::Xor(a, b) => xor_bits(alloc, f, rows, a, b),
        Node::Plus(a, b) => plus_bits(alloc, f, rows, a, b),
        Node::Times(a, b) => times_bits(alloc, f, rows, a, b),
        Node::Eq(a, b) => equal_bits(alloc, f, rows, a, b),
        Node::Ult(a, b) => ult_bits(alloc, f, rows, a, b),
        Node::Slt(a, b) => slt_bits(alloc, f, rows, a, b),
        Node::Ite(a, b, c) => ite_bits(alloc, f, rows, a, b, c),
        Node::Slice { high, low, a } => slice_bits(alloc, f, rows, high, low, a),
        Node::Cat(a, b) => cat_bits(alloc, f, rows, a, b),
        Node::Sext { width, a } => sext_bits(alloc, f, rows, width, a),
        Node::Shl(a, b) => shl_bits(alloc, f, rows, a, b),
        Node::Shr(a, b) => shr_bits(alloc, f, rows, a, b),
        Node::Udiv(a, b) => udiv_bits(alloc, f, rows, a, b),
        Node::Urem(a, b) => urem_bits(alloc, f, rows, a, b),
        Node::Const { width, value } => {
            let out = constants(alloc, width, value)?;
            Ok(out)
        }
    }
}
