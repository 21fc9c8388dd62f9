//! The questions of a view and of a path, as formulas.

ghost use Rattle.std.specs.Prelude.{◌≡◌, ◌<◌, ◌≤◌, ◌++◌, ◌∷◌, [], false, Some, IsTrue, IfOk, OnOk, IfErr, length, slice_get};
ghost use Rattle.cnf_clauses.specs.Literal.{opposite};
ghost use Rattle.bit_blaster.specs.Circuit.{IsCircuit, widths_of, units, most_units};
ghost use Rattle.bit_blaster.specs.NodeBits.{BlastFails};
ghost use Rattle.dag_view.specs.View.{IsView};
ghost use Rattle.word_check.specs.Valuation.{NeverDiffer};
ghost use Rattle.view_proof.specs.Question.{Asks, AsksApart, AsksOf, IsOpenQuestion, having, question_nodes, refuted as refuted_of};

use bit_blaster::{BlastError, Blasted, MOST_UNITS, blast, blast_affordable, is_affordable};
use cnf_clauses::{Formula, Lit, Rows};
use dag::{Node, NodeId};
use dag_view::View;
use memory::Memory;
use std::alloc::Global;
use word_check::never_differ;

/// A circuit's formula with one clause more, which says what a bit of it is.
#[derive(Drop)]
pub struct Question {
    /// The formula.
    pub formula: Formula,
    /// The bits of each node of the circuit.
    pub rows: Rows<Lit>,
}

/// The question of a view: a formula whose models are the inputs on which its two nodes differ. Where words alone tell
/// that they never do, it is the empty clause alone; else it is the formula of the view's nodes and of a last one, the
/// bits in which the two differ, and the clause that some of these is 1. TooMany exactly where the charges of the view's
/// nodes together pass 16,777,216 units: the last one lies behind the limit.
pub fn question_of(alloc: Global, view: &View) -> Result<Question, BlastError>
    ensures asks { IfOk result (λ q. AsksOf view.now q.formula q.rows) }
    ensures few { OnOk result (units view.now.nodes ≤ most_units) }
    ensures cause { IfErr result (BlastFails view.now.nodes) }
{
    let Some(question) = open_question(alloc, view)? else {
        return Ok(Question {
            formula: refuted(alloc)?,
            rows: Rows::new(alloc),
        });
    };
    Ok(question)
}

/// The question of a view as a search takes it, or None where words alone tell that its two nodes never differ.
pub(crate) fn open_question(alloc: Global, view: &View) -> Result<Option<Question>, BlastError>
    ensures asks { IfOk result (IsOpenQuestion view.now) }
    ensures few { OnOk result (units view.now.nodes ≤ most_units) }
    ensures cause { IfErr result (BlastFails view.now.nodes) }
{
    if !is_affordable(alloc, view.nodes())? {
        return Err(BlastError::TooMany { limit: MOST_UNITS });
    }
    if ends_never_differ(alloc, view)? {
        return Ok(None);
    }
    Ok(Some(ask_apart(alloc, view)?))
}

/// Whether words alone tell that the two nodes of a view never differ.
fn ends_never_differ(alloc: Global, view: &View) -> Result<bool, Memory>
    ensures { IfOk result (λ b. IsTrue b → NeverDiffer view.now.nodes view.now.first view.now.second) }
{
    let (first, second) = view.ends();
    never_differ(alloc, view.nodes(), view.widths(), first, second)
}

/// The empty clause alone.
pub(crate) fn refuted(alloc: Global) -> Result<Formula, Memory>
    ensures { IfOk result (λ f. f ≡ refuted_of) }
{
    let mut formula = Formula::begin(alloc);
    formula.add(&[])?;
    Ok(formula)
}

/// The formula of a view's nodes and of the bits in which its two nodes differ, and the clause that some of these is 1.
fn ask_apart(alloc: Global, view: &View) -> Result<Question, Memory>
    requires { units view.now.nodes ≤ most_units }
    ensures { IfOk result (λ q. AsksApart view.now q.formula q.rows) }
{
    let last = view.nodes().len();
    let nodes = nodes_of(alloc, view)?;
    let Blasted { formula, rows } = blast_affordable(alloc, &nodes)?;
    let mut formula = formula;
    formula.add(rows.row(last))?;
    Ok(Question { formula, rows })
}

/// The nodes of a view, and a last one with the bits in which its two nodes differ.
fn nodes_of(alloc: Global, view: &View) -> Result<Vec<Node>, Memory>
    ensures { IfOk result (λ ns. ns.items ≡ question_nodes view.now) }
{
    let (first, second) = view.ends();
    let mut nodes = Vec::from_slice(alloc, view.nodes())?;
    nodes.push(Node::Xor(NodeId(first), NodeId(second)))?;
    Ok(nodes)
}

/// The formula of a circuit, and the clause that the node at a place, of width 1, has a value.
pub(crate) fn ask(
    alloc: Global,
    nodes: &[Node],
    place: usize,
    value: bool,
) -> Result<Question, BlastError>
    requires circuit { IsCircuit nodes.now }
    requires bit { slice_get (widths_of nodes.now) place ≡ Some 1 }
    ensures asks { IfOk result (λ q. Asks nodes.now place value q.formula q.rows) }
    ensures few { OnOk result (units nodes.now ≤ most_units) }
    ensures cause { IfErr result (BlastFails nodes.now) }
{
    let Blasted { formula, rows } = blast(alloc, nodes)?;
    let bit = rows.row(place)[0];
    let mut formula = formula;
    formula.add(&[having(value, bit)])?;
    Ok(Question { formula, rows })
}

/// The literal that is true where another one has this value.
fn having(value: bool, bit: Lit) -> Lit
    ensures { result ≡ having value bit }
{
    if value { bit } else { bit.opposite() }
}
