//! Checked pairs.

ghost use Rattle.std.specs.Prelude.{◌≡◌, ◌↔◌, ◌<◌, ◌≤◌, IfOk, OnOk, IfErr, length};
ghost use Rattle.bit_blaster.specs.Circuit.{units, most_units};
ghost use Rattle.dag_view.specs.View.{IsView, IsTableOf, IsWhole, HasFree, Embeds, HasMisfit};
ghost use Rattle.merge_table.specs.KeepsValues.{KeepsValues, AlwaysEqual};
ghost use Rattle.word_check.specs.Valuation.{NeverDiffer};
ghost use Rattle.view_proof.specs.Question.{AsksApart};
ghost use Rattle.view_proof.specs.Checked.{IsChecked, IsSpentProof};
ghost use Rattle.view_proof.specs.Answer.{IsPairEnd, IsTooMany, HoldsInGraphs};

use crate::answer::{Answer, answer_of};
use crate::ask::{Question, open_question, refuted};
use axe_io::Input;
use bit_blaster::BlastError;
use clause_log::Log;
use clause_search::{Found, search};
use dag::{Dag, NodeId};
use dag_view::{Misfit, View};
use memory::Memory;
use merge_table::MergeTable;
use std::alloc::Global;
use std::marker::Model;

/// A pair that was proved equal. Its two nodes have equal values for all values of the leaves of its view, and its log
/// refutes its view's question by new lines alone.
#[derive(Drop)]
pub struct Checked {
    view: View,
    log: Log,
}

impl Model for Checked {
    ghost use Rattle.view_proof.specs.Question.{AsksApart};
    ghost use Rattle.view_proof.specs.Checked.{ProofParts, IsChecked};

    ghost Value = { ProofParts };

    ghost view = { λ c. record { view = c.view; log = c.log } };

    ghost invariant = { λ c. IsChecked (record { view = c.view; log = c.log }) };
}

impl Checked {
    /// The two nodes of the graph.
    pub fn pair(&self) -> (NodeId, NodeId)
        ensures first { result.0.0 ≡ self.now.view.a }
        ensures second { result.1.0 ≡ self.now.view.b }
        ensures known { IsChecked self.now }
    {
        self.view.pair()
    }

    /// How many lines the log has.
    pub fn lines(&self) -> u64
        ensures { result ≡ length self.now.log.lines }
    {
        self.log.lines()
    }

    /// The view.
    pub fn view(&self) -> &View
        ensures view { result.now ≡ self.now.view }
        ensures known { IsChecked self.now }
    {
        &self.view
    }

    /// Whether a graph and its table still have what the view has seen, as [`View::embeds`] says. Then the two nodes
    /// have equal values in the graph on all inputs, where the table keeps values.
    pub fn embeds(&self, dag: &Dag, table: &MergeTable) -> Result<(), Misfit>
        requires { IsTableOf dag.now table.now }
        ensures embeds { OnOk result (Embeds dag.now table.now self.now.view) }
        ensures misfit { IfErr result (HasMisfit dag.now table.now self.now.view) }
        ensures equal { OnOk result (KeepsValues dag.now table.now → AlwaysEqual dag.now self.now.view.a self.now.view.b) }
    {
        let view = &self.view;
        dag.known();
        let _nodes = view.nodes();
        view.embeds(dag, table)
    }
}

/// A pair on which all lines were spent: the log has all lines that were granted, each of them new, and doesn't refute
/// the view's question.
#[derive(Drop)]
pub struct SpentProof {
    view: View,
    log: Log,
}

impl Model for SpentProof {
    ghost use Rattle.view_proof.specs.Question.{AsksApart};
    ghost use Rattle.view_proof.specs.Checked.{ProofParts, IsSpentProof};

    ghost Value = { ProofParts };

    ghost view = { λ p. record { view = p.view; log = p.log } };

    ghost invariant = { λ p. IsSpentProof (record { view = p.view; log = p.log }) };
}

impl SpentProof {
    /// The view.
    pub fn view(&self) -> &View
        ensures view { result.now ≡ self.now.view }
        ensures known { IsSpentProof self.now }
    {
        &self.view
    }

    /// How many lines the log has.
    pub fn lines(&self) -> u64
        ensures { result ≡ length self.now.log.lines }
    {
        self.log.lines()
    }

    /// Whether a graph and its table still have what the view has seen, as [`View::embeds`] says.
    pub fn embeds(&self, dag: &Dag, table: &MergeTable) -> Result<(), Misfit>
        requires { IsTableOf dag.now table.now }
        ensures embeds { OnOk result (Embeds dag.now table.now self.now.view) }
        ensures misfit { IfErr result (HasMisfit dag.now table.now self.now.view) }
    {
        self.view.embeds(dag, table)
    }
}

/// What is found of a pair.
#[derive(Drop)]
pub enum PairEnd {
    /// The two nodes are equal.
    Equal(Checked),
    /// They differ on this input, and on each that agrees with it on the view's leaves.
    Leaves(Input),
    /// The view is cut, and they differ for some values of its leaves and free leaves: in a graph they may be equal.
    CutLeaves,
    /// All lines were spent.
    Spent(SpentProof),
    /// The nodes of the view have more units of charge together than this.
    TooMany { limit: u32 },
}

/// A pair that words alone prove, with a log of no lines.
fn checked_at_once(alloc: Global, view: View) -> Result<Checked, Memory>
    requires { NeverDiffer view.nodes view.first view.second }
    ensures view { IfOk result (λ p. p.view ≡ view) }
    ensures lines { IfOk result (λ p. length p.log.lines ≡ 0) }
{
    let log = Log::begin(alloc, refuted(alloc)?)?;
    Ok(Checked { view, log })
}

/// Searches for a proof that the two nodes of a view are equal, or for an input on which they differ, with at most
/// `lines` lines. TooMany exactly where the charges of the view's nodes together pass 16,777,216 units. A pair that words
/// alone prove takes no line.
pub fn prove_pair(alloc: Global, view: View, lines: u64) -> Result<PairEnd, Memory>
    requires some { 1 ≤ lines }
    requires most { lines ≤ 1000000 }
    ensures end { IfOk result (IsPairEnd view lines) }
    ensures too_many { IfOk result (λ e. IsTooMany e ↔ (most_units < units view.nodes)) }
    ensures graphs { IfOk result (HoldsInGraphs view) }
{
    let question = match open_question(alloc, &view) {
        Ok(Some(question)) => question,
        Ok(None) => return Ok(PairEnd::Equal(checked_at_once(alloc, view)?)),
        Err(BlastError::TooMany { limit }) => return Ok(PairEnd::TooMany { limit }),
        Err(BlastError::Memory) => return Err(Memory),
    };
    if view.is_cut() {
        search_cut(alloc, view, question, lines)
    } else {
        search_whole(alloc, view, question, lines)
    }
}

/// Searches the question of a view without free leaves.
fn search_whole(
    alloc: Global,
    view: View,
    question: Question,
    lines: u64,
) -> Result<PairEnd, Memory>
    requires some { 1 ≤ lines }
    requires most { lines ≤ 1000000 }
    requires whole { IsWhole view }
    requires asks { AsksApart view question.formula question.rows }
    requires few { units view.nodes ≤ most_units }
    ensures end { IfOk result (IsPairEnd view lines) }
    ensures few { IfOk result (λ e. IsTooMany e → ⊥) }
    ensures graphs { IfOk result (HoldsInGraphs view) }
{
    match answer_of(alloc, question, view.nodes(), view.leaves(), lines)? {
        Answer::Model(input) => Ok(PairEnd::Leaves(input)),
        Answer::Refuted(log) => Ok(PairEnd::Equal(Checked { view, log })),
        Answer::Spent(log) => Ok(PairEnd::Spent(SpentProof { view, log })),
    }
}

/// Searches the question of a view with free leaves, of which no input is read.
fn search_cut(alloc: Global, view: View, question: Question, lines: u64) -> Result<PairEnd, Memory>
    requires some { 1 ≤ lines }
    requires most { lines ≤ 1000000 }
    requires free { HasFree view }
    requires asks { AsksApart view question.formula question.rows }
    requires few { units view.nodes ≤ most_units }
    ensures end { IfOk result (IsPairEnd view lines) }
    ensures few { IfOk result (λ e. IsTooMany e → ⊥) }
    ensures graphs { IfOk result (HoldsInGraphs view) }
{
    let _nodes = view.nodes();
    match search(alloc, question.formula, lines)? {
        Found::Model(_) => Ok(PairEnd::CutLeaves),
        Found::Refuted(log) => Ok(PairEnd::Equal(Checked { view, log })),
        Found::Spent(log) => Ok(PairEnd::Spent(SpentProof { view, log })),
    }
}
