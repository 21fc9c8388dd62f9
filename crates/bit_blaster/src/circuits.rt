//! All nodes of a circuit as one formula.

ghost use Rattle.std.specs.Prelude.{◌≡◌, ◌+◌, ◌<◌, ◌≤◌, ◌∷◌, [], false, Some, IfOk, OnOk, IfErr, length, slice_index_or, slice_get};
ghost use Rattle.bit_blaster.specs.Circuit.{IsCircuit, units, most_units};
ghost use Rattle.bit_blaster.specs.NodeBits.{IsBlasted, BlastFails};

use crate::charges::{MOST_UNITS, is_affordable};
use crate::constants::constant;
use crate::kinds::node_bits;
use cnf_clauses::{Formula, Lit, Rows};
use dag::Node;
use memory::Memory;
use std::alloc::{AllocError, Global};
use thiserror::Error;

/// A circuit as a formula: a row of literals for each node, the lowest bit first.
#[derive(Drop)]
pub struct Blasted {
    /// The formula. Its models give each node the bits of its value, at the input that the leaves' bits spell.
    pub formula: Formula,
    /// The bits of each node in the circuit's order.
    pub rows: Rows<Lit>,
}

/// Why a circuit isn't made into a formula.
#[derive(Debug, Drop, Error)]
pub enum BlastError {
    /// The charges of its nodes together pass this number of units.
    #[error("the charges pass {limit} units")]
    TooMany { limit: u32 },
    /// Memory is wanting.
    #[error("out of memory")]
    Memory,
}

impl Blasted {
    /// The literal of a bit of a node, bit 0 being the lowest.
    pub fn bit(&self, node: u32, bit: u32) -> Lit
        requires node { node < length self.now.rows }
        requires bit { bit < length (slice_index_or self.now.rows node []) }
        ensures { slice_get (slice_index_or self.now.rows node []) bit ≡ Some result }
    {
        self.rows.row(node as usize)[bit as usize]
    }
}

/// Makes a formula of a circuit: a list of nodes of which each fits the ones before it. For each input that fits its
/// leaves the formula has a model in which each node's bits spell its value, and in each model they do so at the
/// input that its leaves' bits spell. It has at most as many variables as the nodes have units of charge, and at most
/// 8 clauses for each variable. TooMany exactly where the charges together pass 16,777,216 units: they are
/// summed before anything is made.
pub fn blast(alloc: Global, nodes: &[Node]) -> Result<Blasted, BlastError>
    requires { IsCircuit nodes.now }
    ensures stands { IfOk result (λ b. IsBlasted b.formula b.rows nodes.now) }
    ensures few { OnOk result (units nodes.now ≤ most_units) }
    ensures cause { IfErr result (BlastFails nodes.now) }
{
    if !is_affordable(alloc, nodes)? {
        return Err(BlastError::TooMany { limit: MOST_UNITS });
    }
    if nodes.is_empty() {
        return Ok(Blasted {
            formula: Formula::begin(alloc),
            rows: Rows::new(alloc),
        });
    }
    Ok(blast_affordable(alloc, nodes)?)
}

/// Makes a formula of a circuit of at least one node, as [`blast`] does, where its charges are known to be few enough.
/// They may pass the limit by 256 units, what one node beside those that are counted costs at most unless it is a
/// product or a shift.
pub fn blast_affordable(alloc: Global, nodes: &[Node]) -> Result<Blasted, Memory>
    requires fits { IsCircuit nodes.now }
    requires few { units nodes.now ≤ most_units + 256 }
    requires some { 1 ≤ length nodes.now }
    ensures { IfOk result (λ b. IsBlasted b.formula b.rows nodes.now) }
{
    let mut formula = begun(alloc)?;
    let mut rows = Rows::new(alloc);
    for node in nodes {
        let bits = node_bits(alloc, &mut formula, &rows, *node)?;
        rows.push(&bits)?;
    }
    Ok(Blasted { formula, rows })
}

/// Variable 0, and that it is true.
fn begun(alloc: Global) -> Result<Formula, Memory>
    ensures { IfOk result (λ f. f ≡ record { variables = 1; clauses = (record { var = 0; negated = false } ∷ []) ∷ [] }) }
{
    let mut formula = Formula::begin(alloc);
    formula.fresh();
    formula.add(&[constant(true)])?;
    Ok(formula)
}

impl From<AllocError> for BlastError {
    ghost use Rattle.bit_blaster.specs.declared.circuits.BlastError.TheVariants.{Memory as no_memory};

    ghost from_gives = { λ _ e. e ≡ no_memory };

    fn from(_: AllocError) -> BlastError {
        BlastError::Memory
    }
}

impl From<Memory> for BlastError {
    ghost use Rattle.bit_blaster.specs.declared.circuits.BlastError.TheVariants.{Memory as no_memory};

    ghost from_gives = { λ _ e. e ≡ no_memory };

    fn from(_: Memory) -> BlastError {
        BlastError::Memory
    }
}
