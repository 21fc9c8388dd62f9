ghost use Rattle.std.specs.Prelude.{◌≡◌, ◌≤◌, ◌^◌, ℕ, IfOk};
ghost use Rattle.dag.specs.Graph.{Adds};
ghost use Rattle.dag.specs.declared.node.Node.TheVariants.{Leaf, Const};

use axe_io::{Kind, OutPlace, Param, Shape};
use dag::{Dag, DagError, Node, NodeId};
use memory::Memory;
use std::alloc::{AllocError, AllocFailed, Global};

/// Why a pair isn't built.
#[derive(Debug, Drop)]
pub enum Fault {
    /// There is no pair of this name.
    NoSuchPair,
    /// A node doesn't fit, or the graph is full.
    Unfit,
    /// Memory is wanting.
    Memory,
}

impl From<AllocError> for Fault {
    fn from(_: AllocError) -> Fault {
        Fault::Memory
    }
}

impl From<AllocFailed<NodeId>> for Fault {
    fn from(_: AllocFailed<NodeId>) -> Fault {
        Fault::Memory
    }
}

impl From<Memory> for Fault {
    fn from(_: Memory) -> Fault {
        Fault::Memory
    }
}

impl From<DagError> for Fault {
    fn from(error: DagError) -> Fault {
        match error {
            DagError::Full { .. } => Fault::Unfit,
            DagError::Memory => Fault::Memory,
        }
    }
}

/// Eight words of 32 bits, four bytes and three words of 64 bits.
const PARAMS: [Param; 3] = [
    Param {
        kind: Kind::Int,
        len: Some(8),
    },
    Param {
        kind: Kind::Byte,
        len: Some(4),
    },
    Param {
        kind: Kind::Long,
        len: Some(3),
    },
];

/// The places of the first byte and of the first word of 64 bits among the leaves.
const BYTES: u32 = 8;

const LONGS: u32 = 12;

/// A graph over eight words of 32 bits, four bytes and three words of 64 bits, to which nodes are added.
#[derive(Drop)]
pub struct Builder {
    pub dag: Dag,
}

impl Builder {
    /// A graph without nodes of its own, for at most so many.
    pub fn new(alloc: Global, limit: u32) -> Result<Builder, Fault>
        requires some { 1 ≤ limit }
        requires most { limit ≤ 2 ^ 31 }
    {
        let params = Vec::from_slice(alloc, &PARAMS)?;
        let shape = Shape::of(params, OutPlace::Returned, Kind::Int, false);
        let dag = Dag::begin(alloc, limit, &shape)?;
        Ok(Builder { dag })
    }

    /// Adds a node.
    pub fn put(&mut self, node: Node) -> Result<NodeId, Fault>
        ensures { IfOk result (λ id. Adds self.old.dag self.new.dag node id.0) }
    {
        if !self.dag.fits(node) {
            return Err(Fault::Unfit);
        }
        let id = self.dag.add(node)?;
        Ok(id)
    }

    /// An input word of 32 bits.
    pub fn input(&mut self, index: u32) -> Result<NodeId, Fault>
        ensures { IfOk result (λ id. Adds self.old.dag self.new.dag (Leaf 32 index) id.0) }
    {
        self.put(Node::Leaf { width: 32, index })
    }

    /// An input byte.
    pub fn byte(&mut self, number: u32) -> Result<NodeId, Fault>
        ensures { IfOk result (λ id. (i : ℕ) × Adds self.old.dag self.new.dag (Leaf 8 i) id.0) }
    {
        let index = number.saturating_add(BYTES);
        self.put(Node::Leaf { width: 8, index })
    }

    /// An input word of 64 bits.
    pub fn long(&mut self, number: u32) -> Result<NodeId, Fault>
        ensures { IfOk result (λ id. (i : ℕ) × Adds self.old.dag self.new.dag (Leaf 64 i) id.0) }
    {
        let index = number.saturating_add(LONGS);
        self.put(Node::Leaf { width: 64, index })
    }

    /// A constant.
    pub fn constant(&mut self, width: u32, value: u64) -> Result<NodeId, Fault>
        ensures { IfOk result (λ id. Adds self.old.dag self.new.dag (Const width value) id.0) }
    {
        self.put(Node::Const { width, value })
    }

    /// The first word minus the second.
    pub fn minus(&mut self, x: NodeId, y: NodeId) -> Result<NodeId, Fault> {
        let y = self.put(Node::Neg(y))?;
        self.put(Node::Plus(x, y))
    }

    /// A word moved up by a constant.
    pub fn shl(&mut self, x: NodeId, amount: u64) -> Result<NodeId, Fault> {
        let amount = self.constant(32, amount)?;
        self.put(Node::Shl(x, amount))
    }

    /// A word moved down by a constant.
    pub fn shr(&mut self, x: NodeId, amount: u64) -> Result<NodeId, Fault> {
        let amount = self.constant(32, amount)?;
        self.put(Node::Shr(x, amount))
    }

    /// Exclusive or by or, and, minus.
    pub fn xor_by_parts(&mut self, x: NodeId, y: NodeId) -> Result<NodeId, Fault> {
        let either = self.put(Node::Or(x, y))?;
        let both = self.put(Node::And(x, y))?;
        self.minus(either, both)
    }

    /// Exclusive or, by its node or by its parts.
    pub fn xor(&mut self, by_parts: bool, x: NodeId, y: NodeId) -> Result<NodeId, Fault> {
        if by_parts {
            self.xor_by_parts(x, y)
        } else {
            self.put(Node::Xor(x, y))
        }
    }
}
