//! Which node retains each node of a graph.

ghost use Rattle.std.specs.Prelude.{◌≡◌, ◌<◌, ℕ, List, Some, length, slice_get};
ghost use Rattle.std.specs.List.{range_with_len};
ghost use Rattle.merge_table.specs.KeepsValues.{KeepsValues};
ghost use Rattle.dag_view.specs.View.{IsTableOf};

use dag::Dag;
use merge_table::MergeTable;

/// Tells for each node of a graph the one that retains it.
pub trait Retains {
    /// For each node of the graph the one that retains it, by their places.
    ghost table: { Self → List ℕ };

    /// The node that retains a node.
    fn retained_by(&self, n: u32) -> u32
        requires { n < length (table self.now) }
        ensures { slice_get (table self.now) n ≡ Some result };
}

impl Retains for MergeTable {
    ghost table = { λ t. t };

    fn retained_by(&self, n: u32) -> u32 {
        self.retained(n)
    }
}

/// The nodes of a graph of which none was replaced: each is retained by itself. It takes no memory.
#[derive(Clone, Copy)]
pub struct Apart {
    nodes: u32,
}

impl Apart {
    /// All nodes of a graph.
    pub fn of(dag: &Dag) -> Apart
        ensures nodes { result.nodes ≡ length dag.now.nodes }
        ensures table { IsTableOf dag.now (range_with_len 0 result.nodes) }
        ensures keeps { KeepsValues dag.now (range_with_len 0 result.nodes) }
    {
        Apart { nodes: dag.len() }
    }
}

impl Retains for Apart {
    ghost table = { λ a. range_with_len 0 a.nodes };

    fn retained_by(&self, n: u32) -> u32 {
        n
    }
}
