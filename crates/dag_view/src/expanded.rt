//! Which nodes of a graph a view has with their definitions.

ghost use Rattle.std.specs.Prelude.{◌≡◌};
ghost use Rattle.dag_view.specs.Under.{expands};

use indexmap::IndexSet;

/// Which nodes stand with their definitions: all, or those of a set. Each other node that is met is a free leaf.
#[derive(Drop)]
pub enum Expanded {
    /// All nodes.
    All,
    /// The nodes at these places of the graph.
    Only(IndexSet<u32>),
}

impl Expanded {
    /// Whether a node stands with its definition.
    pub fn expands(&self, id: u32) -> bool
        ensures { result ≡ expands self.now id }
    {
        match self {
            Expanded::All => true,
            Expanded::Only(set) => set.contains(&id),
        }
    }
}
