//! What is found of a pair, looked at again in its graph.

ghost use Rattle.std.specs.Prelude.{◌≡◌, ◌≤◌};

use crate::builder::Fault;
use dag::{Dag, NodeId};
use dag_view::{Apart, View};
use std::alloc::Global;
use std::io;
use view_proof::{PairEnd, prove_pair};

/// What a search came to.
#[derive(Clone, Copy)]
pub enum Came {
    Equal { lines: u64 },
    Differ,
    Cut,
    Spent { lines: u64 },
    TooMany { limit: u32 },
    /// The answer isn't one that the graph bears out.
    Wrong,
}

/// What is found of two nodes by their view, which a number of steps may cut. Where they differ on an input, the graph
/// has to say so too.
pub fn found(
    alloc: Global,
    dag: &Dag,
    pair: (NodeId, NodeId),
    cut: Option<u32>,
    lines: u64,
) -> Result<Came, Fault>
    requires some { 1 ≤ lines }
    requires most { lines ≤ 1000000 }
{
    let (a, b) = pair;
    if a.0 >= dag.len() || b.0 >= dag.len() || dag.width(a) != dag.width(b) {
        return Err(Fault::Unfit);
    }
    dag.known();
    let apart = Apart::of(dag);
    let view = View::cone(alloc, dag, &apart, a, b, cut)?;
    match prove_pair(alloc, view, lines)? {
        PairEnd::Equal(checked) => Ok(if checked.pair() == (a, b) {
            Came::Equal {
                lines: checked.lines(),
            }
        } else {
            Came::Wrong
        }),
        PairEnd::Leaves(input) => {
            let mut values = vec![in alloc; 0; dag.len() as usize]?;
            dag.value_at(&input, &mut values);
            Ok(if values[a.0 as usize] == values[b.0 as usize] {
                Came::Wrong
            } else {
                Came::Differ
            })
        }
        PairEnd::CutLeaves => Ok(Came::Cut),
        PairEnd::Spent(proof) => Ok(Came::Spent {
            lines: proof.lines(),
        }),
        PairEnd::TooMany { limit } => Ok(Came::TooMany { limit }),
    }
}

/// Prints what was found of the pair of a name.
pub fn print_found(rt: &HostRuntime, name: &str, came: Came) -> io::Result<()> {
    match came {
        Came::Equal { lines: 0 } => println!(rt; "{name}: equal with no line"),
        Came::Equal { .. } => println!(rt; "{name}: equal"),
        Came::Differ => println!(rt; "{name}: apart"),
        Came::Cut => println!(rt; "{name}: apart for some values of free leaves"),
        Came::Spent { lines } => println!(rt; "{name}: {lines} lines spent"),
        Came::TooMany { limit } => println!(rt; "{name}: more than {limit} units"),
        Came::Wrong => println!(rt; "{name}: WRONG"),
    }
}
