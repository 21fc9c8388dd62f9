//! Times the graph: adding nodes of which half are there, and finding all nodes' values.
//!
//! `dag_bench add COUNT` makes so many `add` calls over one graph, every second of them for a node that is there.
//! `dag_bench values NODES INPUTS` finds the values of a graph of so many nodes on so many inputs. Both print the
//! nanoseconds that one call, or one node's value, takes, and a number by which a run can be compared with another
//! program's. Called otherwise, it says so. `scripts/bench-graph` calls it.
//!
//! Its tests are those of the graph and of the libraries on it: merge_table, rewriter and bit_blaster.
#![tactic(auto)]

#[cfg(test)]
mod agreement;
#[cfg(test)]
mod building;
#[cfg(test)]
mod folding;
mod graphs;
#[cfg(test)]
mod replacing;
#[cfg(test)]
mod tests;

use graphs::{added, summed, values_graph};
use std::time::Instant;
use std::{env, io};

/// What to time.
#[derive(Clone, Copy)]
enum Task {
    Add { count: u32 },
    Values { nodes: u32, inputs: u32 },
}

/// The task that the words name.
fn task_of(kind: Option<String>, first: Option<String>, second: Option<String>) -> Option<Task> {
    let kind = kind?;
    let number = first?.as_str().parse::<u32>().ok()?;
    if kind.as_str() == "add" {
        return Some(Task::Add { count: number });
    }
    let inputs = second?.as_str().parse::<u32>().ok()?;
    if kind.as_str() == "values" {
        Some(Task::Values {
            nodes: number,
            inputs,
        })
    } else {
        None
    }
}

/// Nanoseconds for each of so many.
fn each(nanoseconds: u128, count: u64) -> u128 {
    nanoseconds / u128::from(count.max(1))
}

fn main(rt: HostRuntime) -> io::Result<()> {
    let mut words = env::args(&rt)?;
    let _program = words.next();
    match task_of(words.next(), words.next(), words.next()) {
        Some(Task::Add { count }) => {
            let start = Instant::now(&rt)?;
            let last = added(rt.alloc(), count)?;
            let nanoseconds = start.elapsed(&rt)?.as_nanos();
            let each = each(nanoseconds, u64::from(count));
            println!(rt; "{each} {last}")
        }
        Some(Task::Values { nodes, inputs }) => {
            let dag = values_graph(rt.alloc(), nodes)?;
            let start = Instant::now(&rt)?;
            let sum = summed(rt.alloc(), &dag, inputs)?;
            let nanoseconds = start.elapsed(&rt)?.as_nanos();
            let each = each(
                nanoseconds,
                u64::from(nodes).saturating_mul(u64::from(inputs)),
            );
            println!(rt; "{each} {sum}")
        }
        None => println!(rt; "dag_bench add COUNT | dag_bench values NODES INPUTS"),
    }
}
