//! Pairs of nodes as ciphers have them: their questions in DIMACS form, and what is found of them.
//!
//! `view_proof_miters rows` prints what is found of each pair, of pairs over bytes, of cut views and of paths, and whether
//! each kind of node is exact in clauses. `view_proof_miters names` prints the names of the pairs. `view_proof_miters
//! write NAME` prints the question of a pair in DIMACS form, which has a model where the pair isn't equal.
//! `view_proof_miters prove NAME` prints what is found of the pair with 1,000,000 lines, and how many lines that took.
//! `view_proof_miters kinds` prints how many variables and clauses each kind of node has at some widths.
//! `view_proof_miters small NODES TIMES` proves a pair with a small view so many times in a graph of so many nodes.
//! `scripts/check-miters` and `scripts/bench-miters` call it.
#![tactic(auto)]

mod builder;
mod exact;
mod examples;
mod found;
mod kinds;
mod pairs;
mod sbox;
mod small;
mod views;

use builder::{Builder, Fault};
use cnf_clauses::Formula;
use dag_view::View;
use exact::is_exact;
use examples::{EXAMPLES, Path, example, lowest_bit_is};
use found::{found, print_found};
use kinds::{KINDS, cost_of};
use pairs::{NAMES, pair};
use small::small_views;
use std::alloc::Global;
use std::{env, io};
use view_proof::{PairEnd, prove_pair, question_of};
use views::view;

/// How many lines a search may write.
const LINES: u64 = 1000000;

/// The view of the pair of a name.
fn view_of(alloc: Global, name: &str) -> Result<View, Fault> {
    for number in 0..NAMES.len() {
        if NAMES[number] == name {
            let mut b = Builder::new(alloc, 65536)?;
            let (first, second) = pair(&mut b, alloc, number as u32)?;
            return view(alloc, &b.dag, first, second);
        }
    }
    Err(Fault::NoSuchPair)
}

/// Prints a formula in DIMACS form.
fn print_formula(rt: &HostRuntime, formula: &Formula) -> io::Result<()> {
    println!(rt; "p cnf {} {}", formula.variables(), formula.clauses())?;
    for k in 0..formula.clauses() {
        for lit in formula.clause(k) {
            let sign = if lit.is_negated() { "-" } else { "" };
            print!(rt; "{sign}{} ", u64::from(lit.var()) + 1)?;
        }
        println!(rt; "0")?;
    }
    Ok(())
}

/// Prints the question of a pair.
fn write(rt: &HostRuntime, name: &str) -> io::Result<()> {
    let Ok(view) = view_of(rt.alloc(), name) else {
        return println!(rt; "c no such pair");
    };
    match question_of(rt.alloc(), &view) {
        Ok(question) => print_formula(rt, &question.formula),
        Err(_) => println!(rt; "c too many variables"),
    }
}

/// Prints what is found of a pair.
fn prove(rt: &HostRuntime, name: &str) -> io::Result<()> {
    let Ok(view) = view_of(rt.alloc(), name) else {
        return println!(rt; "no such pair");
    };
    match prove_pair(rt.alloc(), view, LINES) {
        Ok(PairEnd::Equal(checked)) => println!(rt; "equal {}", checked.lines()),
        Ok(PairEnd::Leaves(_)) => println!(rt; "apart 0"),
        Ok(PairEnd::CutLeaves) => println!(rt; "cut"),
        Ok(PairEnd::Spent(proof)) => println!(rt; "spent {}", proof.lines()),
        Ok(PairEnd::TooMany { limit }) => println!(rt; "more units than {limit}"),
        Err(_) => println!(rt; "out of memory"),
    }
}

/// Prints what each kind of node costs.
fn print_kinds(rt: &HostRuntime) -> io::Result<()> {
    for kind in 0..KINDS.len() {
        for width in [1u32, 8, 32, 64] {
            if let Ok(Some(cost)) = cost_of(rt.alloc(), kind as u32, width) {
                println!(rt;
                    "{} {width} {} {}",
                    KINDS[kind], cost.variables, cost.clauses
                )?;
            }
        }
    }
    Ok(())
}

/// Prints whether each kind of node is exact at some widths.
fn print_exact(rt: &HostRuntime) -> io::Result<()> {
    for kind in 0..KINDS.len() {
        let mut right = true;
        for width in [1u32, 2, 5, 8, 32, 64] {
            match is_exact(rt.alloc(), kind as u32, width) {
                Ok(Some(exact)) => right = right && exact,
                Ok(None) => println!(rt; "{} of width {width}: doesn't fit", KINDS[kind])?,
                Err(_) => right = false,
            }
        }
        let word = if right { "exact" } else { "WRONG" };
        println!(rt; "{}: {word}", KINDS[kind])?;
    }
    Ok(())
}

/// Prints what is found of the pairs of names.
fn print_pairs(rt: &HostRuntime) -> io::Result<()> {
    for number in 0..NAMES.len() {
        let alloc = rt.alloc();
        let Ok(mut b) = Builder::new(alloc, 65536) else {
            return println!(rt; "out of memory");
        };
        let came = match pair(&mut b, alloc, number as u32) {
            Ok(nodes) => found(alloc, &b.dag, nodes, None, LINES),
            Err(fault) => Err(fault),
        };
        match came {
            Ok(came) => print_found(rt, NAMES[number], came)?,
            Err(_) => println!(rt; "{}: not decided", NAMES[number])?,
        }
    }
    Ok(())
}

/// Prints what is found of the pairs whose answer is known to the line.
fn print_examples(rt: &HostRuntime) -> io::Result<()> {
    for number in 0..EXAMPLES.len() {
        match example(rt.alloc(), number as u32) {
            Ok(came) => print_found(rt, EXAMPLES[number], came)?,
            Err(_) => println!(rt; "{}: not decided", EXAMPLES[number])?,
        }
    }
    Ok(())
}

/// Prints what is found of two paths.
fn print_paths(rt: &HostRuntime) -> io::Result<()> {
    for number in [1u64, 2] {
        match lowest_bit_is(rt.alloc(), number) {
            Ok(Path::Never) => println!(rt; "lowest_bit_is_{number}: never")?,
            Ok(Path::Reached { byte }) if byte % 2 == number => {
                println!(rt; "lowest_bit_is_{number}: reached")?;
            }
            _ => println!(rt; "lowest_bit_is_{number}: not decided")?,
        }
    }
    Ok(())
}

/// Prints all that is found.
fn print_rows(rt: &HostRuntime) -> io::Result<()> {
    print_examples(rt)?;
    print_paths(rt)?;
    print_pairs(rt)?;
    print_exact(rt)
}

/// Prints how many proofs of a pair with a small view took no line in a large graph.
fn print_small(rt: &HostRuntime, nodes: &str, times: &str) -> io::Result<()> {
    let (Ok(nodes), Ok(times)) = (nodes.parse::<u32>(), times.parse::<u32>()) else {
        return print_use(rt);
    };
    match small_views(rt.alloc(), nodes, times) {
        Ok(proved) => println!(rt; "{proved} of {times} equal with no line"),
        Err(_) => println!(rt; "out of memory"),
    }
}

fn main(rt: HostRuntime) -> io::Result<()> {
    let mut words = env::args(&rt)?;
    let _program = words.next();
    let task = words.next();
    let name = words.next();
    let last = words.next();
    let Some(task) = task else {
        return print_use(&rt);
    };
    match (name, last) {
        (Some(nodes), Some(times)) if task.as_str() == "small" => {
            print_small(&rt, nodes.as_str(), times.as_str())
        }
        (Some(name), _) => print_of(&rt, task.as_str(), name.as_str()),
        (None, _) => print_all(&rt, task.as_str()),
    }
}

/// Prints the question of a pair, or what is found of it.
fn print_of(rt: &HostRuntime, task: &str, name: &str) -> io::Result<()> {
    match task {
        "write" => write(rt, name),
        "prove" => prove(rt, name),
        _ => print_use(rt),
    }
}

/// Prints the names of the pairs, what each kind of node costs, or all that is found.
fn print_all(rt: &HostRuntime, task: &str) -> io::Result<()> {
    match task {
        "kinds" => print_kinds(rt),
        "names" => print_names(rt),
        "rows" => print_rows(rt),
        _ => print_use(rt),
    }
}

fn print_names(rt: &HostRuntime) -> io::Result<()> {
    for name in NAMES {
        println!(rt; "{name}")?;
    }
    Ok(())
}

fn print_use(rt: &HostRuntime) -> io::Result<()> {
    println!(rt;
        "view_proof_miters rows | names | write NAME | prove NAME | kinds | small NODES TIMES"
    )
}
