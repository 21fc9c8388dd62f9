use axe_io::{Budgets, OutPlace};
use clap::error::ErrorKind;

/// A command, which the first word names. Each has options of its own.
#[derive(Clone, Copy, Debug, PartialEq, Eq)]
pub enum Command {
    /// `prove`
    Prove,
}

/// A job that words mean.
#[derive(Debug, Drop)]
pub enum Job {
    /// Decides whether a method and a function of a specification agree.
    Prove {
        /// The name under which the class stands in the store.
        class: String,
        /// The method's name.
        method: String,
        /// The name under which the specification stands in the store.
        spec: String,
        /// The function's name.
        function: String,
        /// The method's descriptor; None means any.
        desc: Option<String>,
        /// The lengths of the array parameters in order, each at most 4,096 and 16,384 in all.
        sizes: Vec<u32>,
        /// Where the result is observed.
        out: OutPlace,
        /// The numbers of the job.
        budgets: Budgets,
    },
}

/// An option that takes a number, in the order in which they are read: what it bounds, its range and
/// its default.
#[derive(Clone, Copy, Debug, PartialEq, Eq)]
pub enum NumberWord {
    /// `--steps`: instructions of one run, 1 to 2,000,000, else 200,000.
    Steps,
    /// `--paths`: symbolic states kept at once, 1 to 1,024, else 64.
    Paths,
    /// `--frames`: open method calls, 1 to 256, else 64.
    Frames,
    /// `--elements`: array elements made in one run, 1 to 262,144, else 65,536.
    Elements,
    /// `--depth`: open forms of one evaluation, 1 to 2,000, else 2,000.
    Depth,
    /// `--work`: visited forms, 1 to 5,000,000, else 500,000.
    Work,
    /// `--nodes`: nodes of the graph, 1 to 2,000,000, else 500,000.
    Nodes,
    /// `--lines`: log lines for one pair or one path, 1 to 1,000,000, else 10,000.
    Lines,
    /// `--total`: log lines of the whole sweep, 1 to 100,000,000, else 1,000,000.
    Total,
    /// `--cases`: the greatest number of input bits that are tried one by one, 0 to 20, else 12.
    Cases,
    /// `--vectors`: opening test inputs, 1 to 256, else 64.
    Vectors,
    /// `--workers`: workers, 1 to 16, else 4.
    Workers,
    /// `--seed`: the seed of the test inputs, 0 to 2^64 - 1, else 1.
    Seed,
}

/// Why words mean no job, in the order in which it is looked for.
#[derive(Debug, Drop)]
pub enum WordsError {
    /// The first word is no command. Where there is no word it is empty.
    Unknown { word: String },
    /// `clap` doesn't take the words after the first, and this is its reason.
    Refused { kind: ErrorKind },
    /// The value of this option is no number in its range. It is the first such option in the order
    /// of the table.
    BadNumber { option: NumberWord },
    /// The size of this place, counted from 0, is no number up to 4,096, or with the sizes before it
    /// it passes 16,384. It is the first such size.
    BadSizes { at: u64 },
    /// The place of the result is neither `return` nor a number up to 65,535.
    BadOut,
    /// Want of memory.
    Memory,
}
