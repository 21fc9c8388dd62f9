ghost use Rattle.std.specs.Prelude.{◌≡◌};
ghost use Rattle.axe_io.specs.Ranges.{AreBudgets};

use crate::input::Input;
use sqlite_items::Items;

/// What can be spent before an answer is found.
#[derive(Clone, Copy, Debug, PartialEq, Eq)]
pub enum Budget {
    /// Instructions of one run.
    Steps,
    /// Symbolic states kept at once, ended ones included.
    Paths,
    /// Open method calls.
    Frames,
    /// Array elements made in one run.
    Elements,
    /// Open forms of one evaluation.
    Depth,
    /// Visited forms.
    Work,
    /// Nodes of the graph.
    Nodes,
    /// Variables of one formula.
    Variables,
    /// Log lines for the question whether a path is taken.
    Settle,
    /// Log lines for one pair.
    Lines,
    /// Log lines of the whole sweep.
    Total,
}

/// The numbers of a job; `AreBudgets` gives their ranges.
#[derive(Clone, Copy, Debug, PartialEq, Eq)]
pub struct Budgets {
    /// Instructions of one run, from 1 to 2,000,000.
    pub steps: u64,
    /// Symbolic states kept at once, from 1 to 1,024.
    pub paths: u32,
    /// Open method calls, from 1 to 256.
    pub frames: u32,
    /// Array elements made in one run, from 1 to 262,144.
    pub elements: u64,
    /// Open forms of one evaluation, from 1 to 2,000.
    pub depth: u32,
    /// Visited forms, from 1 to 5,000,000.
    pub work: u64,
    /// Nodes of the graph, from 1 to 2,000,000.
    pub nodes: u32,
    /// Log lines for one pair or one path, from 1 to 1,000,000.
    pub lines: u64,
    /// Log lines of the whole sweep, from 1 to 100,000,000.
    pub total: u64,
    /// The greatest number of input bits that are tried one by one, from 0 to 20.
    pub cases: u32,
    /// Opening test inputs, from 1 to 256.
    pub vectors: u32,
    /// Workers, from 1 to 16.
    pub workers: u32,
    /// The seed of the test inputs.
    pub seed: u64,
}

impl Budgets {
    /// The numbers of a job whose words name none.
    pub fn defaults() -> Budgets
        ensures ranges { AreBudgets result }
        ensures value { result ≡ record { steps = 200000; paths = 64; frames = 64; elements = 65536; depth = 2000; work = 500000; nodes = 500000; lines = 10000; total = 1000000; cases = 12; vectors = 64; workers = 4; seed = 1 } }
    {
        Budgets {
            steps: 200_000,
            paths: 64,
            frames: 64,
            elements: 65_536,
            depth: 2_000,
            work: 500_000,
            nodes: 500_000,
            lines: 10_000,
            total: 1_000_000,
            cases: 12,
            vectors: 64,
            workers: 4,
            seed: 1,
        }
    }
}

/// Which budget was spent, its number, and the inputs that show it.
#[derive(Debug, Drop)]
pub struct Spent {
    pub budget: Budget,
    pub limit: u64,
    pub inputs: Items<Input>,
}
