ghost use Rattle.std.specs.Prelude.{◌≡◌, ◌++◌, ◌∷◌, [], ◌<◌, OnOk, OnErr, length, slice_index_or};

use cnf_clauses::lit::{ClauseId, Lit};
use cnf_clauses::rows::Rows;
use std::alloc::{AllocError, Global};
use std::marker::Model;

/// The lines of a log, each as the clause that it begins with, its steps and its clause. They lie flat in memory.
#[derive(Drop)]
pub struct Lines {
    starts: Vec<ClauseId>,
    steps: Rows<(ClauseId, Lit)>,
    clauses: Rows<Lit>,
}

impl Model for Lines {
    ghost use Rattle.std.specs.Prelude.{List, ◌≡◌, length};
    ghost use Rattle.clause_log.specs.Line.{Line, lines_of};

    ghost Value = { List Line };

    ghost view = { λ l. lines_of l.starts.items l.steps l.clauses };

    ghost invariant = { λ l. (length l.steps ≡ length l.starts.items) × (length l.clauses ≡ length l.starts.items) };
}

impl Lines {
    ghost use Rattle.clause_log.specs.Line.{Line};

    /// No lines. It takes no memory.
    pub fn new(alloc: Global) -> Lines
        ensures { result ≡ [] }
    {
        Lines {
            starts: Vec::new(alloc),
            steps: Rows::new(alloc),
            clauses: Rows::new(alloc),
        }
    }

    /// How many lines there are.
    pub fn len(&self) -> usize
        ensures { result ≡ length self.now }
    {
        self.starts.len()
    }

    /// What a line begins with.
    pub fn start(&self, line: usize) -> ClauseId
        requires { line < length self.now }
        ensures { (d : Line) → result ≡ (slice_index_or self.now line d).start }
    {
        self.starts[line]
    }

    /// The steps of a line.
    pub fn steps(&self, line: usize) -> &[(ClauseId, Lit)]
        requires { line < length self.now }
        ensures { (d : Line) → result.now ≡ (slice_index_or self.now line d).steps }
    {
        self.steps.row(line)
    }

    /// The clause of a line.
    pub fn clause(&self, line: usize) -> &[Lit]
        requires { line < length self.now }
        ensures { (d : Line) → result.now ≡ (slice_index_or self.now line d).clause }
    {
        self.clauses.row(line)
    }

    /// Appends a line. For want of memory nothing changes.
    pub fn push(
        &mut self,
        start: ClauseId,
        steps: &[(ClauseId, Lit)],
        clause: &[Lit],
    ) -> Result<(), AllocError>
        ensures ok { OnOk result (self.new ≡ self.old ++ record { start = start; steps = steps.now; clause = clause.now } ∷ []) }
        ensures err { OnErr result (self.new ≡ self.old) }
    {
        self.starts.reserve(1)?;
        self.steps.push(steps)?;
        match self.clauses.push(clause) {
            Ok(()) => {
                self.starts.push_reserved(start);
                Ok(())
            }
            Err(e) => {
                self.steps.pop();
                Err(e)
            }
        }
    }
}
