//! The rows of the table.

ghost use Rattle.std.specs.Prelude.{◌≡◌, ◌≢◌, ◌++◌, ◌⊎◌, codes, string_bytes, IfOk, IsFalse, IsTrue, MatchOption};
ghost use Rattle.std.specs.Str.{trim};
ghost use Rattle.bv_rules_rows.specs.Terms.{Gives, Tells};

use crate::fault::Fault;
use crate::reading::read;
use crate::terms::Terms;
use std::alloc::Global;

/// A row: a rule's name, a node to which it applies with what it makes of it, and a node to which it doesn't apply
/// with what the rules make of that.
#[derive(Clone, Copy)]
pub(crate) struct Row<'a> {
    pub(crate) name: &'a str,
    pub(crate) example: Sample<'a>,
    pub(crate) miss: Sample<'a>,
}

/// A term, and the term that the rules should make of it.
#[derive(Clone, Copy)]
pub(crate) struct Sample<'a> {
    term: &'a str,
    outcome: &'a str,
}

/// Whether a line is a row, and not empty and no comment.
pub(crate) fn is_row(line: &str) -> bool {
    let text = line.trim();
    !text.is_empty() && !text.starts_with('#') && !text.starts_with("//")
}

/// The row of a line.
pub(crate) fn row_of(line: &str) -> Result<Row<'_>, Fault> {
    let mut columns = line.split('|');
    match (
        columns.next(),
        columns.next(),
        columns.next(),
        columns.next(),
        columns.next(),
        columns.next(),
    ) {
        (Some(name), Some(term), Some(outcome), Some(other), Some(another), None) => Ok(Row {
            name: name.trim(),
            example: sample_of(term, outcome),
            miss: sample_of(other, another),
        }),
        _ => Err(Fault::Columns),
    }
}

fn sample_of<'a>(term: &'a str, outcome: &'a str) -> Sample<'a>
    ensures term { result.term.now ≡ trim term.now }
    ensures outcome { result.outcome.now ≡ trim outcome.now }
{
    Sample {
        term: term.trim(),
        outcome: outcome.trim(),
    }
}

/// What the rules make of a sample's term, where it isn't what it should be.
fn other_result(alloc: Global, sample: Sample) -> Result<Option<String>, Fault>
    ensures { IfOk result (λ other. MatchOption other (Gives sample.entry.outcome.now) (λ got. Gives (string_bytes got) × (string_bytes got ≢ sample.entry.outcome.now))) }
{
    let mut terms = Terms::begin(alloc)?;
    let node = read(alloc, &mut terms, sample.term)?;
    let got = terms.picked(node)?;
    if got.as_str() == sample.outcome {
        Ok(None)
    } else {
        Ok(Some(got))
    }
}

/// What is to be said of a row: that it is right, or what is wrong with it.
pub(crate) fn compared(alloc: Global, row: Row) -> Result<Report, Fault>
    ensures right { IfOk result (λ report. IsTrue report.right → Gives row.entry.example.outcome.now × Gives row.entry.miss.outcome.now × (string_bytes report.text ≡ row.entry.name.now ++ codes ": ok")) }
    ensures wrong { IfOk result (λ report. IsFalse report.right → Tells row.entry.name.now (codes "example") row.entry.example.outcome.now (string_bytes report.text) ⊎ Tells row.entry.name.now (codes "near miss") row.entry.miss.outcome.now (string_bytes report.text)) }
{
    let name = row.name;
    if let Some(got) = other_result(alloc, row.example)? {
        let wanted = row.example.outcome;
        let text = format!(in alloc; "{name}: example gives {got}, wanted {wanted}")?;
        return Ok(Report { text, right: false });
    }
    if let Some(got) = other_result(alloc, row.miss)? {
        let wanted = row.miss.outcome;
        let text = format!(in alloc; "{name}: near miss gives {got}, wanted {wanted}")?;
        return Ok(Report { text, right: false });
    }
    let text = format!(in alloc; "{name}: ok")?;
    Ok(Report { text, right: true })
}

/// A line that reports on a row, and whether the row is right.
#[derive(Drop)]
pub(crate) struct Report {
    pub(crate) text: String,
    pub(crate) right: bool,
}
