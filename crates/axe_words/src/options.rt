ghost use Rattle.std.specs.Prelude.{◌≡◌, ◌≤◌, None, Some, IfErr, IfOk, Ok};
ghost use Rattle.clap.specs.Words.{first_value, found_of};
ghost use Rattle.axe_words.specs.Options.{number_option, number_of, number_options, numbers_of, HaveNumbers, first_bad, IsFirstBad, sizes_of, IsSizesFaultOf, out_in, out_of};

use crate::job::{Command, NumberWord, WordsError};
use crate::numbers::{SizesFault, number_in, sizes_in};
use axe_io::{Budgets, OutPlace};
use clap::ArgMatches;
use std::alloc::Global;

/// The number of an option: that of its value, or the default where it has none.
fn number(
    matches: &ArgMatches,
    option: NumberWord,
    name: &'static str,
    default: u64,
    least: u64,
    greatest: u64,
) -> Result<u64, WordsError>
    requires { (least ≤ default) × (default ≤ greatest) }
    ensures ok { IfOk result (λ n. number_of (first_value (found_of matches.now)) (number_option option name.now default least greatest) ≡ Some n) }
    ensures range { IfOk result (λ n. (least ≤ n) × (n ≤ greatest)) }
    ensures err { IfErr result (λ e. (e ≡ WordsError.BadNumber option) × (number_of (first_value (found_of matches.now)) (number_option option name.now default least greatest) ≡ None)) }
{
    let Some(text) = matches.get_str(name) else {
        return Ok(default);
    };
    match number_in(text.as_bytes(), least, greatest) {
        Some(n) => Ok(n),
        None => Err(WordsError::BadNumber { option }),
    }
}

/// The numbers of a `prove`. The first option of its table that is bad decides.
pub(crate) fn budgets(matches: &ArgMatches) -> Result<Budgets, WordsError>
    ensures ok { IfOk result (λ b. HaveNumbers (first_value (found_of matches.now)) (number_options Command.Prove) (numbers_of b)) }
    ensures good { IfOk result (λ _. first_bad (first_value (found_of matches.now)) (number_options Command.Prove) ≡ None) }
    ensures err { IfErr result (λ e. IsFirstBad (first_value (found_of matches.now)) e) }
{
    let steps = number(matches, NumberWord::Steps, "steps", 200_000, 1, 2_000_000)?;
    let paths = number(matches, NumberWord::Paths, "paths", 64, 1, 1_024)?;
    let frames = number(matches, NumberWord::Frames, "frames", 64, 1, 256)?;
    let elements = number(
        matches,
        NumberWord::Elements,
        "elements",
        65_536,
        1,
        262_144,
    )?;
    let depth = number(matches, NumberWord::Depth, "depth", 2_000, 1, 2_000)?;
    let work = number(matches, NumberWord::Work, "work", 500_000, 1, 5_000_000)?;
    let nodes = number(matches, NumberWord::Nodes, "nodes", 500_000, 1, 2_000_000)?;
    let lines = number(matches, NumberWord::Lines, "lines", 10_000, 1, 1_000_000)?;
    let total = number(
        matches,
        NumberWord::Total,
        "total",
        1_000_000,
        1,
        100_000_000,
    )?;
    let cases = number(matches, NumberWord::Cases, "cases", 12, 0, 20)?;
    let vectors = number(matches, NumberWord::Vectors, "vectors", 64, 1, 256)?;
    let workers = number(matches, NumberWord::Workers, "workers", 4, 1, 16)?;
    let seed = number(matches, NumberWord::Seed, "seed", 1, 0, u64::MAX)?;
    Ok(Budgets {
        steps,
        paths: paths as u32,
        frames: frames as u32,
        elements,
        depth: depth as u32,
        work,
        nodes: nodes as u32,
        lines,
        total,
        cases: cases as u32,
        vectors: vectors as u32,
        workers: workers as u32,
        seed,
    })
}

/// The lengths of the array parameters.
pub(crate) fn sizes(alloc: Global, matches: &ArgMatches) -> Result<Vec<u32>, SizesFault>
    ensures ok { IfOk result (λ sizes. sizes_of (first_value (found_of matches.now)) ≡ Ok sizes.items) }
    ensures err { IfErr result (IsSizesFaultOf (first_value (found_of matches.now))) }
{
    match matches.get_str("sizes") {
        Some(text) => sizes_in(alloc, text),
        None => Ok(Vec::new(alloc)),
    }
}

/// The place that a text names.
fn out_in(text: &str) -> Option<OutPlace>
    ensures { result ≡ out_in text.now }
{
    if text == "return" {
        return Some(OutPlace::Returned);
    }
    let number = number_in(text.as_bytes(), 0, 65_535)?;
    Some(OutPlace::Param(number as u16))
}

/// Where the result is observed.
pub(crate) fn out(matches: &ArgMatches) -> Option<OutPlace>
    ensures { result ≡ out_of (first_value (found_of matches.now)) }
{
    match matches.get_str("out") {
        Some(text) => out_in(text),
        None => Some(OutPlace::Returned),
    }
}
