ghost use Rattle.std.specs.Prelude.{◌≡◌, ◌≢◌, [], map, is_some, option_map, true, codes, ◌↔◌, IsSome, IfErr, IfOk, Some};
ghost use Rattle.std.specs.String.{string_bytes};
ghost use Rattle.clap.specs.Words.{first_value, found_of};
ghost use Rattle.axe_words.specs.Command.{HasWords, given_by, faults};
ghost use Rattle.axe_words.specs.Meaning.{HasRanges, IsJob, IsJobOf, IsValueFault, IsProveFault, IsWordsFault};

use crate::command::matches_of;
use crate::job::{Command, Job, WordsError};
use crate::numbers::SizesFault;
use crate::options::{budgets, out, sizes};
use clap::ArgMatches;
use clap::error::ErrorKind;
use std::alloc::{AllocError, Global};

/// A text of its own.
fn copied(alloc: Global, text: &str) -> Result<String, WordsError>
    ensures ok { IfOk result (λ s. string_bytes s ≡ text.now) }
    ensures err { IfErr result (λ e. e ≡ WordsError.Memory) }
{
    match String::from_str(alloc, text) {
        Ok(copy) => Ok(copy),
        Err(_) => Err(WordsError::Memory),
    }
}

/// The value of a name that has one.
fn word(alloc: Global, matches: &ArgMatches, name: &'static str) -> Result<String, WordsError>
    requires { is_some (first_value (found_of matches.now) name.now) ≡ true }
    ensures ok { IfOk result (λ s. first_value (found_of matches.now) name.now ≡ Some (string_bytes s)) }
    ensures err { IfErr result (λ e. e ≡ WordsError.Memory) }
{
    copied(alloc, matches.get_str(name).unwrap())
}

/// The value of a name, if it has one.
fn optional_word(
    alloc: Global,
    matches: &ArgMatches,
    name: &'static str,
) -> Result<Option<String>, WordsError>
    ensures ok { IfOk result (λ o. first_value (found_of matches.now) name.now ≡ option_map string_bytes o) }
    ensures err { IfErr result (λ e. e ≡ WordsError.Memory) }
{
    match matches.get_str(name) {
        Some(text) => Ok(Some(copied(alloc, text)?)),
        None => Ok(None),
    }
}

/// The job that the values of a `prove` make.
fn job_of(alloc: Global, matches: &ArgMatches) -> Result<Job, WordsError>
    requires { HasWords (first_value (found_of matches.now)) }
    ensures job { IfOk result (IsJobOf (first_value (found_of matches.now))) }
    ensures fault { IfErr result (IsValueFault (first_value (found_of matches.now))) }
{
    let budgets = budgets(matches)?;
    let sizes = match sizes(alloc, matches) {
        Ok(sizes) => sizes,
        Err(SizesFault::Bad(at)) => return Err(WordsError::BadSizes { at }),
        Err(SizesFault::Memory) => return Err(WordsError::Memory),
    };
    let Some(out) = out(matches) else {
        return Err(WordsError::BadOut);
    };
    Ok(Job::Prove {
        class: word(alloc, matches, "class")?,
        method: word(alloc, matches, "method")?,
        spec: word(alloc, matches, "spec")?,
        function: word(alloc, matches, "function")?,
        desc: optional_word(alloc, matches, "desc")?,
        sizes,
        out,
        budgets,
    })
}

/// The job that the words after `prove` mean.
fn prove_job(alloc: Global, words: &[String]) -> Result<Job, WordsError>
    ensures fits { IfOk result (λ _. faults (map string_bytes words.now) ≡ []) }
    ensures job { IfOk result (IsJobOf (given_by (map string_bytes words.now))) }
    ensures fault { IfErr result (IsProveFault (map string_bytes words.now)) }
{
    match matches_of(alloc, words) {
        Ok(matches) => job_of(alloc, &matches),
        Err(error) => Err(refusal(error.kind())),
    }
}

/// The refusal of a kind.
fn refusal(kind: ErrorKind) -> WordsError
    ensures memory { kind ≡ ErrorKind.OutOfMemory → result ≡ WordsError.Memory }
    ensures other { kind ≢ ErrorKind.OutOfMemory → result ≡ WordsError.Refused kind }
{
    match kind {
        ErrorKind::OutOfMemory => WordsError::Memory,
        kind => WordsError::Refused { kind },
    }
}

/// The command that a word names.
fn command_of(word: &str) -> Option<Command>
    ensures named { IsSome result ↔ (word.now ≡ codes "prove") }
{
    if word == "prove" {
        return Some(Command::Prove);
    }
    None
}

/// The job that words mean: `prove CLASS METHOD SPEC FUNCTION [options]`.
///
/// The options are `--desc`, `--sizes`, `--out` and those of `NumberWord`, each with a value as the
/// next word or after `=`. Nothing else is taken, and no option twice. The numbers of a job are in their ranges.
pub fn read_words(alloc: Global, words: &[String]) -> Result<Job, WordsError>
    ensures job { IfOk result (IsJob (map string_bytes words.now)) }
    ensures ranges { IfOk result HasRanges }
    ensures fault { IfErr result (IsWordsFault (map string_bytes words.now)) }
{
    match words.split_first() {
        Some((first, rest)) => {
            match command_of(first.as_str()) {
                Some(Command::Prove) => prove_job(alloc, rest),
                None => Err(WordsError::Unknown {
                    word: copied(alloc, first.as_str())?,
                }),
            }
        }
        None => Err(WordsError::Unknown {
            word: String::new(alloc),
        }),
    }
}
