ghost use Rattle.std.specs.Prelude.{◌≡◌, ◌⊎◌, [], ◌∷◌, ◌++◌, false, true, IfErr, IfOk, map, codes};
ghost use Rattle.std.specs.String.{string_bytes};
ghost use Rattle.clap.specs.Words.{app_of, with_rule, first_value, found_of, kind_of, HasKind};
ghost use Rattle.axe_words.specs.Command.{required_rule, option_rule, bare_app, prove_app, given_by, faults, is_taken, HasWords, AddsNamed, IsBare, HasArguments};

use clap::error::ErrorKind;
use clap::{Arg, ArgAction, ArgMatches, Command, Error};
use std::alloc::{AllocError, Global};

/// One more word that has to be there.
fn positional<'a>(
    alloc: Global,
    command: Command<'a>,
    name: &'static str,
) -> Result<Command<'a>, AllocError>
    ensures app { IfOk result (λ c. app_of c ≡ with_rule (app_of command.entry) (required_rule name.entry.now)) }
    ensures adds { IfOk result (AddsNamed true name.entry.now command.entry) }
{
    let arg = Arg::new(alloc, name).required(true).action(ArgAction::Set);
    command.arg(arg)
}

/// One more option, with a value.
fn option<'a>(
    alloc: Global,
    command: Command<'a>,
    name: &'static str,
) -> Result<Command<'a>, AllocError>
    ensures app { IfOk result (λ c. app_of c ≡ with_rule (app_of command.entry) (option_rule name.entry.now)) }
    ensures adds { IfOk result (AddsNamed false name.entry.now command.entry) }
{
    let arg = Arg::new(alloc, name).long(name).action(ArgAction::Set);
    command.arg(arg)
}

/// A command with no argument, which reads every word that it is given.
fn bare<'a>(alloc: Global) -> Command<'a>
    ensures app { app_of result ≡ bare_app }
    ensures empty { IsBare result }
{
    Command::new(alloc, "axe")
        .no_binary_name(true)
        .disable_help_flag(true)
        .disable_version_flag(true)
}

/// The command of `prove`.
fn prove_command<'a>(alloc: Global) -> Result<Command<'a>, AllocError>
    ensures app { IfOk result (λ c. app_of c ≡ prove_app) }
    ensures arguments { IfOk result HasArguments }
{
    let c0 = bare(alloc);
    let c1 = positional(alloc, c0, "class")?;
    let c2 = positional(alloc, c1, "method")?;
    let c3 = positional(alloc, c2, "spec")?;
    let c4 = positional(alloc, c3, "function")?;
    let c5 = option(alloc, c4, "desc")?;
    let c6 = option(alloc, c5, "sizes")?;
    let c7 = option(alloc, c6, "out")?;
    let c8 = option(alloc, c7, "steps")?;
    let c9 = option(alloc, c8, "paths")?;
    let c10 = option(alloc, c9, "frames")?;
    let c11 = option(alloc, c10, "elements")?;
    let c12 = option(alloc, c11, "depth")?;
    let c13 = option(alloc, c12, "work")?;
    let c14 = option(alloc, c13, "nodes")?;
    let c15 = option(alloc, c14, "lines")?;
    let c16 = option(alloc, c15, "total")?;
    let c17 = option(alloc, c16, "cases")?;
    let c18 = option(alloc, c17, "vectors")?;
    let c19 = option(alloc, c18, "workers")?;
    let c20 = option(alloc, c19, "seed")?;
    Ok(c20)
}

/// What `clap` makes of the words after `prove`.
pub(crate) fn matches_of<'a>(alloc: Global, words: &'a [String]) -> Result<ArgMatches<'a>, Error>
    ensures given { IfOk result (λ m. first_value (found_of m) ≡ given_by (map string_bytes words.entry.now)) }
    ensures fits { IfOk result (λ _. faults (map string_bytes words.entry.now) ≡ []) }
    ensures present { IfOk result (λ _. HasWords (given_by (map string_bytes words.entry.now))) }
    ensures kind { IfErr result (HasKind (faults (map string_bytes words.entry.now))) }
    ensures refused { IfErr result (λ e. is_taken (map string_bytes words.entry.now) ≡ true → kind_of e ≡ ErrorKind.OutOfMemory) }
{
    let command = prove_command(alloc)?;
    command.try_get_matches_from(words)
}
