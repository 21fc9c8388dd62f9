ghost use Rattle.std.specs.Prelude.{◌≡◌, ℕ, IfOk, string_bytes, codes};
ghost use Rattle.verdict_text.specs.Texts.{throw_name, reason_text, why_text, class_text, option_name, words_text, spec_text, shape_text, budget_name};

use crate::names::name_text;
use axe_io::Budget;
use axe_words::{NumberWord, WordsError};
use class_file::ClassError;
use jvm_run::ShapeError;
use jvm_state::{Reason, Throw};
use spec_form::SpecError;
use spec_meaning::Why;
use std::alloc::{AllocError, Global};

/// The name of what is thrown.
pub fn throw_name(kind: Throw) -> &'static str
    ensures { result.now ≡ throw_name kind }
{
    match kind {
        Throw::NullPointer => "java.lang.NullPointerException",
        Throw::ArrayIndex => "java.lang.ArrayIndexOutOfBoundsException",
        Throw::NegativeSize => "java.lang.NegativeArraySizeException",
        Throw::Arithmetic => "java.lang.ArithmeticException",
    }
}

/// Why a run is refused.
pub fn reason_text(alloc: Global, reason: Reason) -> Result<String, AllocError>
    ensures { IfOk result (λ text. string_bytes text ≡ reason_text reason) }
{
    match reason {
        Reason::OutsideProfile { op } => format!(in alloc; "opcode {op}"),
        Reason::WrongOperand => String::from_str(alloc, "wrong operand"),
        Reason::BadCode => String::from_str(alloc, "bad code"),
        Reason::Handler => String::from_str(alloc, "handler"),
        Reason::UnknownCallee => String::from_str(alloc, "unknown callee"),
        Reason::UnknownField => String::from_str(alloc, "unknown field"),
        Reason::InitThrew { kind } => {
            let name = throw_name(kind);
            format!(in alloc; "initialiser threw {name}")
        }
    }
}

/// Why a form has no value.
pub fn why_text(why: Why) -> &'static str
    ensures { result.now ≡ why_text why }
{
    match why {
        Why::NotANumber => "not a number",
        Why::NotAList => "not a list",
        Why::BadWidth => "bad width",
        Why::BadPlace => "bad place",
        Why::BadLength => "bad length",
        Why::TooWide => "too wide",
    }
}

/// Why bytes are no class; want of memory is no such reason, and has no text.
pub fn class_text(alloc: Global, error: ClassError) -> Result<String, AllocError>
    ensures { IfOk result (λ text. string_bytes text ≡ class_text error) }
{
    match error {
        ClassError::Truncated { at } => format!(in alloc; "truncated at {at}"),
        ClassError::BadMagic => String::from_str(alloc, "bad magic"),
        ClassError::BadVersion { major } => format!(in alloc; "bad version {major}"),
        ClassError::BadTag { at, tag } => format!(in alloc; "bad tag {tag} at {at}"),
        ClassError::BadIndex { at, index } => format!(in alloc; "bad index {index} at {at}"),
        ClassError::BadLength { at } => format!(in alloc; "bad length at {at}"),
        ClassError::Trailing { at } => format!(in alloc; "trailing bytes at {at}"),
        ClassError::Memory => Ok(String::new(alloc)),
    }
}

/// The option of a number.
fn option_name(option: NumberWord) -> &'static str
    ensures { result.now ≡ option_name option }
{
    match option {
        NumberWord::Steps => "steps",
        NumberWord::Paths => "paths",
        NumberWord::Frames => "frames",
        NumberWord::Elements => "elements",
        NumberWord::Depth => "depth",
        NumberWord::Work => "work",
        NumberWord::Nodes => "nodes",
        NumberWord::Lines => "lines",
        NumberWord::Total => "total",
        NumberWord::Cases => "cases",
        NumberWord::Vectors => "vectors",
        NumberWord::Workers => "workers",
        NumberWord::Seed => "seed",
    }
}

/// Why words mean no job; want of memory is no such reason, and has no text.
pub fn words_text(alloc: Global, error: &WordsError) -> Result<String, AllocError>
    ensures { IfOk result (λ text. string_bytes text ≡ words_text error.now) }
{
    match error {
        WordsError::Unknown { word } => {
            let word = name_text(alloc, word.as_bytes())?;
            format!(in alloc; "unknown command '{word}'")
        }
        WordsError::Refused { kind: _ } => String::from_str(alloc, "not of this command's form"),
        WordsError::BadNumber { option } => {
            let name = option_name(*option);
            format!(in alloc; "bad value of --{name}")
        }
        WordsError::BadSizes { at } => {
            let at = *at;
            format!(in alloc; "bad sizes at {at}")
        }
        WordsError::BadOut => String::from_str(alloc, "bad out"),
        WordsError::Memory => Ok(String::new(alloc)),
    }
}

/// Why bytes are no specification; want of memory is no such reason, and has no text.
pub fn spec_text(alloc: Global, error: SpecError) -> Result<String, AllocError>
    ensures { IfOk result (λ text. string_bytes text ≡ spec_text error) }
{
    match error {
        SpecError::BadToken { at } => format!(in alloc; "bad token at {at}"),
        SpecError::Unclosed { at } => format!(in alloc; "unclosed at {at}"),
        SpecError::BadForm { at } => format!(in alloc; "bad form at {at}"),
        SpecError::UnboundName { at } => format!(in alloc; "unbound name at {at}"),
        SpecError::Duplicate { at } => format!(in alloc; "duplicate at {at}"),
        SpecError::TooDeep { at } => format!(in alloc; "too deep at {at}"),
        SpecError::Memory => Ok(String::new(alloc)),
    }
}

/// Why a method has no shape; want of memory is no such reason, and has no text.
pub fn shape_text(alloc: Global, error: ShapeError) -> Result<String, AllocError>
    ensures { IfOk result (λ text. string_bytes text ≡ shape_text error) }
{
    match error {
        ShapeError::BadType { at } => format!(in alloc; "type at {at}"),
        ShapeError::Sizes { wanted, given } => {
            format!(in alloc; "sizes wanted {wanted} given {given}")
        }
        ShapeError::Out => String::from_str(alloc, "out"),
        ShapeError::Memory => Ok(String::new(alloc)),
    }
}

/// The name of a budget.
pub fn budget_name(budget: Budget) -> &'static str
    ensures { result.now ≡ budget_name budget }
{
    match budget {
        Budget::Steps => "steps",
        Budget::Paths => "paths",
        Budget::Frames => "frames",
        Budget::Elements => "elements",
        Budget::Depth => "depth",
        Budget::Work => "work",
        Budget::Nodes => "nodes",
        Budget::Variables => "variables",
        Budget::Settle => "settle",
        Budget::Lines => "lines",
        Budget::Total => "total",
    }
}
