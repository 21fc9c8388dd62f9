ghost use Rattle.std.specs.Prelude.{◌≡◌, ◌≤◌, ℕ, IfOk, string_bytes, codes, option_map, None};
ghost use Rattle.verdict_text.specs.Texts.{text_of, refusal_text, shown_input, result_width};

use crate::causes::{
    budget_name, class_text, reason_text, shape_text, spec_text, why_text, words_text,
};
use crate::inputs::input_text;
use crate::results::{end_text, place_text, value_text};
use crate::verdict::{Refusal, Verdict};
use axe_io::{Budget, Input, Shape, Spent};
use class_file::ClassFile;
use memory::Memory;
use std::alloc::{AllocError, Global};

/// The text of a verdict. The shape is needed where it prints an input, the class where it prints a method.
pub fn verdict_text(
    alloc: Global,
    verdict: &Verdict,
    shape: Option<&Shape>,
    class: Option<&ClassFile>,
) -> Result<Vec<u8>, Memory>
    ensures { IfOk result (λ text. text.items ≡ text_of (option_map (λ s. s.now) shape.entry) (option_map (λ c. c.now) class.entry) verdict.now) }
{
    let text = text(alloc, verdict, shape, class)?;
    Ok(text.into_bytes())
}

fn text(
    alloc: Global,
    verdict: &Verdict,
    shape: Option<&Shape>,
    class: Option<&ClassFile>,
) -> Result<String, AllocError>
    ensures { IfOk result (λ text. string_bytes text ≡ text_of (option_map (λ s. s.now) shape.entry) (option_map (λ c. c.now) class.entry) verdict.now) }
{
    match verdict {
        Verdict::Equal { bits } => {
            let bits = *bits;
            format!(in alloc; "equal: {bits} bits of input\n")
        }
        Verdict::Different {
            input,
            method,
            spec,
        } => {
            let input = input_text(alloc, shape, input)?;
            let method = end_text(alloc, class, method)?;
            let spec = value_text(alloc, result_width(shape), spec)?;
            format!(in alloc; "different\n{input}{method}spec = {spec}\n")
        }
        Verdict::Unknown(spent) => spent_text(alloc, shape, spent),
        Verdict::UnknownCases { limit } => {
            let limit = *limit;
            format!(in alloc; "unknown: cases {limit}\n")
        }
        Verdict::Refused(refusal) => refusal_text(alloc, shape, class, refusal),
    }
}

/// The width of results, or 64 without a shape.
fn result_width(shape: Option<&Shape>) -> u32
    ensures value { result ≡ result_width (option_map (λ s. s.now) shape.entry) }
    ensures high { result ≤ 64 }
{
    match shape {
        Some(shape) => shape.kind().width(),
        None => 64,
    }
}

fn spent_text(alloc: Global, shape: Option<&Shape>, spent: &Spent) -> Result<String, AllocError>
    ensures { IfOk result (λ text. string_bytes text ≡ text_of (option_map (λ s. s.now) shape.entry) None (Verdict.Unknown spent.now)) }
{
    let name = budget_name(spent.budget);
    let limit = spent.limit;
    let input = shown_input(alloc, shape, spent.budget, spent.inputs.as_slice())?;
    format!(in alloc; "unknown: {name} {limit}\n{input}")
}

/// The input of an unknown, where its budget prints one.
fn shown_input(
    alloc: Global,
    shape: Option<&Shape>,
    budget: Budget,
    inputs: &[Input],
) -> Result<String, AllocError>
    ensures { IfOk result (λ text. string_bytes text ≡ shown_input (option_map (λ s. s.now) shape.entry) budget inputs.now) }
{
    match (budget, inputs.first()) {
        (Budget::Steps | Budget::Frames | Budget::Elements | Budget::Depth, Some(input)) => {
            input_text(alloc, shape, input)
        }
        _ => Ok(String::new(alloc)),
    }
}

fn refusal_text(
    alloc: Global,
    shape: Option<&Shape>,
    class: Option<&ClassFile>,
    refusal: &Refusal,
) -> Result<String, AllocError>
    ensures { IfOk result (λ text. string_bytes text ≡ refusal_text (option_map (λ s. s.now) shape.entry) (option_map (λ c. c.now) class.entry) refusal.now) }
{
    match refusal {
        Refusal::Words(error) => {
            let cause = words_text(alloc, error)?;
            format!(in alloc; "refused: words: {cause}\n")
        }
        Refusal::ClassLong => String::from_str(alloc, "refused: class: too long\n"),
        Refusal::Class(error) => {
            let cause = class_text(alloc, *error)?;
            format!(in alloc; "refused: class: {cause}\n")
        }
        Refusal::Method { count } => {
            let count = *count;
            format!(in alloc; "refused: method: {count} found\n")
        }
        Refusal::SpecLong => String::from_str(alloc, "refused: spec: too long\n"),
        Refusal::Spec(error) => {
            let cause = spec_text(alloc, *error)?;
            format!(in alloc; "refused: spec: {cause}\n")
        }
        Refusal::Function => String::from_str(alloc, "refused: function: not found\n"),
        Refusal::Shape(error) => {
            let cause = shape_text(alloc, *error)?;
            format!(in alloc; "refused: shape: {cause}\n")
        }
        Refusal::Formals {
            formals,
            parameters,
        } => {
            let (formals, parameters) = (*formals, *parameters);
            format!(in alloc; "refused: shape: formals {formals} parameters {parameters}\n")
        }
        Refusal::Instruction {
            reason,
            method,
            pc,
            input,
        } => {
            let cause = reason_text(alloc, *reason)?;
            let place = place_text(alloc, class, *method, *pc)?;
            let input = input_text(alloc, shape, input)?;
            format!(in alloc; "refused: instruction: {cause} in {place}\n{input}")
        }
        Refusal::Form { reason, at, input } => {
            let cause = why_text(*reason);
            let at = *at;
            let input = input_text(alloc, shape, input)?;
            format!(in alloc; "refused: form: {cause} at {at}\n{input}")
        }
    }
}
