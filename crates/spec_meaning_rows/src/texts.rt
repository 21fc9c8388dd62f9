//! Ends of evaluations and faults of texts as the table spells them.

use spec_form::SpecError;
use spec_meaning::{SpecEnd, Value, Why};
use std::alloc::{AllocError, Global};

fn cause(why: Why) -> &'static str {
    match why {
        Why::NotANumber => "not a number",
        Why::NotAList => "not a list",
        Why::BadWidth => "bad width",
        Why::BadPlace => "bad place",
        Why::BadLength => "bad length",
        Why::TooWide => "too wide",
    }
}

/// The numbers of a list in parentheses.
fn list_text(alloc: Global, numbers: &[i128]) -> Result<String, AllocError> {
    let mut text = String::from_str(alloc, "(")?;
    for (place, number) in numbers.iter().enumerate() {
        if place > 0 {
            text.push_str(" ")?;
        }
        let number = *number;
        let digits = format!(in alloc; "{number}")?;
        text.push_str(&digits)?;
    }
    text.push_str(")")?;
    Ok(text)
}

/// The end of an evaluation.
pub(crate) fn end_text(alloc: Global, end: SpecEnd) -> Result<String, AllocError> {
    match end {
        SpecEnd::Value(Value::Number(number)) => format!(in alloc; "{number}"),
        SpecEnd::Value(Value::T) => String::from_str(alloc, "t"),
        SpecEnd::Value(Value::List(numbers)) => list_text(alloc, numbers.as_slice()),
        SpecEnd::Outside { at, reason } => {
            let cause = cause(reason);
            format!(in alloc; "{cause} at {at}")
        }
        SpecEnd::MoreDepth => String::from_str(alloc, "depth"),
        SpecEnd::MoreWork => String::from_str(alloc, "work"),
    }
}

/// The fault of a text.
pub(crate) fn fault_text(alloc: Global, fault: SpecError) -> Result<String, AllocError> {
    format!(in alloc; "{fault}")
}
