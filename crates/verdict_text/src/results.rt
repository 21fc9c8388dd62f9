ghost use Rattle.std.specs.Prelude.{◌≡◌, ◌≤◌, ℕ, IfOk, string_bytes, codes, option_map};
ghost use Rattle.verdict_text.specs.Texts.{place, seen_text, end_text, value_text};

use crate::causes::throw_name;
use crate::names::method_text;
use crate::words::{number_text, numbers_text, word_text, words_text};
use class_file::{ClassFile, MethodId};
use jvm_state::{End, Seen};
use spec_meaning::Value;
use std::alloc::{AllocError, Global};

/// A place in a method.
pub fn place_text(
    alloc: Global,
    class: Option<&ClassFile>,
    id: MethodId,
    pc: u32,
) -> Result<String, AllocError>
    ensures { IfOk result (λ text. string_bytes text ≡ place (option_map (λ c. c.now) class.entry) id pc) }
{
    let method = match class {
        Some(class) => method_text(alloc, class, id)?,
        None => String::new(alloc),
    };
    format!(in alloc; "{method} at {pc}")
}

fn seen_text(alloc: Global, seen: &Seen) -> Result<String, AllocError>
    ensures { IfOk result (λ text. string_bytes text ≡ seen_text seen.now) }
{
    match seen {
        Seen::Word(width, word) => word_text(alloc, *width, *word),
        Seen::Items(width, words) => words_text(alloc, *width, words.as_slice()),
        Seen::Null => String::from_str(alloc, "null"),
    }
}

/// The line of what the method gives; it returns or throws.
pub fn end_text(alloc: Global, class: Option<&ClassFile>, end: &End) -> Result<String, AllocError>
    ensures { IfOk result (λ text. string_bytes text ≡ end_text (option_map (λ c. c.now) class.entry) end.now) }
{
    match end {
        End::Returned { seen } => {
            let seen = seen_text(alloc, seen)?;
            format!(in alloc; "method = {seen}\n")
        }
        End::Threw { kind, method, pc } => {
            let name = throw_name(*kind);
            let place = place_text(alloc, class, *method, *pc)?;
            format!(in alloc; "method threw {name} in {place}\n")
        }
        End::Refused { .. } | End::MoreSteps | End::MoreFrames | End::MoreElements => {
            Ok(String::new(alloc))
        }
    }
}

/// A value of the specification beside results of a width.
pub fn value_text(alloc: Global, width: u32, value: &Value) -> Result<String, AllocError>
    requires { width ≤ 64 }
    ensures { IfOk result (λ text. string_bytes text ≡ value_text width value.now) }
{
    match value {
        Value::Number(number) => number_text(alloc, width, *number),
        Value::T => String::from_str(alloc, "t"),
        Value::List(numbers) => numbers_text(alloc, width, numbers.as_slice()),
    }
}
