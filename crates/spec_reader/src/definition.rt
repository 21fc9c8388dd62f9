ghost use Rattle.std.specs.Prelude.{◌≡◌, [], ◌∷◌, map};
ghost use Rattle.spec_reader.specs.Reading.{Gives, with_front};
ghost use Rattle.spec_reader.specs.Expressions.{reading, defines, function_named, function_form, constant_named, constant_parts, pair_of, top_form, top_list, definitions};

use crate::datum::Datum;
use crate::expression::Definition;
use crate::names::{are_variables, is_constant, is_defconst, is_defun, is_skipped};
use crate::parts::{are_preamble, behind_text, name_of, names_of, pair_of, split_last};
use crate::syntax::{body_behind, expression};
use spec_form::SpecError;
use sqlite_items::Items;
use std::alloc::Global;

/// The definitions of the data of the top level.
pub fn definitions(alloc: Global, data: &[Datum]) -> Result<Items<Definition>, SpecError>
    ensures { Gives (λ ds. ds) result (definitions (map reading «data».now)) }
{
    let mut out = Items::new(alloc);
    for datum in data {
        top_datum(alloc, datum, &mut out)?;
    }
    Ok(out)
}

/// Adds what a datum of the top level defines, if anything.
fn top_datum(alloc: Global, datum: &Datum, out: &mut Items<Definition>) -> Result<(), SpecError>
    ensures { Gives (λ _. out.new) result (with_front out.old (reading datum.now).definition) }
{
    match datum {
        Datum::Word(at, _) => Err(SpecError::BadForm { at: *at }),
        Datum::Number(at, _) => Err(SpecError::BadForm { at: *at }),
        Datum::Text(at) => Err(SpecError::BadForm { at: *at }),
        Datum::Quote(at, _, _) => Err(SpecError::BadForm { at: *at }),
        Datum::List(at, _, parts) => top_list(alloc, *at, parts.as_slice(), out),
    }
}

fn top_list(
    alloc: Global,
    at: u32,
    parts: &[Datum],
    out: &mut Items<Definition>,
) -> Result<(), SpecError>
    ensures { Gives (λ _. out.new) result (with_front out.old (top_list at (map reading parts.now))) }
{
    let Some((operator, rest)) = parts.split_first() else {
        return Err(SpecError::BadForm { at });
    };
    let Some(name) = name_of(operator) else {
        return Err(SpecError::BadForm { at });
    };
    top_form(alloc, at, name, rest, out)
}

/// Adds what a form of the top level defines, if anything.
fn top_form(
    alloc: Global,
    at: u32,
    name: &[u8],
    parts: &[Datum],
    out: &mut Items<Definition>,
) -> Result<(), SpecError>
    ensures { Gives (λ _. out.new) result (with_front out.old (top_form at name.now (map reading parts.now))) }
{
    if is_defun(name) {
        let definition = function_form(alloc, at, parts)?;
        out.push(definition)?;
        return Ok(());
    }
    if is_defconst(name) {
        let definition = constant_form(alloc, at, parts)?;
        out.push(definition)?;
        return Ok(());
    }
    if is_skipped(name) {
        Ok(())
    } else {
        Err(SpecError::BadForm { at })
    }
}

/// A function: its name, its formals, and its body behind a string and declarations.
fn function_form(alloc: Global, at: u32, parts: &[Datum]) -> Result<Definition, SpecError>
    ensures { Gives (λ d. d ∷ []) result (function_form at (map reading parts.now)) }
{
    let Some((name, rest)) = parts.split_first() else {
        return Err(SpecError::BadForm { at });
    };
    let Some((formals, rest)) = rest.split_first() else {
        return Err(SpecError::BadForm { at });
    };
    let Some(name) = name_of(name) else {
        return Err(SpecError::BadForm { at });
    };
    let Some(formals) = names_of(alloc, formals)? else {
        return Err(SpecError::BadForm { at });
    };
    let Some((preamble, body)) = split_last(rest) else {
        return Err(SpecError::BadForm { at });
    };
    function_named(alloc, at, name, formals, preamble, body)
}

fn function_named(
    alloc: Global,
    at: u32,
    name: &[u8],
    formals: Items<Items<u8>>,
    preamble: &[Datum],
    body: &Datum,
) -> Result<Definition, SpecError>
    ensures { Gives (λ d. d ∷ []) result (function_named at name.now formals (map reading preamble.now) (reading body.now)) }
{
    if !are_variables(formals.as_slice()) || !are_preamble(preamble) {
        return Err(SpecError::BadForm { at });
    }
    let body = body_behind(alloc, behind_text(preamble), body)?;
    let name = Items::from_slice(alloc, name)?;
    Ok(Definition {
        at,
        name,
        formals: Some(formals),
        body,
    })
}

/// A constant: its name and its value.
fn constant_form(alloc: Global, at: u32, parts: &[Datum]) -> Result<Definition, SpecError>
    ensures { Gives (λ d. d ∷ []) result (constant_parts at (pair_of (map reading parts.now))) }
{
    let Some((name, value)) = pair_of(parts) else {
        return Err(SpecError::BadForm { at });
    };
    constant_named(alloc, at, name, value)
}

fn constant_named(
    alloc: Global,
    at: u32,
    name: &Datum,
    value: &Datum,
) -> Result<Definition, SpecError>
    ensures { Gives (λ d. d ∷ []) result (constant_named at (reading name.now).name (reading value.now)) }
{
    let Some(name) = name_of(name) else {
        return Err(SpecError::BadForm { at });
    };
    if !is_constant(name) {
        return Err(SpecError::BadForm { at });
    }
    let body = expression(alloc, value)?;
    let name = Items::from_slice(alloc, name)?;
    Ok(Definition {
        at,
        name,
        formals: None,
        body,
    })
}
