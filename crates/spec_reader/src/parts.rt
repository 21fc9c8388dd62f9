ghost use Rattle.std.specs.Prelude.{◌≡◌, ◌<◌, ◌≤◌, map, option_map, is_some, IfOk, IfSome};
ghost use Rattle.spec_reader.specs.Nesting.{depth, depth_of_all};
ghost use Rattle.spec_reader.specs.Expressions.{reading, all_of, only_of, pair_of, split_last, bound, is_declaration_in, are_preamble, is_preamble, first_text, behind_text, word_literal};

use crate::datum::Datum;
use crate::expression::Literal;
use crate::names::{is_declare, is_nil, is_t, is_variable};
use sqlite_items::Items;
use std::alloc::{AllocError, Global};

/// The name that a datum is, if it is one.
pub fn name_of(datum: &Datum) -> Option<&[u8]>
    ensures { option_map (λ name. name.now) result ≡ (reading datum.now).name }
{
    match datum {
        Datum::Word(_, word) => Some(word.as_slice()),
        _ => None,
    }
}

/// The number that a datum is, if it is one.
fn number_of(datum: &Datum) -> Option<i128>
    ensures { result ≡ (reading datum.now).number }
{
    match datum {
        Datum::Number(_, number) => Some(*number),
        _ => None,
    }
}

/// The offset of a string, if a datum is one.
fn text_of(datum: &Datum) -> Option<u32>
    ensures { result ≡ (reading datum.now).text }
{
    match datum {
        Datum::Text(at) => Some(*at),
        _ => None,
    }
}

/// Whether a datum is a declaration.
fn is_declaration(datum: &Datum) -> bool
    ensures { result ≡ (reading datum.now).is_declaration }
{
    match datum {
        Datum::List(_, _, parts) => is_declaration_in(parts.as_slice()),
        _ => false,
    }
}

fn is_declaration_in(parts: &[Datum]) -> bool
    ensures { result ≡ is_declaration_in (map reading parts.now) }
{
    let Some((operator, _)) = parts.split_first() else {
        return false;
    };
    match name_of(operator) {
        Some(name) => is_declare(name),
        None => false,
    }
}

/// The names in a datum, if it is a list of them.
pub fn names_of(alloc: Global, datum: &Datum) -> Result<Option<Items<Items<u8>>>, AllocError>
    ensures { IfOk result (λ found. found ≡ (reading datum.now).names) }
{
    match datum {
        Datum::List(_, _, parts) => names_in(alloc, parts.as_slice()),
        _ => Ok(None),
    }
}

fn names_in(alloc: Global, parts: &[Datum]) -> Result<Option<Items<Items<u8>>>, AllocError>
    ensures { IfOk result (λ found. found ≡ all_of (map (λ part. part.name) (map reading parts.now))) }
{
    let mut names = Items::new(alloc);
    for part in parts {
        let Some(name) = name_of(part) else {
            return Ok(None);
        };
        names.push(Items::from_slice(alloc, name)?)?;
    }
    Ok(Some(names))
}

/// The value that a quote of a datum means, if it may be quoted.
pub fn literal_of(alloc: Global, datum: &Datum) -> Result<Option<Literal>, AllocError>
    ensures { IfOk result (λ found. found ≡ (reading datum.now).literal) }
{
    match datum {
        Datum::Word(_, word) => Ok(word_literal(alloc, word.as_slice())),
        Datum::Number(_, number) => Ok(Some(Literal::Number(*number))),
        Datum::List(_, _, parts) => {
            let numbers = numbers_in(alloc, parts.as_slice())?;
            Ok(numbers.map(Literal::List))
        }
        _ => Ok(None),
    }
}

/// The value that a symbol is, if it is `t` or `nil`.
pub fn word_literal(alloc: Global, word: &[u8]) -> Option<Literal>
    ensures { result ≡ word_literal word.now }
{
    if is_t(word) {
        Some(Literal::T)
    } else if is_nil(word) {
        Some(Literal::List(Items::new(alloc)))
    } else {
        None
    }
}

fn numbers_in(alloc: Global, parts: &[Datum]) -> Result<Option<Items<i128>>, AllocError>
    ensures { IfOk result (λ found. found ≡ all_of (map (λ part. part.number) (map reading parts.now))) }
{
    let mut numbers = Vec::with_capacity(alloc, parts.len())?;
    for part in parts {
        let Some(number) = number_of(part) else {
            return Ok(None);
        };
        numbers.push(number)?;
    }
    Ok(Some(Items::from_vec(numbers)))
}

/// The only part.
pub fn only_of(parts: &[Datum]) -> Option<&Datum>
    ensures { option_map (λ part. reading part.now) result ≡ only_of (map reading parts.now) }
{
    let (only, rest) = parts.split_first()?;
    if rest.is_empty() { Some(only) } else { None }
}

/// The only two parts.
pub fn pair_of(parts: &[Datum]) -> Option<(&Datum, &Datum)>
    ensures pair { option_map (λ p. (reading p.0.now, reading p.1.now)) result ≡ pair_of (map reading parts.now) }
    ensures depth { IfSome result (λ p. (depth p.0.now ≤ depth_of_all parts.now) × (depth p.1.now ≤ depth_of_all parts.now)) }
{
    let (first, rest) = parts.split_first()?;
    let (second, rest) = rest.split_first()?;
    if rest.is_empty() {
        Some((first, second))
    } else {
        None
    }
}

/// The last part, and those that stand before it.
pub fn split_last(parts: &[Datum]) -> Option<(&[Datum], &Datum)>
    ensures parts { option_map (λ p. (map reading p.0.now, reading p.1.now)) result ≡ split_last (map reading parts.now) }
    ensures depth { IfSome result (λ p. depth p.1.now ≤ depth_of_all parts.now) }
{
    let (last, before) = parts.split_last()?;
    Some((before, last))
}

/// The two parts of a datum, if it is a list of two.
pub fn pair_in(datum: &Datum) -> Option<(&Datum, &Datum)>
    ensures clause { option_map (λ p. record { test = (reading p.0.now).expression; value = (reading p.1.now).expression }) result ≡ (reading datum.now).clause }
    ensures depth { IfSome result (λ p. (depth p.0.now < depth datum.now) × (depth p.1.now < depth datum.now)) }
{
    match datum {
        Datum::List(_, _, parts) => pair_of(parts.as_slice()),
        _ => None,
    }
}

/// The name and the value of a binding, if a datum is one.
pub fn binding_of(datum: &Datum) -> Option<(&[u8], &Datum)>
    ensures binding { option_map (λ p. record { name = p.0.now; value = (reading p.1.now).expression }) result ≡ (reading datum.now).binding }
    ensures depth { IfSome result (λ p. depth p.1.now < depth datum.now) }
{
    match datum {
        Datum::List(_, _, parts) => {
            let (name, value) = pair_of(parts.as_slice())?;
            bound(name, value)
        }
        _ => None,
    }
}

fn bound<'a>(name: &'a Datum, value: &'a Datum) -> Option<(&'a [u8], &'a Datum)>
    ensures bound { option_map (λ p. record { name = p.0.now; value = (reading p.1.now).expression }) result ≡ bound (reading name.now).name (reading value.now).expression }
    ensures depth { IfSome result (λ p. depth p.1.now ≤ depth value.now) }
{
    let name = name_of(name)?;
    if is_variable(name) {
        Some((name, value))
    } else {
        None
    }
}

/// The parts of a datum, if it is a list.
pub fn bindings_of(datum: &Datum) -> Option<&[Datum]>
    ensures bindings { option_map (λ parts. map (λ part. part.binding) (map reading parts.now)) result ≡ (reading datum.now).bindings }
    ensures depth { IfSome result (λ parts. depth_of_all parts.now ≤ depth datum.now) }
{
    match datum {
        Datum::List(_, _, parts) => Some(parts.as_slice()),
        _ => None,
    }
}

/// Whether each of some data may stand before a body.
pub fn are_preamble(parts: &[Datum]) -> bool
    ensures { result ≡ are_preamble (map reading parts.now) }
{
    for part in parts {
        if !is_preamble(part) {
            return false;
        }
    }
    true
}

fn is_preamble(datum: &Datum) -> bool
    ensures { result ≡ is_preamble (reading datum.now) }
{
    is_declaration(datum) || text_of(datum).is_some()
}

/// The offset of the first string among some data.
pub fn first_text(parts: &[Datum]) -> Option<u32>
    ensures { result ≡ first_text (map reading parts.now) }
{
    for part in parts {
        if let Some(at) = text_of(part) {
            return Some(at);
        }
    }
    None
}

/// Some data without a string that comes first.
pub fn behind_text(parts: &[Datum]) -> &[Datum]
    ensures { map reading result.now ≡ behind_text (map reading parts.now) }
{
    let Some((first, rest)) = parts.split_first() else {
        return parts;
    };
    if text_of(first).is_some() {
        rest
    } else {
        parts
    }
}
