ghost use Rattle.std.specs.Prelude.{◌≡◌, [], ◌∷◌, map, Some, Ok, IfOk};
ghost use Rattle.spec_reader.specs.Reading.{Gives, with_front};
ghost use Rattle.spec_reader.specs.Calls.{call_named};
ghost use Rattle.spec_reader.specs.Expressions.{reading, expressions, word_expression, word_literal, quote_form, apostrophe_form, special_at, if_form, are_clauses, clause_then, clauses, cond_form, first_text, body_behind, bound_names, value_then, bound_values, let_at, let_named, let_parts, let_form, built, called, call_form, keyword_form, operator_form, list_form};

use crate::calls::{Call, call_named};
use crate::datum::Datum;
use crate::expression::{Expression, Literal, Special};
use crate::keyword::{Keyword, keyword_named};
use crate::parts::{
    are_preamble, binding_of, bindings_of, first_text, literal_of, name_of, only_of, pair_in,
    split_last, word_literal,
};
use spec_form::SpecError;
use sqlite_items::{Boxed, Items};
use std::alloc::{AllocError, Global};

/// The expression that a datum spells.
#[cycle(expressions)]
pub fn expression(alloc: Global, datum: &Datum) -> Result<Expression, SpecError>
    ensures { Gives (λ e. e) result (reading datum.now).expression }
{
    match datum {
        Datum::Word(at, word) => Ok(word_expression(alloc, *at, word.as_slice())?),
        Datum::Number(at, number) => Ok(Expression::Literal(*at, Literal::Number(*number))),
        Datum::Text(at) => Err(SpecError::BadForm { at: *at }),
        Datum::Quote(at, more, parts) => {
            apostrophe_form(alloc, *at, more.get().as_slice(), parts.as_slice())
        }
        Datum::List(at, _, parts) => list_form(alloc, *at, parts.as_slice()),
    }
}

/// A symbol as an expression: a value where it is `t` or `nil`, else a name.
fn word_expression(alloc: Global, at: u32, word: &[u8]) -> Result<Expression, AllocError>
    ensures { IfOk result (λ e. e ≡ word_expression at word.now (word_literal word.now)) }
{
    match word_literal(alloc, word) {
        Some(literal) => Ok(Expression::Literal(at, literal)),
        None => Ok(Expression::Name(at, Items::from_slice(alloc, word)?)),
    }
}

/// What stands behind apostrophes.
fn apostrophe_form(
    alloc: Global,
    at: u32,
    more: &[u32],
    parts: &[Datum],
) -> Result<Expression, SpecError>
    ensures { Gives (λ e. e) result (apostrophe_form at more.now (map reading parts.now)) }
{
    if more.is_empty() {
        quote_form(alloc, at, parts)
    } else {
        Err(SpecError::BadForm { at })
    }
}

/// A quote of some parts.
fn quote_form(alloc: Global, at: u32, parts: &[Datum]) -> Result<Expression, SpecError>
    ensures { Gives (λ e. e) result (quote_form at (map reading parts.now)) }
{
    let Some(part) = only_of(parts) else {
        return Err(SpecError::BadForm { at });
    };
    match literal_of(alloc, part)? {
        Some(literal) => Ok(Expression::Literal(at, literal)),
        None => Err(SpecError::BadForm { at }),
    }
}

/// The expressions of some data.
#[cycle(expressions)]
#[tactic(auto, using(crate::proofs::LastPart::deepest_item))]
fn expressions(alloc: Global, parts: &[Datum]) -> Result<Items<Expression>, SpecError>
    ensures { Gives (λ es. es) result (expressions (map reading parts.now)) }
{
    let mut out = Vec::with_capacity(alloc, parts.len())?;
    for part in parts {
        let expression = expression(alloc, part)?;
        out.push(expression)?;
    }
    Ok(Items::from_vec(out))
}

/// A list as an expression.
#[cycle(expressions)]
fn list_form(alloc: Global, at: u32, parts: &[Datum]) -> Result<Expression, SpecError>
    ensures { Gives (λ e. e) result (list_form at (map reading parts.now)) }
{
    let Some((operator, arguments)) = parts.split_first() else {
        return Err(SpecError::BadForm { at });
    };
    let Some(name) = name_of(operator) else {
        return Err(SpecError::BadForm { at });
    };
    match keyword_named(name) {
        Some(keyword) => keyword_form(alloc, at, keyword, arguments),
        None => call_form(alloc, at, name, arguments),
    }
}

#[cycle(expressions)]
fn keyword_form(
    alloc: Global,
    at: u32,
    keyword: Keyword,
    parts: &[Datum],
) -> Result<Expression, SpecError>
    ensures { Gives (λ e. e) result (keyword_form at keyword (map reading parts.now)) }
{
    match keyword {
        Keyword::Quote => quote_form(alloc, at, parts),
        Keyword::If => if_form(alloc, at, parts),
        Keyword::Cond => cond_form(alloc, at, parts),
        Keyword::And => special(alloc, at, Special::And, parts),
        Keyword::Or => special(alloc, at, Special::Or, parts),
        Keyword::Let => let_form(alloc, false, at, parts),
        Keyword::LetStar => let_form(alloc, true, at, parts),
    }
}

#[cycle(expressions)]
fn special(
    alloc: Global,
    at: u32,
    special: Special,
    parts: &[Datum],
) -> Result<Expression, SpecError>
    ensures { Gives (λ e. e) result (special_at at special (expressions (map reading parts.now))) }
{
    let parts = expressions(alloc, parts)?;
    Ok(Expression::Special(at, special, parts))
}

#[cycle(expressions)]
fn if_form(alloc: Global, at: u32, parts: &[Datum]) -> Result<Expression, SpecError>
    ensures { Gives (λ e. e) result (if_form at (map reading parts.now)) }
{
    if parts.len() != 3 {
        return Err(SpecError::BadForm { at });
    }
    special(alloc, at, Special::If, parts)
}

/// `cond` with its clauses.
#[cycle(expressions)]
fn cond_form(alloc: Global, at: u32, parts: &[Datum]) -> Result<Expression, SpecError>
    ensures { Gives (λ e. e) result (cond_form at (map reading parts.now)) }
{
    if !are_clauses(parts) {
        return Err(SpecError::BadForm { at });
    }
    let parts = clauses(alloc, at, parts)?;
    Ok(Expression::Special(at, Special::Cond, parts))
}

/// Whether each of some data is a clause of `cond`.
fn are_clauses(parts: &[Datum]) -> bool
    ensures { result ≡ are_clauses (map reading parts.now) }
{
    for part in parts {
        if pair_in(part).is_none() {
            return false;
        }
    }
    true
}

/// Of each clause the test and then the value.
#[cycle(expressions)]
#[tactic(auto, using(crate::proofs::LastPart::deepest_item))]
fn clauses(alloc: Global, at: u32, parts: &[Datum]) -> Result<Items<Expression>, SpecError>
    ensures { Gives (λ es. es) result (clauses at (map reading parts.now)) }
{
    let mut out = Items::new(alloc);
    for part in parts {
        clause(alloc, at, part, &mut out)?;
    }
    Ok(out)
}

#[cycle(expressions)]
fn clause(
    alloc: Global,
    at: u32,
    part: &Datum,
    out: &mut Items<Expression>,
) -> Result<(), SpecError>
    ensures { Gives (λ _. out.new) result (with_front out.old (clause_then at (reading part.now).clause (Ok []))) }
{
    let Some((test, value)) = pair_in(part) else {
        return Err(SpecError::BadForm { at });
    };
    out.push(expression(alloc, test)?)?;
    out.push(expression(alloc, value)?)?;
    Ok(())
}

/// `let`, or where it is told so `let*`.
#[cycle(expressions)]
fn let_form(alloc: Global, star: bool, at: u32, parts: &[Datum]) -> Result<Expression, SpecError>
    ensures { Gives (λ e. e) result (let_form star at (map reading parts.now)) }
{
    let Some((bindings, rest)) = parts.split_first() else {
        return Err(SpecError::BadForm { at });
    };
    let Some(bindings) = bindings_of(bindings) else {
        return Err(SpecError::BadForm { at });
    };
    let Some((preamble, body)) = split_last(rest) else {
        return Err(SpecError::BadForm { at });
    };
    let Some(names) = bound_names(alloc, bindings)? else {
        return Err(SpecError::BadForm { at });
    };
    let_named(alloc, star, at, names, bindings, preamble, body)
}

/// `let` of bindings whose names are read.
#[cycle(expressions)]
fn let_named(
    alloc: Global,
    star: bool,
    at: u32,
    names: Items<Items<u8>>,
    bindings: &[Datum],
    preamble: &[Datum],
    body: &Datum,
) -> Result<Expression, SpecError>
    ensures { Gives (λ e. e) result (let_named star at (Some names) (map (λ part. part.binding) (map reading bindings.now)) (map reading preamble.now) (reading body.now)) }
{
    if !are_preamble(preamble) {
        return Err(SpecError::BadForm { at });
    }
    let values = bound_values(alloc, at, bindings)?;
    let body = body_behind(alloc, preamble, body)?;
    let body = Boxed::new(alloc, body)?;
    let names = Boxed::new(alloc, names)?;
    if star {
        Ok(Expression::LetStar(at, names, values, body))
    } else {
        Ok(Expression::Let(at, names, values, body))
    }
}

/// The names of bindings, if all are bindings.
fn bound_names(alloc: Global, bindings: &[Datum]) -> Result<Option<Items<Items<u8>>>, AllocError>
    ensures { IfOk result (λ found. found ≡ bound_names (map (λ part. part.binding) (map reading bindings.now))) }
{
    let mut names = Items::new(alloc);
    for binding in bindings {
        let Some((name, _)) = binding_of(binding) else {
            return Ok(None);
        };
        names.push(Items::from_slice(alloc, name)?)?;
    }
    Ok(Some(names))
}

/// The values of bindings.
#[cycle(expressions)]
#[tactic(auto, using(crate::proofs::LastPart::deepest_item))]
fn bound_values(alloc: Global, at: u32, bindings: &[Datum]) -> Result<Items<Expression>, SpecError>
    ensures { Gives (λ es. es) result (bound_values at (map (λ part. part.binding) (map reading bindings.now))) }
{
    let mut out = Items::new(alloc);
    for binding in bindings {
        let value = bound_value(alloc, at, binding)?;
        out.push(value)?;
    }
    Ok(out)
}

#[cycle(expressions)]
fn bound_value(alloc: Global, at: u32, binding: &Datum) -> Result<Expression, SpecError>
    ensures { Gives (λ e. e ∷ []) result (value_then at (reading binding.now).binding (Ok [])) }
{
    match binding_of(binding) {
        Some((_, value)) => expression(alloc, value),
        None => Err(SpecError::BadForm { at }),
    }
}

/// A body, before which no string may stand in this preamble.
#[cycle(expressions)]
pub fn body_behind(alloc: Global, preamble: &[Datum], body: &Datum) -> Result<Expression, SpecError>
    ensures { Gives (λ e. e) result (body_behind (first_text (map reading preamble.now)) (reading body.now)) }
{
    match first_text(preamble) {
        Some(at) => Err(SpecError::BadForm { at }),
        None => expression(alloc, body),
    }
}

/// A call of a function of the language, or of another by its name.
#[cycle(expressions)]
fn call_form(alloc: Global, at: u32, name: &[u8], parts: &[Datum]) -> Result<Expression, SpecError>
    ensures { Gives (λ e. e) result (call_form at name.now (call_named name.now) (map reading parts.now)) }
{
    match call_named(name) {
        Some(call) => built(alloc, at, call, parts),
        None => called(alloc, at, name, parts),
    }
}

#[cycle(expressions)]
fn built(alloc: Global, at: u32, call: Call, parts: &[Datum]) -> Result<Expression, SpecError>
    ensures { Gives (λ e. e) result (call_form at [] (Some call) (map reading parts.now)) }
{
    if !call.takes(parts.len()) {
        return Err(SpecError::BadForm { at });
    }
    let parts = expressions(alloc, parts)?;
    Ok(Expression::Builtin(at, call.builtin, parts))
}

#[cycle(expressions)]
fn called(alloc: Global, at: u32, name: &[u8], parts: &[Datum]) -> Result<Expression, SpecError>
    ensures { Gives (λ e. e) result (called at name.now (expressions (map reading parts.now))) }
{
    let parts = expressions(alloc, parts)?;
    let name = Boxed::new(alloc, Items::from_slice(alloc, name)?)?;
    Ok(Expression::Call(at, name, parts))
}
