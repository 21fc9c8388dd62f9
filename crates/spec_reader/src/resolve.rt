ghost use Rattle.std.specs.Prelude.{◌≡◌, ◌-◌, ◌^◌, [], ◌++◌, length, map, min, take, drop, Ok, IfOk, OnOk};
ghost use Rattle.spec_reader.specs.Reading.{Gives};
ghost use Rattle.spec_reader.specs.Forms.{meaning_in, count, literal_form, special_kind, form, name_form, constant_form, forms, let_parts, let_form, star_parts, call_form, resolve};

use crate::expression::{Expression, Literal, Special};
use crate::meaning::{Meaning, Names};
use crate::names::are_distinct;
use crate::scope::Scope;
use spec_form::{ConstId, Form, FormKind, FunId, SpecError};
use sqlite_items::Items;
use std::alloc::{AllocError, Global};

/// A count of things of which a text has no room for 2^32.
pub fn count(number: usize) -> u32
    ensures { result ≡ count number }
{
    number.min(u32::MAX as usize) as u32
}

/// The form that an expression is among the names of the text and the variables in scope.
#[cycle(resolve)]
pub fn resolve<'a>(
    alloc: Global,
    names: &Names<'_>,
    scope: &mut Scope<'a>,
    expression: &'a Expression,
) -> Result<Form, SpecError>
    ensures form { Gives (λ f. f) result (resolve expression.now (meaning_in names.now) scope.old) }
    ensures kept { OnOk result (scope.new ≡ scope.old) }
{
    match expression {
        Expression::Literal(at, literal) => Ok(literal_form(alloc, *at, literal)?),
        Expression::Name(at, name) => {
            let place = scope.place(name.as_slice());
            name_form(*at, place, names.meaning_of(name.as_slice()))
        }
        Expression::Special(at, special, parts) => {
            let parts = forms(alloc, names, scope, parts.as_slice())?;
            Ok(special_form(*at, *special, parts))
        }
        Expression::Let(at, bound, values, body) => let_form(
            alloc,
            names,
            scope,
            *at,
            bound.get().as_slice(),
            values.as_slice(),
            body.get(),
        ),
        Expression::LetStar(at, bound, values, body) => {
            let (bound, values) = (bound.get().as_slice(), values.as_slice());
            let parts = star_parts(alloc, names, scope, bound, values, body.get())?;
            Ok(Form {
                at: *at,
                kind: FormKind::LetStar(parts),
            })
        }
        Expression::Builtin(at, builtin, parts) => {
            let parts = forms(alloc, names, scope, parts.as_slice())?;
            Ok(Form {
                at: *at,
                kind: FormKind::Builtin(*builtin, parts),
            })
        }
        Expression::Call(at, name, parts) => {
            let meaning = names.meaning_of(name.get().as_slice());
            call_form(alloc, names, scope, *at, meaning, parts.as_slice())
        }
    }
}

/// A value as a form.
fn literal_form(alloc: Global, at: u32, literal: &Literal) -> Result<Form, AllocError>
    ensures { IfOk result (λ f. f ≡ literal_form at literal.now) }
{
    let kind = match literal {
        Literal::Number(number) => FormKind::Number(*number),
        Literal::T => FormKind::T,
        Literal::List(numbers) => FormKind::Quoted(Items::from_slice(alloc, numbers.as_slice())?),
    };
    Ok(Form { at, kind })
}

fn special_form(at: u32, special: Special, parts: Items<Form>) -> Form
    ensures { result ≡ form at (special_kind special parts) }
{
    let kind = match special {
        Special::If => FormKind::If(parts),
        Special::Cond => FormKind::Cond(parts),
        Special::And => FormKind::And(parts),
        Special::Or => FormKind::Or(parts),
    };
    Form { at, kind }
}

/// A name as a form: a variable at its place, or else a constant.
fn name_form(at: u32, place: Option<usize>, meaning: Option<Meaning>) -> Result<Form, SpecError>
    ensures { Gives (λ f. f) result (name_form at place meaning) }
{
    match place {
        Some(place) => Ok(Form {
            at,
            kind: FormKind::Variable(count(place)),
        }),
        None => constant_form(at, meaning),
    }
}

fn constant_form(at: u32, meaning: Option<Meaning>) -> Result<Form, SpecError>
    ensures { Gives (λ f. f) result (constant_form at meaning) }
{
    let Some(meaning) = meaning else {
        return Err(SpecError::UnboundName { at });
    };
    match meaning.formals {
        None => Ok(Form {
            at,
            kind: FormKind::Constant(ConstId(meaning.place)),
        }),
        Some(_) => Err(SpecError::UnboundName { at }),
    }
}

/// The forms of some expressions.
#[cycle(resolve)]
#[tactic(auto, using(crate::proofs::Scopes::deepest_part))]
fn forms<'a>(
    alloc: Global,
    names: &Names<'_>,
    scope: &mut Scope<'a>,
    parts: &'a [Expression],
) -> Result<Items<Form>, SpecError>
    ensures forms { Gives (λ fs. fs) result (forms (map resolve parts.now) (meaning_in names.now) scope.old) }
    ensures kept { OnOk result (scope.new ≡ scope.old) }
{
    let mut out = Vec::with_capacity(alloc, parts.len())?;
    for part in parts {
        let form = resolve(alloc, names, scope, part)?;
        out.push(form)?;
    }
    Ok(Items::from_vec(out))
}

/// `let`, whose names are distinct.
#[cycle(resolve)]
fn let_form<'a>(
    alloc: Global,
    names: &Names<'_>,
    scope: &mut Scope<'a>,
    at: u32,
    bound: &'a [Items<u8>],
    values: &'a [Expression],
    body: &'a Expression,
) -> Result<Form, SpecError>
    ensures form { Gives (λ f. f) result (let_form at bound.now (map resolve values.now) (resolve body.now) (meaning_in names.now) scope.old) }
    ensures kept { OnOk result (scope.new ≡ scope.old) }
{
    if !are_distinct(alloc, bound)? {
        return Err(SpecError::Duplicate { at });
    }
    let parts = let_parts(alloc, names, scope, bound, values, body)?;
    Ok(Form {
        at,
        kind: FormKind::Let(parts),
    })
}

/// The values and the body of a `let`.
#[cycle(resolve)]
fn let_parts<'a>(
    alloc: Global,
    names: &Names<'_>,
    scope: &mut Scope<'a>,
    bound: &'a [Items<u8>],
    values: &'a [Expression],
    body: &'a Expression,
) -> Result<Items<Form>, SpecError>
    ensures forms { Gives (λ fs. fs) result (let_parts bound.now (map resolve values.now) (resolve body.now) (meaning_in names.now) scope.old) }
    ensures kept { OnOk result (scope.new ≡ scope.old) }
{
    let mut out = forms(alloc, names, scope, values)?;
    let depth = scope.len();
    scope.bind_all(bound)?;
    let body = resolve(alloc, names, scope, body)?;
    scope.truncate(depth);
    out.push(body)?;
    Ok(out)
}

/// What is left of some names from a place on.
fn from(bound: &[Items<u8>], at: usize) -> &[Items<u8>]
    ensures { result.now ≡ drop at bound.now }
{
    bound.split_at(at.min(bound.len())).1
}

/// The values and the body of a `let*`.
#[cycle(resolve)]
#[tactic(auto, using(crate::proofs::Scopes::deepest_part))]
fn star_parts<'a>(
    alloc: Global,
    names: &Names<'_>,
    scope: &mut Scope<'a>,
    bound: &'a [Items<u8>],
    values: &'a [Expression],
    body: &'a Expression,
) -> Result<Items<Form>, SpecError>
    ensures forms { Gives (λ fs. fs) result (star_parts bound.now (map resolve values.now) (resolve body.now) (meaning_in names.now) scope.old) }
    ensures kept { OnOk result (scope.new ≡ scope.old) }
{
    let mut out = Items::new(alloc);
    let depth = scope.len();
    for (at, value) in values.iter().enumerate() {
        let form = resolve(alloc, names, scope, value)?;
        out.push(form)?;
        scope.bind_at(bound, at)?;
    }
    scope.bind_all(from(bound, values.len()))?;
    let body = resolve(alloc, names, scope, body)?;
    scope.truncate(depth);
    out.push(body)?;
    Ok(out)
}

/// A call of what a name means.
#[cycle(resolve)]
fn call_form<'a>(
    alloc: Global,
    names: &Names<'_>,
    scope: &mut Scope<'a>,
    at: u32,
    meaning: Option<Meaning>,
    parts: &'a [Expression],
) -> Result<Form, SpecError>
    ensures form { Gives (λ f. f) result (call_form at meaning (length parts.now) (forms (map resolve parts.now) (meaning_in names.now) scope.old)) }
    ensures kept { OnOk result (scope.new ≡ scope.old) }
{
    let Some(meaning) = meaning else {
        return Err(SpecError::UnboundName { at });
    };
    let Some(formals) = meaning.formals else {
        return Err(SpecError::UnboundName { at });
    };
    if formals != parts.len() {
        return Err(SpecError::BadForm { at });
    }
    let parts = forms(alloc, names, scope, parts)?;
    Ok(Form {
        at,
        kind: FormKind::Call(FunId(meaning.place), parts),
    })
}
