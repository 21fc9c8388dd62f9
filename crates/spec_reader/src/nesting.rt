ghost use Rattle.std.specs.Prelude.{◌≡◌, List, Ok, IfOk, OnOk};
ghost use Rattle.spec_reader.specs.declared.datum.Datum.{Datum};
ghost use Rattle.spec_reader.specs.declared.token.Located.{Located};
ghost use Rattle.spec_reader.specs.Reading.{Gives};
ghost use Rattle.spec_reader.specs.Nesting.{start, state, step, finish, opened, closed, with_mark, with_part, marked, quoted, ended, nested};
ghost use Rattle.spec_reader.specs.Spelled.{NestedIsSpelled};

use crate::datum::Datum;
use crate::token::{Located, Token};
use spec_form::SpecError;
use sqlite_items::{Boxed, Items};
use std::alloc::{AllocError, Global};
use std::mem;

/// How many parentheses may be open at once.
const DEEPEST: usize = 500;

/// Apostrophes that wait for what they quote: the offset of the first, and those of the others.
#[derive(Drop)]
pub struct Marks {
    at: u32,
    more: Items<u32>,
}

/// An open parenthesis, and what stands before it in the list that it is in: data, and apostrophes that wait for it.
#[derive(Drop)]
pub struct Level {
    at: u32,
    before: Items<Datum>,
    marks: Option<Marks>,
}

/// What was read: the open lists, the innermost last, the parts of the innermost so far, and apostrophes behind them.
#[derive(Drop)]
pub struct Nest {
    levels: Vec<Level>,
    parts: Items<Datum>,
    marks: Option<Marks>,
}

/// The data that the tokens spell.
pub fn nested(alloc: Global, tokens: Vec<Located>) -> Result<Items<Datum>, SpecError>
    ensures { Gives (λ ds. ds) result (nested tokens.items) }
{
    let mut nest = Nest {
        levels: Vec::new(alloc),
        parts: Items::new(alloc),
        marks: None,
    };
    for located in tokens {
        read(alloc, &mut nest, located)?;
    }
    finish(alloc, nest)
}

fn finish(alloc: Global, nest: Nest) -> Result<Items<Datum>, SpecError>
    ensures { Gives (λ ds. ds) result (finish (state nest)) }
{
    if let Some(level) = nest.levels.first() {
        let at = level.at;
        return Err(SpecError::Unclosed { at });
    }
    let mut parts = nest.parts;
    end_marks(alloc, &mut parts, nest.marks)?;
    Ok(parts)
}

fn read(alloc: Global, nest: &mut Nest, located: Located) -> Result<(), SpecError>
    ensures { Gives (λ _. state nest.new) result (step (state nest.old) located) }
{
    let Located { at, token } = located;
    match token {
        Token::Open => open(alloc, nest, at),
        Token::Close => close(alloc, nest, at),
        Token::Apostrophe => mark(alloc, nest, at),
        Token::Text => put(alloc, nest, Datum::Text(at)),
        Token::Number(n) => put(alloc, nest, Datum::Number(at, n)),
        Token::Word(word) => put(alloc, nest, Datum::Word(at, word)),
    }
}

/// Opens a list.
fn open(alloc: Global, nest: &mut Nest, at: u32) -> Result<(), SpecError>
    ensures { Gives (λ _. state nest.new) result (opened at (state nest.old)) }
{
    if nest.levels.len() == DEEPEST {
        return Err(SpecError::TooDeep { at });
    }
    let before = mem::replace(&mut nest.parts, Items::new(alloc));
    let marks = mem::replace(&mut nest.marks, None);
    nest.levels.push(Level { at, before, marks })?;
    Ok(())
}

/// Closes the innermost list.
fn close(alloc: Global, nest: &mut Nest, at: u32) -> Result<(), SpecError>
    ensures { Gives (λ _. state nest.new) result (closed at (state nest.old)) }
{
    let Some(level) = nest.levels.pop() else {
        return Err(SpecError::BadForm { at });
    };
    let Level {
        at: start,
        before,
        marks,
    } = level;
    let waiting = mem::replace(&mut nest.marks, marks);
    let mut inner = mem::replace(&mut nest.parts, before);
    end_marks(alloc, &mut inner, waiting)?;
    put(alloc, nest, Datum::List(start, at, inner))
}

/// Adds an apostrophe to those that wait.
fn mark(alloc: Global, nest: &mut Nest, at: u32) -> Result<(), SpecError>
    ensures { Gives (λ _. state nest.new) result (Ok (with_mark (state nest.old) at)) }
{
    let marks = mem::replace(&mut nest.marks, None);
    nest.marks = Some(marked(alloc, marks, at)?);
    Ok(())
}

fn marked(alloc: Global, marks: Option<Marks>, at: u32) -> Result<Marks, AllocError>
    ensures { IfOk result (λ more. more ≡ marked at marks) }
{
    match marks {
        None => Ok(Marks {
            at,
            more: Items::new(alloc),
        }),
        Some(
            Marks {
                at: first,
                mut more,
            },
        ) => {
            more.push(at)?;
            Ok(Marks { at: first, more })
        }
    }
}

/// Adds a datum to the innermost list, quoted where apostrophes wait for it.
fn put(alloc: Global, nest: &mut Nest, datum: Datum) -> Result<(), SpecError>
    ensures { Gives (λ _. state nest.new) result (Ok (with_part (state nest.old) datum)) }
{
    let marks = mem::replace(&mut nest.marks, None);
    let datum = quoted(alloc, marks, datum)?;
    nest.parts.push(datum)?;
    Ok(())
}

/// A datum, quoted where apostrophes stand before it.
fn quoted(alloc: Global, marks: Option<Marks>, datum: Datum) -> Result<Datum, AllocError>
    ensures { IfOk result (λ it. it ≡ quoted marks datum) }
{
    match marks {
        None => Ok(datum),
        Some(Marks { at, more }) => {
            let mut parts = Items::new(alloc);
            parts.push(datum)?;
            Ok(Datum::Quote(at, Boxed::new(alloc, more)?, parts))
        }
    }
}

/// Adds apostrophes that nothing stands behind.
fn end_marks(
    alloc: Global,
    parts: &mut Items<Datum>,
    marks: Option<Marks>,
) -> Result<(), AllocError>
    ensures { OnOk result (parts.new ≡ ended marks parts.old) }
{
    let Some(Marks { at, more }) = marks else {
        return Ok(());
    };
    let more = Boxed::new(alloc, more)?;
    parts.push(Datum::Quote(at, more, Items::new(alloc)))
}

/// The tokens of nested data are those that the data spell.
pub fn nested_is_spelled()
    ensures { NestedIsSpelled }
{}
