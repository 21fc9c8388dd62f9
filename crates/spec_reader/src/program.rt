ghost use Rattle.std.specs.Prelude.{◌≡◌, ◌≤◌, length, map, OnOk};
ghost use Rattle.spec_reader.specs.Reading.{Gives};
ghost use Rattle.spec_reader.specs.Expressions.{reading};
ghost use Rattle.spec_reader.specs.Forms.{meaning_in};
ghost use Rattle.spec_reader.specs.Programs.{program_of, definitions_of, added, program_with, may_define, body_of, defined};

use crate::definition::definitions;
use crate::expression::Definition;
use crate::meaning::{Names, names_of};
use crate::names::are_distinct;
use crate::nesting::nested;
use crate::resolve::{count, resolve};
use crate::scope::Scope;
use crate::token::tokens;
use spec_form::{Form, Function, NamedConstant, Program, SpecError};
use sqlite_items::Items;
use std::alloc::{AllocError, Global};

/// The program that the bytes spell.
///
/// Ok comes exactly where they spell one, and each error but Memory exactly where it is their first fault: tokens
/// are read first, then parentheses, then forms in their order, and then names in their order.
pub fn read_spec(alloc: Global, bytes: &[u8]) -> Result<Program, SpecError>
    requires { length bytes.now ≤ 1048576 }
    ensures { Gives (λ program. program) result (program_of bytes.now) }
{
    let definitions = definitions_in(alloc, bytes)?;
    program_with(alloc, definitions.as_slice())
}

/// The definitions that the bytes spell, their names unread.
fn definitions_in(alloc: Global, bytes: &[u8]) -> Result<Items<Definition>, SpecError>
    requires { length bytes.now ≤ 1048576 }
    ensures { Gives (λ ds. ds) result (definitions_of bytes.now) }
{
    let tokens = tokens(alloc, bytes)?;
    let data = nested(alloc, tokens)?;
    definitions(alloc, data.as_slice())
}

/// The program of some definitions.
fn program_with(alloc: Global, definitions: &[Definition]) -> Result<Program, SpecError>
    ensures { Gives (λ program. program) result (program_with definitions.now) }
{
    let names = names_of(alloc, definitions)?;
    let mut program = Program {
        functions: Items::new(alloc),
        constants: Items::new(alloc),
    };
    let mut scope = Scope::new(alloc);
    for (number, definition) in definitions.iter().enumerate() {
        let body = defined(alloc, &names, &mut scope, number, definition)?;
        add(alloc, &mut program, definition, body)?;
    }
    Ok(program)
}

/// The body or the value of a definition, where its name may be defined there.
fn defined<'a>(
    alloc: Global,
    names: &Names<'_>,
    scope: &mut Scope<'a>,
    number: usize,
    definition: &'a Definition,
) -> Result<Form, SpecError>
    ensures { Gives (λ form. form) result (defined (meaning_in names.now) number definition.now) }
{
    let at = definition.at;
    if !may_define(names, number, definition.name.as_slice()) {
        return Err(SpecError::Duplicate { at });
    }
    body_of(alloc, names, scope, definition)
}

/// Whether a name, which has a meaning only where a definition may have it, is defined here first.
fn may_define(names: &Names<'_>, number: usize, name: &[u8]) -> bool
    ensures { result ≡ may_define (meaning_in names.now) number name.now }
{
    match names.meaning_of(name) {
        Some(meaning) => meaning.number == number,
        None => false,
    }
}

/// The body of a function in the scope of its formals, or the value of a constant.
fn body_of<'a>(
    alloc: Global,
    names: &Names<'_>,
    scope: &mut Scope<'a>,
    definition: &'a Definition,
) -> Result<Form, SpecError>
    ensures { Gives (λ form. form) result (body_of (meaning_in names.now) definition.now definition.now.formals) }
{
    scope.truncate(0);
    if let Some(formals) = &definition.formals {
        if !are_distinct(alloc, formals.as_slice())? {
            let at = definition.at;
            return Err(SpecError::Duplicate { at });
        }
        scope.bind_all(formals.as_slice())?;
    }
    resolve(alloc, names, scope, &definition.body)
}

/// Adds a definition with its resolved body.
fn add(
    alloc: Global,
    program: &mut Program,
    definition: &Definition,
    body: Form,
) -> Result<(), AllocError>
    ensures { OnOk result (program.new ≡ added program.old definition.now.name body definition.now.formals) }
{
    let name = Items::from_slice(alloc, definition.name.as_slice())?;
    match &definition.formals {
        Some(formals) => program.functions.push(Function {
            name,
            formals: count(formals.len()),
            body,
        }),
        None => program.constants.push(NamedConstant { name, value: body }),
    }
}
