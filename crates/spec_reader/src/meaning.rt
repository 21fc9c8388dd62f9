ghost use Rattle.std.specs.Prelude.{◌≡◌, ℕ, List, Some, None, [], if◌then◌else◌, IfOk, OnOk};
ghost use Rattle.std.specs.Str.{bytes_eq};
ghost use Rattle.spec_reader.specs.Forms.{meaning_in, or_meaning, entries, if_free, meaning_of};

use crate::expression::Definition;
use crate::names::is_free;
use std::alloc::{AllocError, Global};
use std::collections::HashMap;

/// What a defined name means.
#[derive(Clone, Copy)]
pub struct Meaning {
    /// The number of its definition among all of the text.
    pub number: usize,
    /// Its place among the functions, or among the constants.
    pub place: usize,
    /// How many formals a function has, none for a constant.
    pub formals: Option<usize>,
}

/// The defined names of a text with their meanings.
#[derive(Drop)]
pub struct Names<'a> {
    meanings: HashMap<&'a [u8], Meaning>,
}

impl<'a> Names<'a> {
    /// What a name means.
    pub fn meaning_of(&self, name: &[u8]) -> Option<Meaning>
        ensures { result ≡ meaning_in self.now name.now }
    {
        self.meanings.get(name).copied()
    }

    /// Adds a name, unless no definition may have it, or it has a meaning.
    fn add(&mut self, name: &'a [u8], meaning: Meaning) -> Result<(), AllocError>
        ensures { OnOk result ((other : List ℕ) → meaning_in self.new other ≡ or_meaning (meaning_in self.old other) (meaning_of (if_free (record { name = name.now; meaning = meaning }) []) other)) }
    {
        if is_free(name) {
            self.add_new(name, meaning)
        } else {
            Ok(())
        }
    }

    /// Adds a name, unless it has a meaning.
    fn add_new(&mut self, name: &'a [u8], meaning: Meaning) -> Result<(), AllocError>
        ensures { OnOk result ((other : List ℕ) → meaning_in self.new other ≡ or_meaning (meaning_in self.old other) (if bytes_eq name.now other then Some meaning else None)) }
    {
        match self.meaning_of(name) {
            Some(_) => Ok(()),
            None => {
                self.meanings.insert(name, meaning)?;
                Ok(())
            }
        }
    }
}

/// The names of some definitions, each with its first meaning.
pub fn names_of<'a>(alloc: Global, definitions: &'a [Definition]) -> Result<Names<'a>, AllocError>
    ensures { IfOk result (λ names. (name : List ℕ) → meaning_in names name ≡ meaning_of (entries definitions.now) name) }
{
    let mut names = Names {
        meanings: HashMap::new(alloc),
    };
    let mut functions = 0;
    let mut constants = 0;
    for (number, definition) in definitions.iter().enumerate() {
        let formals = definition.formals.as_ref().map(|formals| formals.len());
        let place = if formals.is_some() {
            functions
        } else {
            constants
        };
        let meaning = Meaning {
            number,
            place,
            formals,
        };
        names.add(definition.name.as_slice(), meaning)?;
        if formals.is_some() {
            functions += 1;
        } else {
            constants += 1;
        }
    }
    Ok(names)
}
