ghost use Rattle.std.specs.Prelude.{◌≡◌, slice_get, ℕ, List, ◌||◌, IfOk, OnOk};
ghost use Rattle.std.specs.Str.{bytes_eq};
ghost use Rattle.spec_reader.specs.Names.{is_seen, is_skipped, is_defun, is_defconst, is_declare, is_t, is_nil, is_expression, is_free, is_variable, are_variables, is_star, is_constant, are_distinct};

use crate::calls::call_named;
use sqlite_items::Items;
use std::alloc::{AllocError, Global};
use std::collections::HashSet;

/// Whether a form of this name is skipped at the top level.
pub fn is_skipped(name: &[u8]) -> bool
    ensures { result ≡ is_skipped name.now }
{
    name == b"in-package".as_slice()
        || name == b"include-book".as_slice()
        || name == b"local".as_slice()
        || name == b"defthm".as_slice()
        || name == b"defthmd".as_slice()
        || name == b"in-theory".as_slice()
        || name == b"verify-guards".as_slice()
}

/// Whether a form of this name defines a function.
pub fn is_defun(name: &[u8]) -> bool
    ensures { result ≡ is_defun name.now }
{
    name == b"defun".as_slice() || name == b"defund".as_slice()
}

/// Whether a form of this name defines a constant.
pub fn is_defconst(name: &[u8]) -> bool
    ensures { result ≡ is_defconst name.now }
{
    name == b"defconst".as_slice()
}

/// Whether a form of this name is a declaration.
pub fn is_declare(name: &[u8]) -> bool
    ensures { result ≡ is_declare name.now }
{
    name == b"declare".as_slice()
}

/// Whether a name is `t`.
pub fn is_t(name: &[u8]) -> bool
    ensures { result ≡ is_t name.now }
{
    name == b"t".as_slice()
}

/// Whether a name is `nil`.
pub fn is_nil(name: &[u8]) -> bool
    ensures { result ≡ is_nil name.now }
{
    name == b"nil".as_slice()
}

/// Whether a name is that of an expression that is no call.
fn is_expression(name: &[u8]) -> bool
    ensures { result ≡ is_expression name.now }
{
    is_t(name)
        || is_nil(name)
        || name == b"quote".as_slice()
        || name == b"if".as_slice()
        || name == b"let".as_slice()
        || name == b"let*".as_slice()
        || name == b"cond".as_slice()
        || name == b"and".as_slice()
        || name == b"or".as_slice()
}

/// Whether a definition may have a name.
#[tactic(auto, unfolding(crate::specs::Names::is_free))]
pub fn is_free(name: &[u8]) -> bool
    ensures { result ≡ is_free name.now }
{
    !(is_skipped(name)
        || is_defun(name)
        || is_defconst(name)
        || is_declare(name)
        || is_expression(name)
        || call_named(name).is_some())
}

/// Whether a formal or a bound value may have a name.
pub fn is_variable(name: &[u8]) -> bool
    ensures { result ≡ is_variable name.now }
{
    !(is_t(name) || is_nil(name))
}

/// Whether each name may be a formal.
pub fn are_variables(names: &[Items<u8>]) -> bool
    ensures { result ≡ are_variables names.now }
{
    names.iter().all(|name| is_variable(name.as_slice()))
}

/// Whether a star stands at a place of a name.
fn is_star_at(name: &[u8], at: usize) -> bool
    ensures { result ≡ is_star (slice_get name.now at) }
{
    match name.get(at) {
        Some(byte) => *byte == b'*',
        None => false,
    }
}

/// Whether a constant may have a name.
pub fn is_constant(name: &[u8]) -> bool
    ensures { result ≡ is_constant name.now }
{
    name.len() >= 3 && is_star_at(name, 0) && is_star_at(name, name.len() - 1)
}

/// Names that were seen.
#[derive(Drop)]
pub struct Seen<'a> {
    names: HashSet<&'a [u8]>,
}

impl<'a> Seen<'a> {
    /// Whether a name was seen.
    fn contains(&self, name: &[u8]) -> bool
        ensures { result ≡ is_seen self.now name.now }
    {
        self.names.contains(name)
    }

    /// Adds a name.
    fn add(&mut self, name: &'a [u8]) -> Result<(), AllocError>
        ensures { OnOk result ((other : List ℕ) → is_seen self.new other ≡ (bytes_eq name.now other || is_seen self.old other)) }
    {
        self.names.insert(name)?;
        Ok(())
    }
}

/// Whether no name stands there twice.
pub fn are_distinct(alloc: Global, names: &[Items<u8>]) -> Result<bool, AllocError>
    ensures { IfOk result (λ distinct. distinct ≡ are_distinct names.now) }
{
    match names {
        [] => Ok(true),
        [_] => Ok(true),
        _ => are_new(alloc, names),
    }
}

/// Whether each name is none of those before it.
fn are_new(alloc: Global, names: &[Items<u8>]) -> Result<bool, AllocError>
    ensures { IfOk result (λ distinct. distinct ≡ are_distinct names.now) }
{
    let mut seen = Seen {
        names: HashSet::new(alloc),
    };
    for name in names {
        if seen.contains(name.as_slice()) {
            return Ok(false);
        }
        seen.add(name.as_slice())?;
    }
    Ok(true)
}
