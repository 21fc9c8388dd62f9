ghost use Rattle.std.specs.Prelude.{◌≡◌, not, ◌&&◌, ◌==◌, false, ◌≤◌, ◌<◌, [], ◌∷◌, length, IfOk, IfSome};
ghost use Rattle.spec_reader.specs.Reading.{Gives};
ghost use Rattle.spec_reader.specs.Spelled.{TokensAreSpelled};
ghost use Rattle.spec_reader.specs.Tokens.{is_white, is_symbol, line_length, symbol_length, string_length, comment_length, is_step, token_of, gives, adds, word_in, hash_lexeme, comment_lexeme, string_lexeme, symbol_lexeme, lexeme, here, tokens_of};

use crate::number::{begins_like_number, number};
use spec_form::SpecError;
use sqlite_items::Items;
use std::alloc::{AllocError, Global};

/// A token of a specification.
#[derive(Debug, Drop)]
pub enum Token {
    /// `(`.
    Open,
    /// `)`.
    Close,
    /// `'`.
    Apostrophe,
    /// A string; what it says isn't read.
    Text,
    /// A number from -2^127 to 2^127 - 1.
    Number(i128),
    /// A symbol, its letters in lower case.
    Word(Items<u8>),
}

/// A token and the offset of its first byte.
#[derive(Debug, Drop)]
pub struct Located {
    pub at: u32,
    pub token: Token,
}

/// The tokens of the bytes.
pub fn tokens(alloc: Global, bytes: &[u8]) -> Result<Vec<Located>, SpecError>
    requires { length bytes.now ≤ 1048576 }
    ensures { Gives (λ v. v.items) result (tokens_of bytes.now) }
{
    let mut tokens = Vec::new(alloc);
    let mut passed = 0;
    for at in 0..bytes.len() {
        passed = read(alloc, &mut tokens, passed, at as u32, bytes.split_at(at).1)?;
    }
    Ok(tokens)
}

/// Reads what begins at the first of some bytes, unless that byte belongs to what began before it. Gives how many
/// bytes more belong to the same.
fn read(
    alloc: Global,
    tokens: &mut Vec<Located>,
    passed: usize,
    at: u32,
    bytes: &[u8],
) -> Result<usize, SpecError>
    ensures { Gives (λ more. record { more = more; tokens = tokens.new.items }) result (adds tokens.old.items (here passed at bytes.now)) }
{
    if passed > 0 {
        return Ok(passed - 1);
    }
    lexeme(alloc, tokens, at, bytes)
}

/// Reads what begins at the first of some bytes.
fn lexeme(
    alloc: Global,
    tokens: &mut Vec<Located>,
    at: u32,
    bytes: &[u8],
) -> Result<usize, SpecError>
    ensures { Gives (λ more. record { more = more; tokens = tokens.new.items }) result (adds tokens.old.items (lexeme at bytes.now)) }
{
    let Some((first, rest)) = bytes.split_first() else {
        return Ok(0);
    };
    if is_white(*first) {
        return Ok(0);
    }
    match *first {
        b'(' => add(tokens, at, Token::Open, 0),
        b')' => add(tokens, at, Token::Close, 0),
        b'\'' => add(tokens, at, Token::Apostrophe, 0),
        b';' => Ok(line_length(rest)),
        b'"' => string(tokens, at, rest),
        b'#' => hash(alloc, tokens, at, bytes, rest),
        byte => symbol(alloc, tokens, at, byte, bytes, rest),
    }
}

/// Reads a word, where a byte may begin one.
fn symbol(
    alloc: Global,
    tokens: &mut Vec<Located>,
    at: u32,
    first: u8,
    bytes: &[u8],
    rest: &[u8],
) -> Result<usize, SpecError>
    requires { bytes.now ≡ first ∷ rest.now }
    ensures { Gives (λ more. record { more = more; tokens = tokens.new.items }) result (adds tokens.old.items (symbol_lexeme at first rest.now)) }
{
    if !is_symbol(first) {
        return Err(SpecError::BadToken { at });
    }
    word(alloc, tokens, at, symbol_length(rest), bytes)
}

/// Adds a token, to which so many bytes belong behind the first.
fn add(tokens: &mut Vec<Located>, at: u32, token: Token, more: usize) -> Result<usize, SpecError>
    ensures { Gives (λ more. record { more = more; tokens = tokens.new.items }) result (adds tokens.old.items (gives at token more)) }
{
    tokens.push(Located { at, token })?;
    Ok(more)
}

/// Whether a byte is white space.
fn is_white(byte: u8) -> bool
    ensures { result ≡ is_white byte }
{
    matches!(byte, b' ' | b'\t' | b'\n' | b'\r')
}

/// Whether a byte may stand in a symbol or a number.
fn is_symbol(byte: u8) -> bool
    ensures { result ≡ is_symbol byte }
{
    byte.is_ascii_alphanumeric() || b"+-*/<>=!?$%&_^~@.:".contains(&byte)
}

/// How many bytes stand before the end of the line.
fn line_length(bytes: &[u8]) -> usize
    ensures { result ≡ line_length bytes.now }
{
    for (at, byte) in bytes.iter().enumerate() {
        if *byte == b'\n' {
            return at;
        }
    }
    bytes.len()
}

/// How many bytes go on with a symbol.
fn symbol_length(bytes: &[u8]) -> usize
    ensures value { result ≡ symbol_length bytes.now }
    ensures within { result ≤ length bytes.now }
{
    for (at, byte) in bytes.iter().enumerate() {
        if !is_symbol(*byte) {
            return at;
        }
    }
    bytes.len()
}

/// Reads a string behind its opening quote.
fn string(tokens: &mut Vec<Located>, at: u32, bytes: &[u8]) -> Result<usize, SpecError>
    ensures { Gives (λ more. record { more = more; tokens = tokens.new.items }) result (adds tokens.old.items (string_lexeme at (string_length false bytes.now))) }
{
    match string_length(bytes) {
        Some(more) => add(tokens, at, Token::Text, more),
        None => Err(SpecError::Unclosed { at }),
    }
}

/// Whether a byte of a string closes it.
fn closes(taken: bool, byte: u8) -> bool
    ensures { result ≡ (not taken && byte == 34) }
{
    !taken && byte == b'"'
}

/// Whether a byte of a string takes the next one.
fn takes(taken: bool, byte: u8) -> bool
    ensures { result ≡ (not taken && byte == 92) }
{
    !taken && byte == b'\\'
}

/// How many bytes a string takes up to its closing quote, if it has one.
fn string_length(bytes: &[u8]) -> Option<usize>
    ensures { result ≡ string_length false bytes.now }
{
    let mut taken = false;
    for (at, byte) in bytes.iter().enumerate() {
        if closes(taken, *byte) {
            return Some(at + 1);
        }
        taken = takes(taken, *byte);
    }
    None
}

/// Reads a comment or a number behind a `#`.
fn hash(
    alloc: Global,
    tokens: &mut Vec<Located>,
    at: u32,
    bytes: &[u8],
    rest: &[u8],
) -> Result<usize, SpecError>
    requires { bytes.now ≡ 35 ∷ rest.now }
    ensures { Gives (λ more. record { more = more; tokens = tokens.new.items }) result (adds tokens.old.items (hash_lexeme at 35 rest.now)) }
{
    let Some((first, behind)) = rest.split_first() else {
        return Err(SpecError::BadToken { at });
    };
    if *first == b'|' {
        return comment(at, behind);
    }
    word(alloc, tokens, at, symbol_length(rest), bytes)
}

/// Passes a comment behind its opening `#|`.
fn comment(at: u32, bytes: &[u8]) -> Result<usize, SpecError>
    ensures { Gives (λ more. record { more = more; tokens = [] }) result (comment_lexeme at (comment_length false bytes.now)) }
{
    match comment_length(bytes) {
        Some(more) => Ok(more + 1),
        None => Err(SpecError::Unclosed { at }),
    }
}

/// How many bytes a comment takes up to its closing `|#`, if it has one.
fn comment_length(bytes: &[u8]) -> Option<usize>
    ensures value { result ≡ comment_length false bytes.now }
    ensures within { IfSome result (λ more. more ≤ length bytes.now) }
{
    let mut bar = false;
    for (at, byte) in bytes.iter().enumerate() {
        if bar && *byte == b'#' {
            return Some(at + 1);
        }
        bar = *byte == b'|';
    }
    None
}

/// Reads the word that some bytes begin with; so many of them belong to it behind the first.
fn word(
    alloc: Global,
    tokens: &mut Vec<Located>,
    at: u32,
    more: usize,
    bytes: &[u8],
) -> Result<usize, SpecError>
    requires { more < length bytes.now }
    ensures { Gives (λ more. record { more = more; tokens = tokens.new.items }) result (adds tokens.old.items (word_in at more bytes.now)) }
{
    let (word, _) = bytes.split_at(more + 1);
    match token_of(alloc, word)? {
        Some(token) => add(tokens, at, token, more),
        None => Err(SpecError::BadToken { at }),
    }
}

/// The token of a word: a number where it begins like one, and else a symbol.
fn token_of(alloc: Global, word: &[u8]) -> Result<Option<Token>, AllocError>
    ensures { IfOk result (λ token. token ≡ token_of word.now) }
{
    if begins_like_number(word) && !is_step(word) {
        return Ok(number(word).map(Token::Number));
    }
    let name = word.to_ascii_lowercase(alloc)?;
    Ok(Some(Token::Word(Items::from_vec(name))))
}

/// Whether a word is one of the symbols that begin with a digit.
fn is_step(word: &[u8]) -> bool
    ensures { result ≡ is_step word.now }
{
    word == b"1+".as_slice() || word == b"1-".as_slice()
}

/// The tokens that are read of a text are those that it spells, and a text that spells tokens is read.
pub fn tokens_are_spelled()
    ensures { TokensAreSpelled }
{}
