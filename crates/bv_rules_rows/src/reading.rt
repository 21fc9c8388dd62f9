//! Reading a term.

ghost use Rattle.std.specs.Prelude.{◌≡◌, ◌+◌, ◌≤◌, OnOk, vec_len};

use crate::fault::Fault;
use crate::terms::Terms;
use crate::words::operation;
use dag::{Node, NodeId};
use std::alloc::{AllocError, Global};

/// How often brackets may stand in one another.
const DEPTH: usize = 20;

/// An operation whose bracket isn't closed yet.
#[derive(Drop)]
struct Part<'a> {
    name: &'a str,
    numbers: Vec<u32>,
    children: Vec<NodeId>,
}

/// The parts around the place that was read to, the innermost last, and the node once it is whole.
#[derive(Drop)]
struct Reader<'a> {
    parts: Vec<Part<'a>>,
    whole: Option<Node>,
}

/// The node that a term stands for, whose children are added to the graph.
pub(crate) fn read(alloc: Global, terms: &mut Terms, term: &str) -> Result<Node, Fault> {
    let spaced = spaced(alloc, term)?;
    let mut reader = Reader {
        parts: Vec::new(alloc),
        whole: None,
    };
    for word in spaced.as_str().split_whitespace() {
        reader.take(alloc, terms, word)?;
    }
    if reader.parts.is_empty() {
        reader.whole.ok_or(Fault::Brackets)
    } else {
        Err(Fault::Brackets)
    }
}

/// A term with spaces around its brackets.
fn spaced(alloc: Global, term: &str) -> Result<String, AllocError> {
    term.replace(alloc, '(', " ( ")?
        .as_str()
        .replace(alloc, ')', " ) ")
}

impl<'a> Reader<'a> {
    fn take(&mut self, alloc: Global, terms: &mut Terms, word: &'a str) -> Result<(), Fault> {
        match word {
            "(" => self.open(alloc),
            ")" => self.close(terms),
            _ => self.word(terms, word),
        }
    }

    fn open(&mut self, alloc: Global) -> Result<(), Fault>
        ensures opened { OnOk result (vec_len self.new.parts ≡ vec_len self.old.parts + 1) }
        ensures shallow { OnOk result (vec_len self.new.parts ≤ DEPTH) }
    {
        if self.parts.len() >= DEPTH {
            return Err(Fault::Depth);
        }
        self.parts.push(Part {
            name: "",
            numbers: Vec::new(alloc),
            children: Vec::new(alloc),
        })?;
        Ok(())
    }

    fn close(&mut self, terms: &mut Terms) -> Result<(), Fault>
        ensures { OnOk result (vec_len self.new.parts + 1 ≡ vec_len self.old.parts) }
    {
        let part = self.parts.pop().ok_or(Fault::Brackets)?;
        let node = operation(part.name, &part.numbers, &part.children).ok_or(Fault::Operation)?;
        self.give(terms, node)
    }

    fn word(&mut self, terms: &mut Terms, word: &'a str) -> Result<(), Fault> {
        if let Some(part) = self.parts.last_mut() {
            if part.name.is_empty() {
                part.name = word;
                return Ok(());
            }
            if let Ok(number) = word.parse::<u32>() {
                part.numbers.push(number)?;
                return Ok(());
            }
        }
        let node = terms.word(word)?;
        self.give(terms, node)
    }

    /// Gives a node to the part around it, or takes it for the whole.
    fn give(&mut self, terms: &mut Terms, node: Node) -> Result<(), Fault>
        ensures { OnOk result (vec_len self.new.parts ≡ vec_len self.old.parts) }
    {
        match self.parts.last_mut() {
            Some(part) => part.children.push(terms.put(node)?)?,
            None => {
                if self.whole.is_some() {
                    return Err(Fault::Brackets);
                }
                self.whole = Some(node);
            }
        }
        Ok(())
    }
}
