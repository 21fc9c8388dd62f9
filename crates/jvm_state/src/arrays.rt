ghost use Rattle.std.specs.Prelude.{◌≡◌, ◌<◌, ◌^◌, [], length, slice_get, OnOk};
ghost use Rattle.jvm_state.specs.Arrays.{has_type, holds_references, count_in, AreShort, element_in, element_at, reference_in, reference_at, accepts, refers_to, with_word, set_element, with_reference, set_row, length_in, items_of, with_one_more};

use crate::cells::Cells;
use crate::types::{ArrayType, is_same_kind};
use axe_io::Kind;
use bv_words::chop;
use std::alloc::{AllocError, Global};
use std::marker::Model;

/// An array: words of the width of a kind, in whose place other types may stand, or references of an element type.
#[derive(Drop)]
pub enum Array<E = u64> {
    /// Words of the width of a kind.
    Words(Kind, Cells<E>),
    /// References to arrays of a type, each null or the number of an array.
    References(ArrayType, Cells<Option<u32>>),
}

impl<E: Copy> Array<E> {
    /// Whether it is of a type.
    fn has_type(&self, wanted: ArrayType) -> bool
        ensures { result ≡ has_type wanted (Some self.now) }
    {
        match self {
            Array::Words(kind, _) => wanted.depth == 1 && is_same_kind(*kind, wanted.kind),
            Array::References(inner, _) => {
                u32::from(inner.depth) + 1 == u32::from(wanted.depth)
                    && is_same_kind(inner.kind, wanted.kind)
            }
        }
    }

    /// How many elements it has.
    fn count(&self) -> usize
        ensures { result ≡ count_in self.now }
    {
        match self {
            Array::Words(_, words) => words.len(),
            Array::References(_, references) => references.len(),
        }
    }

    /// The word at an index, or None where it has none.
    fn word(&self, index: u32) -> Option<E>
        ensures { result ≡ element_in (Some self.now) index }
    {
        match self {
            Array::Words(_, words) => words.get(index as usize),
            Array::References(_, _) => None,
        }
    }

    /// The reference at an index, or None where it has none.
    fn reference(&self, index: u32) -> Option<Option<u32>>
        ensures { result ≡ reference_in (Some self.now) index }
    {
        match self {
            Array::Words(_, _) => None,
            Array::References(_, references) => references.get(index as usize),
        }
    }

    /// Writes a word; nothing where it has none there.
    fn set_word(&mut self, index: u32, word: E)
        ensures { self.new ≡ with_word index word self.old }
    {
        match self {
            Array::Words(_, words) => words.set(index as usize, word),
            Array::References(_, _) => {}
        }
    }

    /// Writes a reference; nothing where it has none there.
    fn set_reference(&mut self, index: u32, reference: Option<u32>)
        ensures { self.new ≡ with_reference index reference self.old }
    {
        match self {
            Array::Words(_, _) => {}
            Array::References(_, references) => references.set(index as usize, reference),
        }
    }
}

/// The arrays of a run, by their numbers, which count from 0. Each is shorter than 2^31.
#[derive(Drop)]
pub struct Arrays<E = u64> {
    items: Vec<Array<E>>,
}

impl<E> Model for Arrays<E> {
    ghost use Rattle.std.specs.Prelude.{List};
    ghost use Rattle.jvm_state.specs.declared.arrays.Array.{Array as Item};
    ghost use Rattle.jvm_state.specs.Arrays.{AreShort};

    ghost Value = { List (Item E) };

    ghost view = { λ a. a.items.items };

    ghost invariant = { λ a. AreShort a.items.items };
}

impl<E: Copy> Arrays<E> {
    /// No arrays.
    pub fn new(alloc: Global) -> Arrays<E>
        ensures { result ≡ [] }
    {
        Arrays {
            items: Vec::new(alloc),
        }
    }

    /// Each array is shorter than 2^31: its length is an int that isn't negative.
    pub fn are_short(&self)
        ensures { AreShort self.now }
    {
        let _items = &self.items;
    }

    /// Takes all arrays.
    pub fn clear(&mut self)
        ensures { self.new ≡ [] }
    {
        self.items.clear();
    }

    /// How many there are.
    pub fn len(&self) -> usize
        ensures { result ≡ length self.now }
    {
        self.items.len()
    }

    /// Whether an array is there and has a type.
    pub fn has_type(&self, array: u32, wanted: ArrayType) -> bool
        ensures { result ≡ has_type wanted (slice_get self.now array) }
    {
        match self.items.get(array as usize) {
            Some(found) => found.has_type(wanted),
            None => false,
        }
    }

    /// Whether a reference is null, or to an array of a type.
    pub fn refers_to(&self, wanted: ArrayType, reference: Option<u32>) -> bool
        ensures { result ≡ refers_to wanted self.now reference }
    {
        match reference {
            None => true,
            Some(array) => self.has_type(array, wanted),
        }
    }

    /// Whether an array is there and holds references.
    pub fn holds_references(&self, array: u32) -> bool
        ensures { result ≡ holds_references (slice_get self.now array) }
    {
        matches!(
            self.items.get(array as usize),
            Some(Array::References(_, _))
        )
    }

    /// Whether a reference is null or to an array of the element type of an array of references.
    pub fn accepts(&self, array: u32, reference: Option<u32>) -> bool
        ensures { result ≡ accepts self.now (slice_get self.now array) reference }
    {
        match self.items.get(array as usize) {
            Some(Array::References(inner, _)) => self.refers_to(*inner, reference),
            _ => false,
        }
    }

    /// The word at an index, or None where the array has none.
    pub fn element(&self, array: u32, index: u32) -> Option<E>
        ensures { result ≡ element_at self.now array index }
    {
        match self.items.get(array as usize) {
            Some(found) => found.word(index),
            None => None,
        }
    }

    /// The reference at an index, or None where the array has none.
    pub fn reference(&self, array: u32, index: u32) -> Option<Option<u32>>
        ensures { result ≡ reference_at self.now array index }
    {
        match self.items.get(array as usize) {
            Some(found) => found.reference(index),
            None => None,
        }
    }

    /// Writes a word; nothing where the array has none there.
    pub fn set(&mut self, array: u32, index: u32, word: E)
        ensures { self.new ≡ set_element self.old array index word }
    {
        let at = array as usize;
        if at < self.items.len() {
            self.items[at].set_word(index, word);
        }
    }

    /// Writes a reference; nothing where the array has none there.
    pub fn set_reference(&mut self, array: u32, index: u32, reference: Option<u32>)
        ensures { self.new ≡ set_row self.old array index reference }
    {
        let at = array as usize;
        if at < self.items.len() {
            self.items[at].set_reference(index, reference);
        }
    }

    /// The length of an array as an int, 0 where there is none.
    pub fn length(&self, array: u32) -> u32
        ensures { result ≡ length_in (slice_get self.now array) }
    {
        match self.items.get(array as usize) {
            Some(found) => chop(32, found.count() as u64) as u32,
            None => 0,
        }
    }

    /// The words of an array, none where there is no array of words.
    pub fn elements(&self, array: usize) -> &[E]
        ensures { result.now ≡ items_of (slice_get self.now array) }
    {
        match self.items.get(array) {
            Some(Array::Words(_, words)) => words.as_slice(),
            _ => &[],
        }
    }

    /// One more array, shorter than 2^31.
    pub fn push(&mut self, array: Array<E>) -> Result<(), AllocError>
        requires { count_in array < 2 ^ 31 }
        ensures { OnOk result (self.new ≡ with_one_more self.old array) }
    {
        self.items.push(array)?;
        Ok(())
    }
}
