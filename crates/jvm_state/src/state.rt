ghost use Rattle.std.specs.Prelude.{◌≡◌, []};

use crate::arrays::Arrays;
use crate::callers::Callers;
use crate::cells::Cells;
use crate::frame::Frame;
use crate::heap::Heap;
use crate::value::Value;
use class_file::MethodId;
use sqlite_items::Items;
use std::alloc::Global;

/// A state of a run: the frame that is open, its callers, and what they share.
#[derive(Drop)]
pub struct State<I = u32, L = u64, E = u64> {
    pub frame: Frame<I, L>,
    pub callers: Callers<I, L>,
    /// The method that begins when the initialiser returns; nothing where the initialiser isn't running.
    pub waiting: Option<Waiting<I, L>>,
    pub heap: Heap<I, L, E>,
}

impl<I: Copy, L: Copy, E: Copy> State<I, L, E> {
    /// A state that holds nothing yet, which takes no memory.
    pub fn new(alloc: Global) -> State<I, L, E>
        ensures callers { result.callers ≡ [] }
        ensures waiting { result.waiting ≡ None }
        ensures arrays { result.heap.arrays ≡ [] }
        ensures statics { result.heap.statics ≡ [] }
        ensures made { result.heap.made ≡ 0 }
    {
        State {
            frame: Frame::new(alloc),
            callers: Callers::new(alloc),
            waiting: None,
            heap: Heap {
                arrays: Arrays::new(alloc),
                statics: Cells::new(alloc),
                made: 0,
            },
        }
    }
}

/// A method that waits for the initialiser, with its arguments.
#[derive(Drop)]
pub struct Waiting<I = u32, L = u64> {
    pub method: MethodId,
    pub arguments: Items<Value<I, L>>,
}

/// How many frames may be open at once, and how many elements may be made in all.
#[derive(Clone, Copy)]
pub struct Limits {
    pub frames: u32,
    pub elements: u64,
}

/// A place of a method's code.
#[derive(Clone, Copy, Debug, PartialEq, Eq)]
pub struct Site {
    pub method: MethodId,
    pub pc: u32,
}
