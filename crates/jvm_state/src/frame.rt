ghost use Rattle.std.specs.Prelude.{◌≡◌, [], ◌∷◌, length};

use crate::cells::Cells;
use crate::stack::Stack;
use crate::variables::Locals;
use class_file::MethodId;
use std::alloc::Global;

/// A method that is open (JVM Specification SE 8, section 2.6): its place in the code, its local variables, of which
/// some hold nothing, and its operands.
#[derive(Drop)]
pub struct Frame<I = u32, L = u64> {
    pub method: MethodId,
    pub pc: u32,
    pub locals: Locals<I, L>,
    pub stack: Stack<I, L>,
}

impl<I: Copy, L: Copy> Frame<I, L> {
    /// A frame without local variables and operands, which takes no memory.
    pub fn new(alloc: Global) -> Frame<I, L>
        ensures place { result.pc ≡ 0 }
        ensures locals { result.locals ≡ [] }
        ensures stack { result.stack ≡ [] }
    {
        Frame {
            method: MethodId(0),
            pc: 0,
            locals: Cells::new(alloc),
            stack: Stack::new(alloc),
        }
    }
}
