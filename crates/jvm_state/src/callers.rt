ghost use Rattle.std.specs.Prelude.{◌≡◌, ◌≤◌, ◌<◌, ◌+◌, ◌^◌, [], ◌∷◌, length, reverse, MatchOption, IfSome, OnOk};

use crate::frame::Frame;
use std::alloc::{AllocError, Global};
use std::marker::Model;

/// The frames that wait for a call's return, the inner one first. Each is at its call.
#[derive(Drop)]
pub struct Callers<I = u32, L = u64> {
    frames: Vec<Frame<I, L>>,
}

impl<I, L> Model for Callers<I, L> {
    ghost use Rattle.std.specs.Prelude.{◌≤◌, ◌+◌, All, List, reverse};
    ghost use Rattle.jvm_state.specs.declared.frame.Frame.{Frame as Caller};

    ghost Value = { List (Caller I L) };

    ghost view = { λ c. reverse c.frames.items };

    ghost invariant = { λ c. All (λ f. f.pc ≤ 65535) c.frames.items };
}

impl<I: Copy, L: Copy> Callers<I, L> {
    /// No callers.
    pub fn new(alloc: Global) -> Callers<I, L>
        ensures { result ≡ [] }
    {
        Callers {
            frames: Vec::new(alloc),
        }
    }

    /// Takes all frames.
    pub fn clear(&mut self)
        ensures { self.new ≡ [] }
    {
        self.frames.clear();
    }

    /// How many there are.
    pub fn len(&self) -> usize
        ensures count { result ≡ length self.now }
        ensures few { result < 2 ^ 63 }
    {
        self.frames.len()
    }

    /// One more, at its call.
    pub fn push(&mut self, frame: Frame<I, L>) -> Result<(), AllocError>
        requires { frame.pc ≤ 65535 }
        ensures { OnOk result (self.new ≡ frame ∷ self.old) }
    {
        self.frames.push(frame)?;
        Ok(())
    }

    /// Takes the inner one.
    pub fn pop(&mut self) -> Option<Frame<I, L>>
        ensures frame { MatchOption result ((self.old ≡ []) × (self.new ≡ [])) (λ frame. self.old ≡ frame ∷ self.new) }
        ensures place { IfSome result (λ frame. frame.pc ≤ 65535) }
    {
        self.frames.pop()
    }

    /// All of them, the inner one last.
    pub fn outer_first(&self) -> &[Frame<I, L>]
        ensures { reverse result.now ≡ self.now }
    {
        &self.frames
    }
}
