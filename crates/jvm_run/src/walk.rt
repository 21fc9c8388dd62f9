ghost use Rattle.std.specs.Prelude.{◌≡◌, IfOk, OnOk};
ghost use Rattle.jvm_meaning.specs.Runs.{start};
ghost use Rattle.jvm_meaning.specs.Traces.{next, place};

use crate::run::begin_run;
use crate::step::step;
use axe_io::Shape;
use class_file::{ClassFile, MethodId};
use jvm_meaning::site_of;
use jvm_state::{End, Limits, Site, State};
use std::alloc::{AllocError, Global};
use std::marker::Model;

/// A run on its way: what it has come to, a state or its end.
#[derive(Drop)]
pub struct Walk {
    state: State,
    end: Option<End>,
}

impl Model for Walk {
    ghost use Rattle.jvm_meaning.specs.Numbers.{Step};
    ghost use Rattle.jvm_meaning.specs.Traces.{come_to};

    ghost Value = { Step };

    ghost view = { λ w. come_to w.state w.end };
}

impl Walk {
    /// The run of a method on an input, before its first step.
    pub fn begin(
        alloc: Global,
        class: &ClassFile,
        method: MethodId,
        shape: &Shape,
        leaves: &[u64],
    ) -> Result<Walk, AllocError>
        ensures { IfOk result (λ walk. walk ≡ start class.now method shape.now leaves.now) }
    {
        let mut state = State::new(alloc);
        let end = begin_run(alloc, class, method, shape, leaves, &mut state)?;
        Ok(Walk { state, end })
    }

    /// Where the next step is made; None behind the end.
    pub fn place(&self) -> Option<Site>
        ensures { result ≡ place self.now }
    {
        match &self.end {
            None => Some(site_of(&self.state.frame)),
            Some(_) => None,
        }
    }

    /// Makes a step; nothing behind the end.
    pub fn go_on(
        &mut self,
        alloc: Global,
        class: &ClassFile,
        shape: &Shape,
        limits: Limits,
    ) -> Result<(), AllocError>
        ensures { OnOk result (self.new ≡ next class.now shape.now limits self.old) }
    {
        if self.end.is_none() {
            self.end = step(alloc, class, shape, limits, &mut self.state)?;
        }
        Ok(())
    }
}
