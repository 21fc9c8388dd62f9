use cnf_clauses::lit::{ClauseId, Lit};
use std::alloc::{AllocError, Global};

/// Which variable to decide next: the one that took part in most conflicts of late, with the sign that it had
/// last.
///
/// It only proposes, so nothing rests on it, and no clause speaks of it.
#[derive(Drop)]
pub struct Order {
    activity: Vec<u64>,
    phases: Vec<bool>,
    // A heap of variables, the most active at its root, and where in it each variable stands.
    heap: Vec<u32>,
    slots: Vec<Option<usize>>,
    // What a conflict adds to an activity now.
    gain: u64,
}

// The gain at which all activities are scaled down.
const MOST_GAIN: u64 = 1 << 40;

// How far activities are scaled down.
const SCALE: u64 = 1 << 36;

// A heap of at most 2^31 variables has at most this many levels.
const LEVELS: u32 = 32;

impl Order {
    /// All variables below a number, with no activity.
    pub fn new(alloc: Global, variables: u32) -> Result<Order, AllocError> {
        let mut order = Order {
            activity: vec![in alloc; 0; variables as usize]?,
            phases: vec![in alloc; true; variables as usize]?,
            heap: Vec::new(alloc),
            slots: vec![in alloc; None; variables as usize]?,
            gain: 16,
        };
        for var in 0..variables {
            order.insert(var)?;
        }
        Ok(order)
    }

    /// The most active variable of the heap, as the literal to decide. It leaves the heap.
    pub fn next(&mut self) -> Option<Lit> {
        let var = *self.heap.first()?;
        let last = self.heap.pop()?;
        if let Some(slot) = self.slots.get_mut(var as usize) {
            *slot = None;
        }
        if last != var {
            self.place(0, last);
            self.sink(0);
        }
        if var >= 1 << 31 {
            return None;
        }
        let negated = self.phases.get(var as usize).copied().unwrap_or(true);
        Some(Lit::new(var, negated))
    }

    /// Takes back literals that are no longer true, and notes their signs.
    pub fn release(&mut self, gone: &[Lit]) -> Result<(), AllocError> {
        for lit in gone {
            let var = lit.var();
            if let Some(phase) = self.phases.get_mut(var as usize) {
                *phase = lit.is_negated();
            }
            self.insert(var)?;
        }
        Ok(())
    }

    /// Notes a conflict in which these steps and this clause took part.
    pub fn note(&mut self, steps: &[(ClauseId, Lit)], clause: &[Lit]) {
        for step in steps {
            let lit = step.1;
            self.raise(lit.var());
        }
        for lit in clause {
            self.raise(lit.var());
        }
        self.gain = self.gain.saturating_add(self.gain / 16);
        if self.gain >= MOST_GAIN {
            self.scale_down();
        }
    }

    // Raises the activity of a variable.
    fn raise(&mut self, var: u32) {
        if let Some(activity) = self.activity.get_mut(var as usize) {
            *activity = activity.saturating_add(self.gain);
        }
        if let Some(Some(slot)) = self.slots.get(var as usize).copied() {
            self.rise(slot);
        }
    }

    // Scales all activities down, which keeps their order.
    fn scale_down(&mut self) {
        for activity in self.activity.iter_mut() {
            *activity /= SCALE;
        }
        self.gain = 16;
    }

    // Puts a variable into the heap unless it is there.
    fn insert(&mut self, var: u32) -> Result<(), AllocError> {
        if let Some(None) = self.slots.get(var as usize).copied() {
            let slot = self.heap.len();
            self.heap.push(var)?;
            self.place(slot, var);
            self.rise(slot);
        }
        Ok(())
    }

    // Writes a variable into a slot of the heap.
    fn place(&mut self, slot: usize, var: u32) {
        if let Some(entry) = self.heap.get_mut(slot) {
            *entry = var;
        }
        if let Some(at) = self.slots.get_mut(var as usize) {
            *at = Some(slot);
        }
    }

    // Moves the variable of a slot up to where it belongs.
    fn rise(&mut self, slot: usize) {
        let mut slot = slot;
        for _ in 0..LEVELS {
            if slot == 0 {
                return;
            }
            let parent = (slot - 1) / 2;
            if !self.swap_if_above(slot, parent) {
                return;
            }
            slot = parent;
        }
    }

    // Moves the variable of a slot down to where it belongs.
    fn sink(&mut self, slot: usize) {
        let mut slot = slot;
        for _ in 0..LEVELS {
            if slot >= 1 << 62 {
                return;
            }
            let left = 2 * slot + 1;
            let right = left + 1;
            let child = if self.is_above(right, left) {
                right
            } else {
                left
            };
            if !self.swap_if_above(child, slot) {
                return;
            }
            slot = child;
        }
    }

    // Whether the variable of one slot is more active than that of another. No variable is above none.
    fn is_above(&self, slot: usize, other: usize) -> bool {
        match (self.activity_at(slot), self.activity_at(other)) {
            (Some(a), Some(b)) => a > b,
            _ => false,
        }
    }

    // The activity of the variable of a slot.
    fn activity_at(&self, slot: usize) -> Option<u64> {
        let var = *self.heap.get(slot)?;
        self.activity.get(var as usize).copied()
    }

    // Swaps the variables of two slots where the first is more active.
    fn swap_if_above(&mut self, slot: usize, other: usize) -> bool {
        if !self.is_above(slot, other) || slot >= self.heap.len() || other >= self.heap.len() {
            return false;
        }
        let (first, second) = (self.heap[slot], self.heap[other]);
        self.place(other, first);
        self.place(slot, second);
        true
    }
}
