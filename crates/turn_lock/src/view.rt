use std::collections::LinkedList;

/// What a seat of the lock's table knows. It exists in proofs alone, and no value of it is made.
pub struct View<O, E> {
    /// What was put in: the opening, and the entries that the value had then. A seat that was
    /// joined to another has none.
    pub start: Option<(O, LinkedList<(u32, E)>)>,

    /// The numbers of the seat, each with the entries that were added under it.
    pub rows: LinkedList<(u32, LinkedList<(u32, E)>)>,

    /// The histories that were seen.
    pub seen: LinkedList<LinkedList<(u32, E)>>,

    /// The ticket that is out. In the rule a ticket is a number without bound.
    pub ticket: Option<u64>,

    /// From the look that found the ticket served to the step that serves the next: the history
    /// that the value had at that look.
    pub front: Option<LinkedList<(u32, E)>>,

    /// How many rows a split gives to the new seat.
    pub cut: u32,
}
