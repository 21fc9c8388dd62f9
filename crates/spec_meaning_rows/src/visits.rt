//! The definitions of visits on a worked example, whose numbers were counted by hand.

ghost use Rattle.spec_meaning_rows.specs.Countdown.{RecursionIsVisited};

/// A recursion's body is visited at one address a call, each address with its variables, depth and work.
pub fn a_recursion_is_visited()
    ensures { RecursionIsVisited }
{}
