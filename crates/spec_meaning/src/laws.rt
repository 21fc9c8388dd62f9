//! What is true of the visits of every evaluation, and of numbers that aren't below 0. The functions do nothing: their
//! contracts are the laws.

ghost use Rattle.spec_meaning.specs.VisitLaws.{EvaluatesByKind, MoreWorkIsLeftOver, VisitsAreUsed, VisitedIsCounted, FormIsTheAddress, StopAtAVisit};
ghost use Rattle.spec_meaning.specs.NumberLaws.{NeverNegative};

/// A form stops where it may not be open or where no visit is left, and else is evaluated by its kind.
pub fn evaluates_by_kind()
    ensures { EvaluatesByKind }
{}

/// An evaluation that has a value, or stops for another cause than work, does the same with more work, which is left
/// over.
pub fn more_work_is_left_over()
    ensures { MoreWorkIsLeftOver }
{}

/// Each visit is to an address of its own and uses up one visit; what isn't used is left.
pub fn visits_are_used()
    ensures { VisitsAreUsed }
{}

/// The counted addresses are those that are visited, and one more exactly where work runs out.
pub fn visited_is_counted()
    ensures { VisitedIsCounted }
{}

/// The form at a visited address is the same on every input.
pub fn form_is_the_address()
    ensures { FormIsTheAddress }
{}

/// An evaluation that ends outside ends at a visited form; and what a visited form stops for, the whole stops for.
pub fn stop_at_a_visit()
    ensures { StopAtAVisit }
{}

/// Numbers that aren't below 0 are cut, sliced, turned and looked up as words are.
pub fn never_negative()
    ensures { NeverNegative }
{}
