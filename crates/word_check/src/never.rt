//! Whether two nodes of a circuit never differ, as far as words alone tell.

ghost use Rattle.std.specs.Prelude.{◌≡◌, ◌<◌, IsTrue, IfOk, length, slice_index};
ghost use Rattle.bit_blaster.specs.Circuit.{HaveWidths};
ghost use Rattle.word_check.specs.Valuation.{NeverDiffer};

use crate::exclusive_ors::xor_is_zero;
use crate::operands::have_same_operands;
use crate::sums::difference_is_zero;
use crate::trying::are_same_on_all;
use dag::Node;
use memory::Memory;
use std::alloc::Global;

/// Whether words alone tell that two nodes of a circuit have equal values on every input: their difference comes to
/// nothing as a sum, or their exclusive or does, or both are And, or Or, of the same operands, or the leaves have few
/// bits together and the two agree on all their values. False says nothing.
pub fn never_differ(
    alloc: Global,
    nodes: &[Node],
    widths: &[u32],
    first: u32,
    second: u32,
) -> Result<bool, Memory>
    requires widths { HaveWidths nodes.now widths.now }
    requires first { first < length nodes.now }
    requires second { second < length nodes.now }
    requires same { slice_index widths.now first ≡ slice_index widths.now second }
    ensures { IfOk result (λ b. IsTrue b → NeverDiffer nodes.now first second) }
{
    if difference_is_zero(alloc, nodes, widths, first, second)? {
        return Ok(true);
    }
    if xor_is_zero(alloc, nodes, widths, first, second)? {
        return Ok(true);
    }
    if have_same_operands(alloc, nodes, first, second)? {
        return Ok(true);
    }
    are_same_on_all(alloc, nodes, widths, first, second)
}
