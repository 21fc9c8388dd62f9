//! Sets of a circuit's nodes.

ghost use Rattle.std.specs.Prelude.{◌≡◌, IfOk, false, replicate};

use memory::Memory;
use std::alloc::Global;

/// Whether each of so many nodes is a member: none is.
pub fn no_members(alloc: Global, count: usize) -> Result<Vec<bool>, Memory>
    ensures { IfOk result (λ v. v.items ≡ replicate count false) }
{
    let members = vec![in alloc; false; count]?;
    Ok(members)
}
