//! Constants: variable 0, which is true in each model, and its opposite.

ghost use Rattle.std.specs.Prelude.{◌≡◌, ◌≤◌, IfOk, true, cond};
ghost use Rattle.cnf_clauses.specs.Literal.{opposite};
ghost use Rattle.bit_blaster.specs.Gates.{constant as constant_of};
ghost use Rattle.bit_blaster.specs.Spelling.{IsConstant};

use cnf_clauses::Lit;
use memory::Memory;
use std::alloc::Global;

/// The literal that is always true, or always false.
pub fn constant(value: bool) -> Lit
    ensures { result ≡ constant_of value }
{
    Lit::new(0, !value)
}

/// The bits of a number.
pub fn constants(alloc: Global, width: u32, value: u64) -> Result<Vec<Lit>, Memory>
    ensures { IfOk result (λ r. IsConstant width value r.items) }
{
    let mut out = Vec::new(alloc);
    let mut rest = value;
    for i in 0..width {
        out.push(constant(rest % 2 == 1))?;
        rest /= 2;
    }
    Ok(out)
}
