ghost use Rattle.std.specs.Prelude.{◌≡◌, ◌+◌, ◌*◌, length, IfOk, string_bytes};
ghost use Rattle.cipher_gen.specs.Ciphers.{rounds, class_bytes, spec_text};

use crate::class::class_bytes;
use crate::specification::spec_text;
use memory::Memory;
use std::alloc::Global;

/// A trial cipher: a class file and a specification that are to give the same word of 32 bits for each two words of
/// 32 bits.
#[derive(Debug, Drop)]
pub struct Made {
    /// The class file of `public class Mix` with `public static int mix(int, int)`, as the Java Virtual Machine
    /// Specification, Java SE 8, chapter 4, has it: 106 bytes and 33 for each round.
    pub class: Vec<u8>,
    /// The text of the specification, whose one function is `mix` of two formals.
    pub spec: Vec<u8>,
}

/// Makes the trial cipher of a number, which has 1 + n mod 8 rounds. The only error is want of memory.
#[tactic(auto, using(crate::proofs::Lengths::length_class))]
pub fn make(alloc: Global, n: u64) -> Result<Made, Memory>
    ensures class { IfOk result (λ made. made.class.items ≡ class_bytes n) }
    ensures size { IfOk result (λ made. length made.class.items ≡ 106 + 33 * rounds n) }
    ensures spec { IfOk result (λ made. made.spec.items ≡ spec_text n) }
{
    let class = class_bytes(alloc, n)?;
    let spec = spec_text(alloc, n)?;
    Ok(Made {
        class,
        spec: spec.into_bytes(),
    })
}
