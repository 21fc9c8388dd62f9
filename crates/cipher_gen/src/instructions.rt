//! The instructions of the method.

ghost use Rattle.std.specs.Prelude.{◌≡◌, ◌+◌, ◌≤◌, ◌<◌, ◌++◌, length, OnOk};
ghost use Rattle.cipher_gen.specs.Ciphers.{in_rounds, round_code, code, code_info};

use crate::choices::{rotation, rounds};
use crate::opcodes::{
    BIPUSH, IADD, IAND, ILOAD_0, ILOAD_1, ILOAD_2, IOR, IRETURN, ISHL, ISTORE_0, ISTORE_1,
    ISTORE_2, ISUB, IUSHR, IXOR, LDC,
};
use std::alloc::AllocError;

/// How many bytes of instructions there are; what the attribute Code holds has 12 bytes more.
#[tactic(auto, using(crate::proofs::Lengths::length_code, crate::proofs::Lengths::length_code_info))]
pub fn code_length(n: u64) -> u32
    ensures value { result ≡ length (code n) }
    ensures info { result + 12 ≡ length (code_info n) }
    ensures most { result ≤ 228 }
{
    28 * u32::from(rounds(n)) + 4
}

/// Adds the instructions of all rounds and those that give the result.
#[tactic(auto, unfolding(crate::specs::Ciphers::code))]
pub fn push_code(out: &mut Vec<u8>, n: u64) -> Result<(), AllocError>
    ensures { OnOk result (out.new.items ≡ out.old.items ++ code n) }
{
    push_rounds(out, n)?;
    out.extend_from_slice(&[ILOAD_0, ILOAD_1, IXOR, IRETURN])
}

/// Adds the instructions of all rounds.
fn push_rounds(out: &mut Vec<u8>, n: u64) -> Result<(), AllocError>
    ensures { OnOk result (out.new.items ≡ out.old.items ++ in_rounds (round_code n) n) }
{
    for round in 0..rounds(n) {
        push_round(out, n, round)?;
    }
    Ok(())
}

/// Adds the instructions of a round.
fn push_round(out: &mut Vec<u8>, n: u64, round: u8) -> Result<(), AllocError>
    requires { round < 8 }
    ensures { OnOk result (out.new.items ≡ out.old.items ++ round_code n round) }
{
    out.extend_from_slice(&round_code(n, round))
}

/// The instructions of a round, where the locals 0, 1 and 2 are a, b and t.
fn round_code(n: u64, round: u8) -> [u8; 28]
    requires { round < 8 }
    ensures { result ≡ round_code n round }
{
    let left = rotation(n, round);
    let right = 32 - left;
    let constant = 8 + round;
    [
        // t = a + b
        ILOAD_0, ILOAD_1, IADD, ISTORE_2,
        // t = (t << left) | (t >>> right)
        ILOAD_2, BIPUSH, left, ISHL, ILOAD_2, BIPUSH, right, IUSHR, IOR, ISTORE_2,
        // t = (t | constant) - (t & constant)
        ILOAD_2, LDC, constant, IOR, ILOAD_2, LDC, constant, IAND, ISUB, ISTORE_2,
        // a = b, b = t
        ILOAD_1, ISTORE_0, ILOAD_2, ISTORE_1,
    ]
}
