ghost use Rattle.std.specs.Prelude.{◌≡◌, ◌+◌, ◌<◌, ◌≤◌, length, drop, if◌then◌else◌, IfOk, IfSome};
ghost use Rattle.std.specs.Option.{ForSome};
ghost use Rattle.jvm_code.specs.Instructions.{instruction_at, first_instruction, with_shape, with_operands, behind_wide};

use crate::operands::{Values, operands_in};
use crate::table::{Operands, row_of, wide_row_of};

/// An instruction of the profile.
#[derive(Clone, Copy, Debug, PartialEq, Eq)]
pub struct Inst {
    /// The opcode; behind `wide` the opcode that `wide` stands before.
    pub op: u8,
    /// Whether `wide` stands before the opcode.
    pub wide: bool,
    /// The first operand, 0 where there is none: a signed value or offset, or an unsigned local, number of a
    /// constant or kind of an element.
    pub first: i32,
    /// The second operand, 0 where there is none: the signed amount of `iinc`, or the dimensions of `multianewarray`.
    pub second: i32,
    /// How many bytes the instruction takes, from 1 to 6.
    pub size: u32,
}

/// Why no instruction of the profile stands at a place.
#[derive(Clone, Copy, Debug, PartialEq, Eq)]
pub enum CodeError {
    /// The place isn't below the length of the code.
    OutOfCode {
        /// The place.
        pc: u32,
    },
    /// The opcode has no row, or may not stand behind `wide`.
    OutsideTable {
        /// The place of the instruction.
        pc: u32,
        /// The opcode; behind `wide` the one that stands there.
        op: u8,
    },
    /// The instruction runs past the end of the code.
    Cut {
        /// The place of the instruction.
        pc: u32,
    },
}

/// The instruction that begins at a place of a code, by the opcode table. Takes no memory.
#[tactic(auto, unfolding(crate::specs::Instructions::instruction_at))]
pub fn decode(code: &[u8], pc: u32) -> Result<Inst, CodeError>
    ensures row { result ≡ instruction_at code.now pc }
    ensures within { IfOk result (λ i. (0 < i.size) × (pc + i.size ≤ length code.now)) }
{
    first_instruction(pc, from(code, pc))
}

/// The bytes of a code from a place on.
fn from(code: &[u8], pc: u32) -> &[u8]
    ensures { result.now ≡ drop pc code.now }
{
    let at = (pc as usize).min(code.len());
    code.split_at(at).1
}

fn first_instruction(pc: u32, bytes: &[u8]) -> Result<Inst, CodeError>
    ensures row { result ≡ first_instruction pc bytes.now }
    ensures within { IfOk result (λ i. (0 < i.size) × (i.size ≤ length bytes.now)) }
{
    match bytes {
        [] => Err(CodeError::OutOfCode { pc }),
        [op, rest @ ..] => match row_of(*op) {
            Some(row) => with_shape(pc, *op, rest, row.operands),
            None => Err(CodeError::OutsideTable { pc, op: *op }),
        },
    }
}

fn with_shape(pc: u32, op: u8, rest: &[u8], shape: Operands) -> Result<Inst, CodeError>
    ensures row { result ≡ with_shape pc op rest.now shape }
    ensures within { IfOk result (λ i. (0 < i.size) × (i.size ≤ 1 + length rest.now)) }
{
    match shape {
        Operands::Wide => behind_wide(pc, rest),
        _ => with_operands(pc, op, false, operands_in(shape, rest)),
    }
}

fn behind_wide(pc: u32, bytes: &[u8]) -> Result<Inst, CodeError>
    ensures row { result ≡ behind_wide pc bytes.now }
    ensures within { IfOk result (λ i. (0 < i.size) × (i.size ≤ 1 + length bytes.now)) }
{
    match bytes {
        [] => Err(CodeError::Cut { pc }),
        [op, rest @ ..] => match wide_row_of(*op) {
            Some(row) => with_operands(pc, *op, true, operands_in(row.operands, rest)),
            None => Err(CodeError::OutsideTable { pc, op: *op }),
        },
    }
}

fn with_operands(pc: u32, op: u8, wide: bool, values: Option<Values>) -> Result<Inst, CodeError>
    requires { ForSome values (λ v. v.count ≤ 4) }
    ensures row { result ≡ with_operands pc op wide (if wide then 2 else 1) values }
    ensures size { IfOk result (λ i. IfSome values (λ v. i.size ≡ (if wide then 2 else 1) + v.count)) }
{
    let Some(values) = values else {
        return Err(CodeError::Cut { pc });
    };
    let before = if wide { 2 } else { 1 };
    Ok(Inst {
        op,
        wide,
        first: values.first,
        second: values.second,
        size: before + values.count,
    })
}
