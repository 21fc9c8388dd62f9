ghost use Rattle.std.specs.Prelude.{◌≡◌, ◌≤◌, length, pos, IfSome};
ghost use Rattle.jvm_code.specs.Instructions.{operands_in, values};
ghost use Rattle.jvm_code.specs.declared.table.Operands.TheVariants.{SignedByte, SignedShort, SignedInt, UnsignedByte, UnsignedShort, LocalAndByte, LocalAndShort, ConstantAndByte};

use crate::table::Operands;
use case_tables::each_case;

/// The operands of an instruction, 0 where there is none, and how many bytes they take.
#[derive(Clone, Copy, Debug, PartialEq, Eq)]
pub struct Values {
    pub first: i32,
    pub second: i32,
    pub count: u32,
}

/// The operands that the bytes behind an opcode begin with, none where the bytes end too early.
pub fn operands_in(shape: Operands, rest: &[u8]) -> Option<Values>
    ensures operands { result ≡ operands_in shape rest.now }
    ensures within { IfSome result (λ v. (v.count ≤ 4) × (v.count ≤ length rest.now)) }
{
    each_case!(shape;
        Operands::Nothing => one(0, 0),
        Operands::SignedByte => signed_byte(rest),
        Operands::SignedShort => signed_short(rest),
        Operands::SignedInt => signed_int(rest),
        Operands::UnsignedByte => unsigned_byte(rest),
        Operands::UnsignedShort => unsigned_short(rest),
        Operands::LocalAndByte => local_and_byte(rest),
        Operands::LocalAndShort => local_and_short(rest),
        Operands::ConstantAndByte => constant_and_byte(rest),
        Operands::Wide => None,
    )
}

fn one(first: i32, count: u32) -> Option<Values>
    ensures { result ≡ values first (pos 0) count }
{
    Some(Values {
        first,
        second: 0,
        count,
    })
}

fn signed_byte(rest: &[u8]) -> Option<Values>
    ensures operands { result ≡ operands_in SignedByte rest.now }
    ensures within { IfSome result (λ v. (v.count ≤ 4) × (v.count ≤ length rest.now)) }
{
    match rest {
        [a, ..] => one(i32::from(a.cast_signed()), 1),
        _ => None,
    }
}

fn signed_short(rest: &[u8]) -> Option<Values>
    ensures operands { result ≡ operands_in SignedShort rest.now }
    ensures within { IfSome result (λ v. (v.count ≤ 4) × (v.count ≤ length rest.now)) }
{
    match rest {
        [a, b, ..] => one(i32::from(i16::from_be_bytes([*a, *b])), 2),
        _ => None,
    }
}

fn signed_int(rest: &[u8]) -> Option<Values>
    ensures operands { result ≡ operands_in SignedInt rest.now }
    ensures within { IfSome result (λ v. (v.count ≤ 4) × (v.count ≤ length rest.now)) }
{
    match rest {
        [a, b, c, d, ..] => one(i32::from_be_bytes([*a, *b, *c, *d]), 4),
        _ => None,
    }
}

fn unsigned_byte(rest: &[u8]) -> Option<Values>
    ensures operands { result ≡ operands_in UnsignedByte rest.now }
    ensures within { IfSome result (λ v. (v.count ≤ 4) × (v.count ≤ length rest.now)) }
{
    match rest {
        [a, ..] => one(i32::from(*a), 1),
        _ => None,
    }
}

fn unsigned_short(rest: &[u8]) -> Option<Values>
    ensures operands { result ≡ operands_in UnsignedShort rest.now }
    ensures within { IfSome result (λ v. (v.count ≤ 4) × (v.count ≤ length rest.now)) }
{
    match rest {
        [a, b, ..] => one(i32::from(u16::from_be_bytes([*a, *b])), 2),
        _ => None,
    }
}

fn local_and_byte(rest: &[u8]) -> Option<Values>
    ensures operands { result ≡ operands_in LocalAndByte rest.now }
    ensures within { IfSome result (λ v. (v.count ≤ 4) × (v.count ≤ length rest.now)) }
{
    match rest {
        [a, b, ..] => Some(Values {
            first: i32::from(*a),
            second: i32::from(b.cast_signed()),
            count: 2,
        }),
        _ => None,
    }
}

fn local_and_short(rest: &[u8]) -> Option<Values>
    ensures operands { result ≡ operands_in LocalAndShort rest.now }
    ensures within { IfSome result (λ v. (v.count ≤ 4) × (v.count ≤ length rest.now)) }
{
    match rest {
        [a, b, c, d, ..] => Some(Values {
            first: i32::from(u16::from_be_bytes([*a, *b])),
            second: i32::from(i16::from_be_bytes([*c, *d])),
            count: 4,
        }),
        _ => None,
    }
}

fn constant_and_byte(rest: &[u8]) -> Option<Values>
    ensures operands { result ≡ operands_in ConstantAndByte rest.now }
    ensures within { IfSome result (λ v. (v.count ≤ 4) × (v.count ≤ length rest.now)) }
{
    match rest {
        [a, b, c, ..] => Some(Values {
            first: i32::from(u16::from_be_bytes([*a, *b])),
            second: i32::from(*c),
            count: 3,
        }),
        _ => None,
    }
}
