//! Instructions and rows of the opcode table, by the JVM Specification's chapter 6.

use jvm_code::{CodeError, Inst, Operands, decode, row_of, wide_row_of};

fn inst(op: u8, wide: bool, first: i32, second: i32, size: u32) -> Result<Inst, CodeError> {
    Ok(Inst {
        op,
        wide,
        first,
        second,
        size,
    })
}

/// Each row is a code, a place in it and what stands there, by the JVM Specification's chapter 6.
#[test]
fn instructions_and_refusals(rt: HostRuntime) {
    let cut = Err(CodeError::Cut { pc: 0 });
    let rows: [(&[u8], u32, Result<Inst, CodeError>); 27] = [
        (b"\x00", 0, inst(0, false, 0, 0, 1)),
        (b"\x00\xb1", 1, inst(177, false, 0, 0, 1)),
        (b"\x10\x80", 0, inst(16, false, -128, 0, 2)),
        (b"\x11\xff\x00", 0, inst(17, false, -256, 0, 3)),
        (b"\x12\xff", 0, inst(18, false, 255, 0, 2)),
        (b"\x14\x01\x02", 0, inst(20, false, 258, 0, 3)),
        (b"\x15\xff", 0, inst(21, false, 255, 0, 2)),
        (b"\x84\x03\xff", 0, inst(132, false, 3, -1, 3)),
        (b"\xa7\xff\xfd", 0, inst(167, false, -3, 0, 3)),
        (
            b"\xc8\x80\x00\x00\x00",
            0,
            inst(200, false, -2147483648, 0, 5),
        ),
        (b"\xbc\x0a", 0, inst(188, false, 10, 0, 2)),
        (b"\xb8\x80\x01", 0, inst(184, false, 32769, 0, 3)),
        (b"\xbd\x01\x02", 0, inst(189, false, 258, 0, 3)),
        (b"\xc5\x80\x01\xff", 0, inst(197, false, 32769, 255, 4)),
        (b"\xc4\x15\x80\x00", 0, inst(21, true, 32768, 0, 4)),
        (b"\xc4\x84\x01\x00\xff\xff", 0, inst(132, true, 256, -1, 6)),
        (b"", 0, Err(CodeError::OutOfCode { pc: 0 })),
        (b"\x00", 7, Err(CodeError::OutOfCode { pc: 7 })),
        (b"\x0b", 0, Err(CodeError::OutsideTable { pc: 0, op: 11 })),
        (
            b"\x00\xba\x00\x00",
            1,
            Err(CodeError::OutsideTable { pc: 1, op: 186 }),
        ),
        (
            b"\xc4\x00",
            0,
            Err(CodeError::OutsideTable { pc: 0, op: 0 }),
        ),
        (
            b"\xc4\xc4",
            0,
            Err(CodeError::OutsideTable { pc: 0, op: 196 }),
        ),
        (b"\xc4", 0, cut),
        (b"\xc4\x84\x00\x01\x02", 0, cut),
        (b"\x10", 0, cut),
        (b"\xc8\x00\x00\x00", 0, cut),
        (b"\xc5\x00\x01", 0, cut),
    ];
    for (code, pc, want) in rows {
        assert_eq!(rt; decode(code, pc), want);
    }
}

#[test]
fn rows_of_opcodes(rt: HostRuntime) {
    let shape = row_of(132).map(|row| row.operands);
    assert_eq!(rt; shape, Some(Operands::LocalAndByte));
    let shape = wide_row_of(132).map(|row| row.operands);
    assert_eq!(rt; shape, Some(Operands::LocalAndShort));
    let mut rows = 0u32;
    for op in 0..256u32 {
        if row_of((op % 256) as u8).is_some() {
            rows = rows.wrapping_add(1);
        }
    }
    assert_eq!(rt; rows, 128);
}
