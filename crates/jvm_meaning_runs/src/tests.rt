//! Traces of two small methods.

use axe_io::{Budgets, Input, OutPlace};
use class_reader::read_class;
use jvm_run::{same_trace, shape_of};
use memory::Memory;
use std::alloc::Global;
use std::test::Fail;

/// A class `X` up to the code of its method `f(B)I`, but for the lengths that stand before it. Its initialiser only
/// returns.
const BEFORE: &[u8] = &[
    0xca, 0xfe, 0xba, 0xbe, 0, 0, 0, 52, 0, 10, 1, 0, 1, b'X', 7, 0, 1, 1, 0, 16, b'j', b'a', b'v',
    b'a', b'/', b'l', b'a', b'n', b'g', b'/', b'O', b'b', b'j', b'e', b'c', b't', 7, 0, 3, 1, 0, 8,
    b'<', b'c', b'l', b'i', b'n', b'i', b't', b'>', 1, 0, 3, b'(', b')', b'V', 1, 0, 1, b'f', 1, 0,
    4, b'(', b'B', b')', b'I', 1, 0, 4, b'C', b'o', b'd', b'e', 0, 0x21, 0, 2, 0, 4, 0, 0, 0, 0, 0,
    2, 0, 8, 0, 5, 0, 6, 0, 1, 0, 9, 0, 0, 0, 13, 0, 0, 0, 0, 0, 0, 0, 1, 0xb1, 0, 0, 0, 0, 0, 9,
    0, 7, 0, 8, 0, 1, 0, 9, 0, 0, 0,
];

/// `while (x > 0) x--; return x;`, four steps a round, two before the return's two.
const ROUNDS: &[u8] = &[
    0x1a, 0x9e, 0, 9, 0x84, 0, 0xff, 0xa7, 0xff, 0xf9, 0x1a, 0xac,
];

/// `return new byte[2][x];`, which throws at its fourth step where x isn't 0 or 1.
const ELEMENT: &[u8] = &[5, 0xbc, 8, 0x1a, 0x33, 0xac];

fn class_with(alloc: Global, code: &[u8]) -> Result<Vec<u8>, Memory> {
    let length = (code.len() % 200) as u8;
    let mut bytes = Vec::from_slice(alloc, BEFORE)?;
    bytes.extend_from_slice(&[length + 12, 0, 2, 0, 1, 0, 0, 0, length])?;
    bytes.extend_from_slice(code)?;
    bytes.extend_from_slice(&[0, 0, 0, 0, 0, 0])?;
    Ok(bytes)
}

fn input(alloc: Global, leaf: u64) -> Result<Input, Memory> {
    Ok(Input::of(Vec::from_slice(alloc, &[leaf])?))
}

/// Whether the runs of `f` on two bytes have one trace; None where the bytes aren't a class with an `f`.
fn alike(
    alloc: Global,
    code: &[u8],
    leaves: (u64, u64),
    steps: u64,
) -> Result<Option<bool>, Memory> {
    let bytes = class_with(alloc, code)?;
    if bytes.len() > 1_048_576 {
        return Ok(None);
    }
    let Ok(class) = read_class(alloc, bytes.as_slice()) else {
        return Ok(None);
    };
    let Some(method) = class.find(b"f", None).first else {
        return Ok(None);
    };
    let Ok(shape) = shape_of(alloc, &class, method, &[], OutPlace::Returned) else {
        return Ok(None);
    };
    let (a, b) = (input(alloc, leaves.0)?, input(alloc, leaves.1)?);
    let budgets = Budgets {
        steps,
        ..Budgets::defaults()
    };
    let same = same_trace(alloc, &class, method, &shape, &a, &b, &budgets)?;
    Ok(Some(same))
}

/// Each row is a code, two bytes, a number of steps, of which the initialiser makes one, and whether the traces are
/// the same.
#[test]
fn traces_of_two_runs(rt: HostRuntime) -> Result<(), Fail> {
    let rows = [
        (ROUNDS, (0, 0xff), 1_000, true),
        (ROUNDS, (3, 3), 1_000, true),
        (ROUNDS, (0, 1), 3, true),
        (ROUNDS, (0, 1), 4, false),
        (ROUNDS, (3, 100), 15, true),
        (ROUNDS, (3, 100), 16, false),
        (ELEMENT, (0, 1), 1_000, true),
        (ELEMENT, (2, 0x80), 1_000, true),
        (ELEMENT, (1, 2), 5, true),
        (ELEMENT, (1, 2), 6, false),
        (ELEMENT, (2, 1), 6, false),
    ];
    for (code, leaves, steps, same) in rows {
        let got = alike(rt.alloc(), code, leaves, steps)?;
        assert_eq!(rt; got, Some(same), "{leaves:?} within {steps}");
    }
    Ok(())
}
