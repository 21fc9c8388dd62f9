//! Jobs whose classes have fields, several methods, loops, throws and handlers, and whose specifications use more of
//! the language.

use crate::tests::{outcome, push_text};
use decide::Status;
use memory::Memory;
use std::alloc::Global;
use std::test::Fail;

/// A method: the numbers of its name and descriptor, its code, and its exception rows with their number before them.
#[derive(Clone, Copy)]
struct Body<'a> {
    name: u8,
    desc: u8,
    code: &'a [u8],
    rows: &'a [u8],
}

/// No exception rows.
const NO_ROWS: &[u8] = &[0, 0];

/// A method `f` without exception rows.
fn plain(code: &[u8]) -> Body<'_> {
    Body {
        name: 5,
        desc: 6,
        code,
        rows: NO_ROWS,
    }
}

/// Adds a static method with Code of four operands and two local variables.
fn push_body(out: &mut Vec<u8>, body: Body<'_>) -> Result<(), Memory> {
    let length = (body.code.len() % 200) as u8;
    let rows = (body.rows.len() % 20) as u8;
    out.extend_from_slice(&[0, 9, 0, body.name, 0, body.desc, 0, 1, 0, 7])?;
    out.extend_from_slice(&[0, 0, 0, length + rows + 10, 0, 4, 0, 2, 0, 0, 0, length])?;
    out.extend_from_slice(body.code)?;
    out.extend_from_slice(body.rows)?;
    out.extend_from_slice(&[0, 0])?;
    Ok(())
}

/// A class `X` whose pool has the numbers 1 `X`, 2 its Class, 3 and 4 `java/lang/Object`, 5 `f`, 6 a descriptor,
/// 7 `Code`, and the given entries from 8 on; with fields, whose number stands before them, and methods.
fn class(
    alloc: Global,
    desc: &[u8],
    entries: (u8, &[u8]),
    fields: &[u8],
    bodies: &[Body<'_>],
) -> Result<Vec<u8>, Memory> {
    let count = (entries.0 % 100) + 8;
    let mut out = Vec::from_slice(alloc, &[0xca, 0xfe, 0xba, 0xbe, 0, 0, 0, 0x34, 0, count])?;
    push_text(&mut out, b"X")?;
    out.extend_from_slice(&[7, 0, 1])?;
    push_text(&mut out, b"java/lang/Object")?;
    out.extend_from_slice(&[7, 0, 3])?;
    push_text(&mut out, b"f")?;
    push_text(&mut out, desc)?;
    push_text(&mut out, b"Code")?;
    out.extend_from_slice(entries.1)?;
    out.extend_from_slice(&[0, 0x21, 0, 2, 0, 4, 0, 0])?;
    out.extend_from_slice(fields)?;
    out.extend_from_slice(&[0, (bodies.len() % 256) as u8])?;
    for body in bodies {
        push_body(&mut out, *body)?;
    }
    out.extend_from_slice(&[0, 0])?;
    Ok(out)
}

/// A class of one method.
fn simple(alloc: Global, desc: &[u8], code: &[u8]) -> Result<Vec<u8>, Memory> {
    class(alloc, desc, (0, &[]), &[0, 0], &[plain(code)])
}

/// The entries 8 `T`, 9 `[B`, 10 and 11 the field T, 12 `<clinit>` and 13 `()V`.
const TABLE_ENTRIES: &[u8] = &[
    1, 0, 1, b'T', 1, 0, 2, b'[', b'B', 12, 0, 8, 0, 9, 9, 0, 2, 0, 10, 1, 0, 8, b'<', b'c', b'l',
    b'i', b'n', b'i', b't', b'>', 1, 0, 3, b'(', b')', b'V',
];

/// A class with a byte array T of a length, which the initialiser fills with the numbers of its places, each with
/// the bits of 99 turned, and a method `f` that looks up a byte.
fn table(alloc: Global, high: u8, low: u8) -> Result<Vec<u8>, Memory> {
    let fill = [
        0x11, high, low, 0xbc, 8, 0x4b, 0x2a, 0xb3, 0, 11, 3, 0x3c, 0x1b, 0x11, high, low, 0xa2, 0,
        16, 0x2a, 0x1b, 0x1b, 0x10, 99, 0x82, 0x54, 0x84, 1, 1, 0xa7, 0xff, 0xef, 0xb1,
    ];
    let look_up = [0xb2, 0, 11, 0x1a, 0x11, 0, 0xff, 0x7e, 0x33, 0xac];
    let initialiser = Body {
        name: 12,
        desc: 13,
        code: &fill,
        rows: NO_ROWS,
    };
    class(
        alloc,
        b"(B)B",
        (6, TABLE_ENTRIES),
        &[0, 1, 0, 8, 0, 8, 0, 9, 0, 0],
        &[initialiser, plain(&look_up)],
    )
}

#[test]
fn table_lookup_and_short_table(rt: HostRuntime) -> Result<(), Fail> {
    let alloc = rt.alloc();
    let spec: &[u8] = b"(defun f (x) (bvxor 8 x 99))";
    let cases = [
        (1u8, 0u8, Status::Equal, "equal: 8 bits of input\n"),
        (
            0,
            255,
            Status::Different,
            "different\nin 0 = ff\nmethod threw java.lang.ArrayIndexOutOfBoundsException in f(B)B at 8\nspec = 9c\n",
        ),
    ];
    for (high, low, status, text) in cases {
        let class = table(alloc, high, low)?;
        let (got, written) = outcome(&rt, alloc, "prove C f S f", class, spec, (&[], 64, &[]))?;
        assert_eq!(rt; written.as_slice(), text.as_bytes());
        assert_eq!(rt; got, status);
    }
    Ok(())
}

#[test]
fn initialiser_threw(rt: HostRuntime) -> Result<(), Fail> {
    let alloc = rt.alloc();
    let initialiser = Body {
        name: 12,
        desc: 13,
        code: &[1, 0xbe, 0x57, 0xb1],
        rows: NO_ROWS,
    };
    let class = class(
        alloc,
        b"()I",
        (6, TABLE_ENTRIES),
        &[0, 0],
        &[plain(&[3, 0xac]), initialiser],
    )?;
    let (got, written) = outcome(
        &rt,
        alloc,
        "prove C f S f",
        class,
        b"(defun f () 0)",
        (&[], 64, &[]),
    )?;
    assert_eq!(rt;
        written.as_slice(),
        b"refused: instruction: initialiser threw java.lang.NullPointerException in <clinit>()V at 1\n".as_slice()
    );
    assert_eq!(rt; got, Status::Refused);
    Ok(())
}

/// `aconst_null, iconst_0, iaload, ireturn`.
const NULL_ARRAY: &[u8] = &[1, 3, 0x2e, 0xac];

#[test]
fn handler_and_null(rt: HostRuntime) -> Result<(), Fail> {
    let alloc = rt.alloc();
    let cases: [(&[u8], Status, &str); 2] = [
        (
            &[0, 1, 0, 0, 0, 3, 0, 3, 0, 0],
            Status::Refused,
            "refused: instruction: handler in f()I at 2\n",
        ),
        (
            NO_ROWS,
            Status::Different,
            "different\nmethod threw java.lang.NullPointerException in f()I at 2\nspec = 00000000\n",
        ),
    ];
    for (rows, status, text) in cases {
        let body = Body {
            name: 5,
            desc: 6,
            code: NULL_ARRAY,
            rows,
        };
        let class = class(alloc, b"()I", (0, &[]), &[0, 0], &[body])?;
        let (got, written) = outcome(
            &rt,
            alloc,
            "prove C f S f",
            class,
            b"(defun f () 0)",
            (&[], 64, &[]),
        )?;
        assert_eq!(rt; written.as_slice(), text.as_bytes());
        assert_eq!(rt; got, status);
    }
    Ok(())
}

/// The entries 8 a NameAndType of `f` and 9 its Methodref.
const OWN_METHOD: &[u8] = &[12, 0, 5, 0, 6, 10, 0, 2, 0, 8];

#[test]
fn frames_elements_depth(rt: HostRuntime) -> Result<(), Fail> {
    let alloc = rt.alloc();
    let itself = class(
        alloc,
        b"(B)I",
        (2, OWN_METHOD),
        &[0, 0],
        &[plain(&[0x1a, 0xb8, 0, 9, 0xac])],
    )?;
    let arrays = simple(
        alloc,
        b"()I",
        &[
            0x11, 1, 0, 0x11, 1, 0, 0x68, 0xbc, 10, 0x57, 4, 0xbc, 10, 0xbe, 0xac,
        ],
    )?;
    let byte = simple(alloc, b"(B)B", &[0x1a, 0xac])?;
    let goto = simple(alloc, b"()I", &[0xa7, 0, 0])?;
    let zero: &[u8] = b"(defun f () 0)";
    let cases = [
        (
            "frames",
            "prove C f S f",
            itself,
            b"(defun f (x) 0)".as_slice(),
            "unknown: frames 64\nin 0 = 00\n",
        ),
        (
            "elements",
            "prove C f S f",
            arrays,
            zero,
            "unknown: elements 65536\n",
        ),
        (
            "depth",
            "prove C f S f",
            byte,
            b"(defun f (x) (f x))",
            "unknown: depth 2000\nin 0 = 00\n",
        ),
        (
            "endless_goto",
            "prove C f S f",
            goto,
            zero,
            "unknown: steps 200000\n",
        ),
    ];
    for (name, words, class, spec, text) in cases {
        let (got, written) = outcome(&rt, alloc, words, class, spec, (&[], 64, &[]))?;
        assert_eq!(rt; written.as_slice(), text.as_bytes(), "at {name}");
        assert_eq!(rt; got, Status::Unknown, "at {name}");
    }
    Ok(())
}

#[test]
fn budgets_and_shapes_of_words(rt: HostRuntime) -> Result<(), Fail> {
    let alloc = rt.alloc();
    let one: &[u8] = b"(defun f (x) x)";
    // Words, descriptor, code, specification, status and text.
    let cases: [(&str, &[u8], &[u8], &[u8], Status, &str); 14] = [
        (
            "prove C f S f --sizes 4",
            b"(B)B",
            &[0x1a, 0xac],
            one,
            Status::Refused,
            "refused: shape: sizes wanted 0 given 1\n",
        ),
        (
            "prove C f S f --out 0",
            b"(B)B",
            &[0x1a, 0xac],
            one,
            Status::Refused,
            "refused: shape: out\n",
        ),
        (
            "prove C f S f",
            b"(F)B",
            &[3, 0xac],
            one,
            Status::Refused,
            "refused: shape: type at 1\n",
        ),
        (
            "prove C f S f --steps 1",
            b"(B)B",
            &[0x1a, 0xac],
            one,
            Status::Unknown,
            "unknown: steps 1\nin 0 = 00\n",
        ),
        (
            "prove C f S f --sizes 1",
            b"([B)I",
            &[0x2a, 0xbe, 0xac],
            b"(defun f (x) (bvplus 8 x 1))",
            Status::Refused,
            "refused: form: not a number at 13\nin 0 = [00]\n",
        ),
        (
            "prove C f S f --sizes 1 --out 0",
            b"([B)V",
            &[0x2a, 3, 0x2a, 3, 0x33, 4, 0x60, 0x54, 0xb1],
            b"(defun f (a) (list (bvplus 8 (car a) 1)))",
            Status::Equal,
            "equal: 8 bits of input\n",
        ),
        (
            "prove C f S f --sizes 1",
            b"([B)[B",
            &[0x2a, 0xb0],
            b"(defun f (a) (list (bvxor 8 (car a) 1)))",
            Status::Different,
            "different\nin 0 = [00]\nmethod = [00]\nspec = [01]\n",
        ),
        (
            "prove C f S f",
            b"(B)[B",
            &[1, 0xb0],
            b"(defun f (x) (list x))",
            Status::Different,
            "different\nin 0 = 00\nmethod = null\nspec = [00]\n",
        ),
        (
            "prove C f S f",
            b"(B)I",
            &[0x1a, 0xac],
            b"(defun f (x) (bvsx 32 8 x))",
            Status::Equal,
            "equal: 8 bits of input\n",
        ),
        (
            "prove C f S f",
            b"(B)B",
            &[0x1a, 0x11, 1, 0, 0x60, 0xac],
            one,
            Status::Equal,
            "equal: 8 bits of input\n",
        ),
        (
            "prove C f S f",
            b"(B)B",
            &[0x1a, 0xac],
            b"(defun f (x) (bvplus 0 x 1))",
            Status::Refused,
            "refused: form: bad width at 13\nin 0 = 00\n",
        ),
        (
            "prove C f S f --cases 16",
            b"(C)I",
            &[0x1a, 0x11, 0x7f, 0, 0x82, 0xac],
            b"(in-package \"ACL2\")\n#| mixing |#\n(DEFUN F (X) ; one word\n  (declare (xargs :guard (natp x)))\n  (BVXOR 32 x #x7f00))\n",
            Status::Equal,
            "equal: 16 bits of input\n",
        ),
        (
            "prove C f S f --depth 1",
            b"(B)I",
            &[3, 0xac],
            b"(defun f (x) (bvplus 32 (bvminus 32 x x) 0))",
            Status::Unknown,
            "unknown: depth 1\nin 0 = 00\n",
        ),
        (
            "prove C f S f --work 3",
            b"(B)I",
            &[3, 0xac],
            b"(defun f (x) (bvminus 32 x x))",
            Status::Unknown,
            "unknown: work 3\n",
        ),
    ];
    for (words, desc, code, spec, status, text) in cases {
        let class = simple(alloc, desc, code)?;
        let (got, written) = outcome(&rt, alloc, words, class, spec, (&[], 64, &[]))?;
        assert_eq!(rt; written.as_slice(), text.as_bytes(), "at {words}");
        assert_eq!(rt; got, status, "at {words}");
    }
    Ok(())
}

#[test]
fn faulty_specifications(rt: HostRuntime) -> Result<(), Fail> {
    let alloc = rt.alloc();
    let cases = [
        ("(defun f (x) {)", "refused: spec: bad token at 13\n"),
        ("(defun f (x) (bvnot 8 x)", "refused: spec: unclosed at 0\n"),
        ("(defun f (x) (bvnot 8))", "refused: spec: bad form at 13\n"),
        ("(defun f (x) y)", "refused: spec: unbound name at 13\n"),
        ("(defun f (x x) x)", "refused: spec: duplicate at 0\n"),
    ];
    for (spec, text) in cases {
        let class = simple(alloc, b"(B)B", &[0x1a, 0xac])?;
        let (got, written) = outcome(
            &rt,
            alloc,
            "prove C f S f",
            class,
            spec.as_bytes(),
            (&[], 64, &[]),
        )?;
        assert_eq!(rt; written.as_slice(), text.as_bytes(), "at {spec}");
        assert_eq!(rt; got, Status::Refused, "at {spec}");
    }
    Ok(())
}
