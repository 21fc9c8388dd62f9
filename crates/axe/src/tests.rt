use axe_io::{MemorySink, MemoryStore, OpenGate, Stored};
use decide::{Status, run};
use memory::Memory;
use std::alloc::Global;
use std::marker::Sync;
use std::sync::Wait;
use std::test::Fail;
use std::thread::Threads;

/// Adds a Utf8 entry of a constant pool.
pub(crate) fn push_text(out: &mut Vec<u8>, text: &[u8]) -> Result<(), Memory> {
    out.push(1)?;
    out.push(0)?;
    out.push((text.len() % 256) as u8)?;
    out.extend_from_slice(text)?;
    Ok(())
}

/// Adds a static method `f` with Code of two operands and two local variables.
fn push_method(out: &mut Vec<u8>, code: &[u8]) -> Result<(), Memory> {
    let length = (code.len() % 200) as u8;
    out.extend_from_slice(&[0, 9, 0, 5, 0, 6, 0, 1, 0, 7, 0, 0, 0, length + 12])?;
    out.extend_from_slice(&[0, 2, 0, 2, 0, 0, 0, length])?;
    out.extend_from_slice(code)?;
    out.extend_from_slice(&[0, 0, 0, 0])?;
    Ok(())
}

/// A class `X` with so many equal methods `f` of a descriptor.
fn class(alloc: Global, desc: &[u8], codes: &[&[u8]]) -> Result<Vec<u8>, Memory> {
    let mut out = Vec::from_slice(alloc, &[0xca, 0xfe, 0xba, 0xbe, 0, 0, 0, 0x34, 0, 8])?;
    push_text(&mut out, b"X")?;
    out.extend_from_slice(&[7, 0, 1])?;
    push_text(&mut out, b"java/lang/Object")?;
    out.extend_from_slice(&[7, 0, 3])?;
    push_text(&mut out, b"f")?;
    push_text(&mut out, desc)?;
    push_text(&mut out, b"Code")?;
    out.extend_from_slice(&[
        0,
        0x21,
        0,
        2,
        0,
        4,
        0,
        0,
        0,
        0,
        0,
        (codes.len() % 256) as u8,
    ])?;
    for code in codes {
        push_method(&mut out, code)?;
    }
    out.extend_from_slice(&[0, 0])?;
    Ok(out)
}

/// `(byte)(x ^ y)` of two bytes.
const XOR: &[u8] = &[0x1a, 0x1b, 0x82, 0x91, 0xac];
/// `x + 1` of a byte.
const PLUS_ONE: &[u8] = &[0x1a, 0x10, 0x01, 0x60, 0xac];

/// What a run of words, which are separated by one space, ends with and writes.
pub(crate) fn outcome<R: Threads + Wait + Sync>(
    rt: &R,
    alloc: Global,
    words: &str,
    class: Vec<u8>,
    spec: &[u8],
    failing: (&[u64], usize, &[u64]),
) -> Result<(Status, Vec<u8>), Memory> {
    let mut list = Vec::new(alloc);
    for word in words.split(' ') {
        list.push(String::from_str(alloc, word)?)?;
    }
    let mut contents = Vec::new(alloc);
    contents.push(Stored {
        name: String::from_str(alloc, "C")?,
        bytes: class,
    })?;
    contents.push(Stored {
        name: String::from_str(alloc, "S")?,
        bytes: Vec::from_slice(alloc, spec)?,
    })?;
    let mut store = MemoryStore::new(contents, Vec::from_slice(alloc, failing.0)?);
    let mut sink = MemorySink::new(alloc, failing.1, Vec::from_slice(alloc, failing.2)?);
    let status = run(rt, alloc, &list, &mut store, &mut sink, &OpenGate);
    Ok((status, Vec::from_slice(alloc, sink.bytes())?))
}

#[test]
fn jobs_and_their_texts(rt: HostRuntime) -> Result<(), Fail> {
    let alloc = rt.alloc();
    let ample: (&[u64], usize, &[u64]) = (&[], 64, &[]);
    let xor: &[u8] = b"(defun f (x y) (bvxor 8 x y))";
    let plus_two: &[u8] = b"(defun f (x) (bvplus 32 x 2))";
    // The name of the case, its words, descriptor and code, specification, status and text.
    let cases: [(&str, &str, &[u8], &[u8], &[u8], Status, &str); 12] = [
        (
            "xor_of_two_bytes",
            "prove C f S f --cases 16",
            b"(BB)B",
            XOR,
            xor,
            Status::Equal,
            "equal: 16 bits of input\n",
        ),
        (
            "too_many_bits_to_try",
            "prove C f S f",
            b"(BB)B",
            XOR,
            xor,
            Status::Unknown,
            "unknown: cases 12\n",
        ),
        (
            "byte_plus_one",
            "prove C f S f",
            b"(B)I",
            PLUS_ONE,
            plus_two,
            Status::Different,
            "different\nin 0 = 00\nmethod = 00000001\nspec = 00000002\n",
        ),
        (
            "opcode_outside_the_profile",
            "prove C f S f",
            b"(B)I",
            &[0x1a, 11, 0x60, 0xac],
            plus_two,
            Status::Refused,
            "refused: instruction: opcode 11 in f(B)I at 1\nin 0 = 00\n",
        ),
        (
            "constant_seven",
            "prove C f S G",
            b"()I",
            &[0x10, 7, 0xac],
            b"(defun g () 7)",
            Status::Equal,
            "equal: 0 bits of input\n",
        ),
        (
            "byte_results_are_narrowed",
            "prove C f S f",
            b"(B)B",
            &[0x1a, 0xac],
            b"(defun f (x) (bvchop 7 x))",
            Status::Different,
            "different\nin 0 = 80\nmethod = 80\nspec = 00\n",
        ),
        (
            "too_deep_a_stack",
            "prove C f S f",
            b"(B)I",
            &[0x1a, 0x1a, 0x1a, 0xac],
            plus_two,
            Status::Refused,
            "refused: instruction: bad code in f(B)I at 2\nin 0 = 00\n",
        ),
        (
            "method_not_found",
            "prove C h S f",
            b"(BB)B",
            XOR,
            xor,
            Status::Refused,
            "refused: method: 0 found\n",
        ),
        (
            "another_descriptor",
            "prove C f S f --desc (I)I",
            b"(BB)B",
            XOR,
            xor,
            Status::Refused,
            "refused: method: 0 found\n",
        ),
        (
            "function_not_found",
            "prove C f S g --cases 16",
            b"(BB)B",
            XOR,
            xor,
            Status::Refused,
            "refused: function: not found\n",
        ),
        (
            "too_few_formals",
            "prove C f S f",
            b"(BB)B",
            XOR,
            plus_two,
            Status::Refused,
            "refused: shape: formals 1 parameters 2\n",
        ),
        (
            "width_of_65",
            "prove C f S f --cases 16",
            b"(BB)B",
            XOR,
            b"(defun f (x y) (bvxor 65 x y))",
            Status::Refused,
            "refused: form: bad width at 15\nin 0 = 00\nin 1 = 00\n",
        ),
    ];
    for (name, words, desc, code, spec, status, text) in cases {
        let class = class(alloc, desc, &[code])?;
        let (got, written) = outcome(&rt, alloc, words, class, spec, ample)?;
        assert_eq!(rt; written.as_slice(), text.as_bytes(), "at {name}");
        assert_eq!(rt; got, status, "at {name}");
    }
    Ok(())
}

#[test]
fn faulty_words_and_classes(rt: HostRuntime) -> Result<(), Fail> {
    let alloc = rt.alloc();
    let ample: (&[u64], usize, &[u64]) = (&[], 64, &[]);
    let spec: &[u8] = b"(defun f (x y) (bvxor 8 x y))";
    // Words, how many bytes of the class are kept, one byte that is changed, and the text.
    let cases: [(&str, usize, Option<(usize, u8)>, &str); 11] = [
        ("", 103, None, "refused: words: unknown command ''\n"),
        (
            "prov\\ C",
            103,
            None,
            "refused: words: unknown command 'prov\\5c'\n",
        ),
        (
            "prove C f S",
            103,
            None,
            "refused: words: not of this command's form\n",
        ),
        (
            "prove C f S f --cases 21",
            103,
            None,
            "refused: words: bad value of --cases\n",
        ),
        (
            "prove C f S f --sizes 4097",
            103,
            None,
            "refused: words: bad sizes at 0\n",
        ),
        (
            "prove C f S f",
            10,
            None,
            "refused: class: truncated at 10\n",
        ),
        (
            "prove C f S f",
            102,
            None,
            "refused: class: truncated at 102\n",
        ),
        (
            "prove C f S f",
            103,
            Some((7, 53)),
            "refused: class: bad version 53\n",
        ),
        (
            "prove C f S f",
            103,
            Some((61, 3)),
            "refused: class: bad index 3 at 60\n",
        ),
        (
            "prove C f S f",
            103,
            Some((16, 9)),
            "refused: class: bad index 9 at 15\n",
        ),
        (
            "prove C f S f",
            103,
            Some((91, 0)),
            "refused: class: bad length at 80\n",
        ),
    ];
    for (words, kept, changed, text) in cases {
        let mut class = class(alloc, b"(BB)B", &[XOR])?;
        class.truncate(kept);
        if let Some((at, byte)) = changed
            && at < class.len()
        {
            class[at] = byte;
        }
        let (status, written) = outcome(&rt, alloc, words, class, spec, ample)?;
        assert_eq!(rt; written.as_slice(), text.as_bytes(), "at {words}");
        assert_eq!(rt; status, Status::Refused, "at {words}");
    }
    let mut padded = class(alloc, b"(BB)B", &[XOR])?;
    padded.push(0)?;
    let (_, written) = outcome(&rt, alloc, "prove C f S f", padded, spec, ample)?;
    assert_eq!(rt;
        written.as_slice(),
        b"refused: class: trailing bytes at 103\n".as_slice()
    );
    let twice = class(alloc, b"(BB)B", &[XOR, XOR])?;
    let (_, written) = outcome(&rt, alloc, "prove C f S f", twice, spec, ample)?;
    assert_eq!(rt;
        written.as_slice(),
        b"refused: method: 2 found\n".as_slice()
    );
    Ok(())
}

#[test]
fn failing_store_and_sink(rt: HostRuntime) -> Result<(), Fail> {
    let alloc = rt.alloc();
    let spec: &[u8] = b"(defun f (x) (bvplus 32 x 2))";
    // Reads that fail, the sink's piece, writes that fail, the status and what is written.
    let cases: [(&[u64], usize, &[u64], Status, &str); 5] = [
        (&[], 8, &[2], Status::WriteFault, "differen"),
        (&[1], 64, &[], Status::ReadFault, ""),
        (&[2], 64, &[], Status::ReadFault, ""),
        (&[], 0, &[], Status::WriteFault, ""),
        (
            &[],
            1,
            &[],
            Status::Different,
            "different\nin 0 = 00\nmethod = 00000001\nspec = 00000002\n",
        ),
    ];
    for (reads, piece, writes, status, text) in cases {
        let class = class(alloc, b"(B)I", &[PLUS_ONE])?;
        let (got, written) = outcome(
            &rt,
            alloc,
            "prove C f S f",
            class,
            spec,
            (reads, piece, writes),
        )?;
        assert_eq!(rt; written.as_slice(), text.as_bytes());
        assert_eq!(rt; got, status);
    }
    let class = class(alloc, b"(B)I", &[PLUS_ONE])?;
    let (got, written) = outcome(&rt, alloc, "prove D f S f", class, spec, (&[], 64, &[]))?;
    assert_eq!(rt; written.len(), 0);
    assert_eq!(rt; got, Status::ReadFault, "nothing stands under D");
    Ok(())
}
