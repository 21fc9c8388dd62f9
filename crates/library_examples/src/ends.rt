ghost use Rattle.axe_io.specs.Shapes.{leaf_widths};
ghost use Rattle.axe_io.specs.Inputs.{IsInput};

use axe_io::{
    Budgets, FileStore, Gate, Input, Kind, MemorySink, MemoryStore, OpenGate, OutPlace, OutputSink,
    Param, Point, Shape, Sink, SinkError, Store, StoreError, Stored, WriteEnd, write_all,
};
use memory::Memory;
use std::alloc::Global;
use std::test::Fail;

fn stored(alloc: Global, name: &str, bytes: &[u8]) -> Result<Stored, Memory> {
    Ok(Stored {
        name: String::from_str(alloc, name)?,
        bytes: Vec::from_slice(alloc, bytes)?,
    })
}

#[test]
fn a_store_in_memory(rt: HostRuntime) -> Result<(), Fail> {
    let alloc = rt.alloc();
    let mut contents = Vec::new(alloc);
    contents.push(stored(alloc, "a", b"first")?)?;
    contents.push(stored(alloc, "a", b"second")?)?;
    let mut store = MemoryStore::new(contents, Vec::from_slice(alloc, &[3])?);
    let bytes = store.read(alloc, "a", 5)?;
    assert_eq!(rt; bytes.as_slice(), b"first".as_slice());
    let long = store.read(alloc, "a", 4).err();
    assert_eq!(rt; long, Some(StoreError::TooLong { limit: 4 }));
    assert_eq!(rt;
        store.read(alloc, "a", 5).err(),
        Some(StoreError::Failed),
        "the third read"
    );
    assert_eq!(rt;
        store.read(alloc, "b", 5).err(),
        Some(StoreError::Failed),
        "no such name"
    );
    Ok(())
}

#[test]
fn sinks_in_memory(rt: HostRuntime) -> Result<(), Fail> {
    let alloc = rt.alloc();
    let mut short = MemorySink::new(alloc, 2, Vec::new(alloc));
    assert_eq!(rt; write_all(&mut short, b"abcde").is_ok(), true);
    assert_eq!(rt; short.bytes(), b"abcde".as_slice());
    let mut refusing = MemorySink::new(alloc, 2, Vec::from_slice(alloc, &[2])?);
    let end = write_all(&mut refusing, b"abcde").err();
    assert_eq!(rt; end, Some(WriteEnd::Failed { written: 2 }));
    assert_eq!(rt; refusing.bytes(), b"ab".as_slice());
    assert_eq!(rt; refusing.write(b"c").ok(), Some(1));
    let mut closed = MemorySink::new(alloc, 0, Vec::new(alloc));
    let end = write_all(&mut closed, b"abcde").err();
    assert_eq!(rt; end, Some(WriteEnd::TookNothing { written: 0 }));
    assert_eq!(rt; SinkError::Failed == SinkError::Failed, true);
    Ok(())
}

#[test]
fn real_ends(rt: HostRuntime) -> Result<(), Fail> {
    let alloc = rt.alloc();
    let mut files = FileStore::new(&rt);
    let missing = files.read(alloc, "no such file", 8).err();
    assert_eq!(rt; missing, Some(StoreError::Failed));
    let mut out = OutputSink::new(&rt);
    assert_eq!(rt; write_all(&mut out, b"to standard output\n").is_ok(), true);
    OpenGate.at(1, Point::Claimed);
    Ok(())
}

#[test]
fn shapes_and_their_leaves(rt: HostRuntime) -> Result<(), Fail> {
    let alloc = rt.alloc();
    let shape = small(alloc)?;
    assert_eq!(rt; shape.leaves(), 2);
    assert_eq!(rt; shape.bits(), 16);
    assert_eq!(rt; shape.width_at(1), Some(8));
    assert_eq!(rt; shape.width_at(2), None);
    assert_eq!(rt; shape.params().len(), 1);
    assert_eq!(rt; shape.out(), OutPlace::Param(0));
    assert_eq!(rt; shape.kind(), Kind::Byte);
    assert_eq!(rt; shape.is_array(), true);
    let mixed = mixed(alloc)?;
    assert_eq!(rt; mixed.leaves(), 4);
    assert_eq!(rt; mixed.bits(), 104);
    assert_eq!(rt;
        [mixed.width_at(0), mixed.width_at(2), mixed.width_at(3)],
        [Some(8), Some(16), Some(64)]
    );
    Ok(())
}

/// A byte, an array of two chars and a long.
fn mixed(alloc: Global) -> Result<Shape, Memory> {
    let byte = Param {
        kind: Kind::Byte,
        len: None,
    };
    let chars = Param {
        kind: Kind::Char,
        len: Some(2),
    };
    let long = Param {
        kind: Kind::Long,
        len: None,
    };
    let params = Vec::from_slice(alloc, &[byte, chars, long])?;
    Ok(Shape::of(params, OutPlace::Returned, Kind::Long, false))
}

/// An array of two bytes, which is observed.
fn small(alloc: Global) -> Result<Shape, Memory> {
    let param = Param {
        kind: Kind::Byte,
        len: Some(2),
    };
    let params = Vec::from_slice(alloc, &[param])?;
    Ok(Shape::of(params, OutPlace::Param(0), Kind::Byte, true))
}

/// How many inputs come from this one on, with the one after 256 turns.
fn count_inputs(alloc: Global, shape: &Shape, input: &mut Input) -> Result<(u32, Input), Memory>
    requires { IsInput (leaf_widths shape.now.params) input.old }
{
    let mut count = 0;
    let mut carried = Input::first(alloc, shape)?;
    for turn in 0..100_000u32 {
        count = turn + 1;
        if turn == 256 {
            carried = input.copy(alloc)?;
        }
        if !input.next(shape) {
            break;
        }
    }
    Ok((count, carried))
}

#[test]
fn counting_order(rt: HostRuntime) -> Result<(), Fail> {
    let alloc = rt.alloc();
    let shape = small(alloc)?;
    let mut input = Input::first(alloc, &shape)?;
    let (count, carried) = count_inputs(alloc, &shape, &mut input)?;
    assert_eq!(rt; count, 65_536);
    assert_eq!(rt; carried.leaves(), [1, 0].as_slice(), "after 0, 255");
    assert_eq!(rt;
        input.leaves(),
        [255, 255].as_slice(),
        "the last input stays"
    );
    let of = Input::of(Vec::from_slice(alloc, &[7, 9])?);
    assert_eq!(rt; of.leaves(), [7, 9].as_slice());
    assert_eq!(rt; Budgets::defaults().cases, 12);
    Ok(())
}
