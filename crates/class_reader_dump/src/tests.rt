use reading::{check, offset};

/// The two steps of a reader that class_reader takes from the crate below.
#[test]
fn checks_and_offsets(rt: HostRuntime) {
    assert_eq!(rt; check(true, 7u8), Ok(()));
    assert_eq!(rt; check(false, 7u8), Err(7u8));
    let file = b"class";
    for (from, at) in [(0usize, 0u32), (2, 2), (5, 5)] {
        let (_front, rest) = file.split_at(from);
        assert_eq!(rt; offset(5, rest), at, "from {from}");
    }
}
