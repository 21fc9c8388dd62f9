//! Replacements one after another, worked out by hand.

use merge_table::MergeTable;
use std::process::Abort;
use std::test::Fail;

/// Has `keep` stand for what `gone` stood for, where both are retained by themselves.
fn merge(rt: &impl Abort, table: &mut MergeTable, keep: u32, gone: u32) {
    assert!(rt; keep < gone && gone < table.len());
    assert!(rt; table.retained(keep) == keep && table.retained(gone) == gone);
    table.replace(keep, gone);
}

/// What retains each node.
fn check(rt: &impl Abort, table: &MergeTable, wanted: &[u32]) {
    for (i, want) in wanted.iter().enumerate() {
        assert!(rt; i < table.len() as usize);
        assert_eq!(rt; table.retained(i as u32), *want, "node {i}");
    }
}

#[test]
fn a_chain_of_replacements(rt: HostRuntime) -> Result<(), Fail> {
    let mut table = MergeTable::begin(rt.alloc(), 6)?;
    check(&rt, &table, &[0, 1, 2, 3, 4, 5]);
    merge(&rt, &mut table, 3, 5);
    check(&rt, &table, &[0, 1, 2, 3, 4, 3]);
    merge(&rt, &mut table, 2, 3);
    check(&rt, &table, &[0, 1, 2, 2, 4, 2]);
    merge(&rt, &mut table, 0, 4);
    merge(&rt, &mut table, 0, 2);
    check(&rt, &table, &[0, 1, 0, 0, 0, 0]);
    assert!(rt; table.len() == 6 && table.retained(0) == 0 && table.retained(1) == 1);
    assert_eq!(rt; table.members(0), 5);
    assert_eq!(rt; table.members(1), 1);
    assert_eq!(rt; table.members(2), 0);
    Ok(())
}
