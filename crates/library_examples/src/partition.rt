use candidate_classes::Classes;
use std::test::Fail;

/// Whether each node has the leader that stands at its place.
fn has_leaders(classes: &Classes, leaders: &[u32]) -> bool {
    if classes.len() as usize != leaders.len() {
        return false;
    }
    for k in 0..classes.len() {
        if classes.leader(k) != leaders[k as usize] {
            return false;
        }
    }
    true
}

#[test]
fn nodes_are_parted_by_their_values(rt: HostRuntime) -> Result<(), Fail> {
    let mut scratch = [9; 6];
    let mut classes = Classes::begin(rt.alloc(), &[8, 8, 1, 8, 1, 32])?;
    assert!(rt; has_leaders(&classes, &[0, 0, 2, 0, 2, 5]));
    assert_eq!(rt; classes.next_free(0), Some(1));
    assert_eq!(rt; classes.next_free(2), Some(3));
    assert_eq!(rt; classes.next_free(5), None);
    classes.split(&[7, 3, 1, 3, 1, 7], &mut scratch);
    assert!(rt; has_leaders(&classes, &[0, 1, 2, 1, 2, 5]));
    assert_eq!(rt; classes.next_free(0), Some(3));
    classes.split(&[0, 0, 0, 0, 1, 0], &mut scratch);
    assert!(rt; has_leaders(&classes, &[0, 1, 2, 1, 4, 5]));
    classes.split(&[0, 4, 0, 5, 0, 0], &mut scratch);
    assert!(rt; has_leaders(&classes, &[0, 1, 2, 3, 4, 5]));
    assert_eq!(rt; classes.next_free(0), None);
    Ok(())
}

#[test]
fn a_class_is_split_by_its_first_bit_or_its_last(rt: HostRuntime) -> Result<(), Fail> {
    let mut scratch = [0; 5];
    let mut classes = Classes::begin(rt.alloc(), &[64, 64, 64, 64, 64])?;
    classes.split(&[0, 1 << 63, 1, 1 << 63, 0], &mut scratch);
    assert!(rt; has_leaders(&classes, &[0, 1, 2, 1, 0]));
    Ok(())
}

#[test]
fn a_graph_of_no_nodes_has_no_classes(rt: HostRuntime) -> Result<(), Fail> {
    let mut classes = Classes::begin(rt.alloc(), &[])?;
    classes.split(&[], &mut []);
    assert_eq!(rt; classes.len(), 0);
    assert_eq!(rt; classes.next_free(0), None);
    Ok(())
}
