use cnf_clauses::{Formula, Lit, Rows};
use std::test::Fail;

#[test]
fn literals_are_packed(rt: HostRuntime) -> Result<(), Fail> {
    for (var, negated) in [(0, false), (0, true), (7, true), (0x7fff_ffff, true)] {
        let lit = Lit::new(var, negated);
        assert_eq!(rt; lit.var(), var);
        assert_eq!(rt; lit.is_negated(), negated);
        assert_eq!(rt; lit.opposite(), Lit::new(var, !negated));
        assert_eq!(rt; lit.code() % 2 == 1, negated);
    }
    Ok(())
}

#[test]
fn clauses_are_kept_in_order(rt: HostRuntime) -> Result<(), Fail> {
    let mut formula = Formula::begin(rt.alloc());
    let a = Lit::new(formula.fresh(), false);
    let b = Lit::new(formula.fresh(), false);
    assert_eq!(rt; formula.variables(), 2);
    assert_eq!(rt; formula.add(&[a, b])?.0, 0);
    assert_eq!(rt; formula.add(&[])?.0, 1);
    assert_eq!(rt; formula.add(&[b.opposite(), a, a])?.0, 2);
    assert_eq!(rt; formula.clauses(), 3);
    assert_eq!(rt; formula.clause(0), [a, b].as_slice());
    assert_eq!(rt; formula.clause(1).len(), 0);
    assert_eq!(rt; formula.clause(2), [b.opposite(), a, a].as_slice());
    Ok(())
}

#[test]
fn the_last_row_is_taken_away(rt: HostRuntime) -> Result<(), Fail> {
    let mut rows: Rows<u8> = Rows::new(rt.alloc());
    rows.push(&[1, 2])?;
    rows.push(&[3])?;
    rows.pop();
    rows.push(&[4, 5])?;
    assert_eq!(rt; rows.len(), 2);
    assert_eq!(rt; rows.row(0), [1, 2].as_slice());
    assert_eq!(rt; rows.row(1), [4, 5].as_slice());
    Ok(())
}
