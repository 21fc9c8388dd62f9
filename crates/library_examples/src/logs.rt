use clause_log::{Log, LogError};
use cnf_clauses::formula::Formula;
use cnf_clauses::lit::{ClauseId, Lit};
use std::test::Fail;

#[test]
fn a_line_and_a_missing_clause(rt: HostRuntime) -> Result<(), Fail> {
    let mut formula = Formula::begin(rt.alloc());
    let a = Lit::new(formula.fresh(), false);
    let b = Lit::new(formula.fresh(), false);
    formula.add(&[a, b])?;
    formula.add(&[a, b.opposite()])?;
    let mut log = Log::begin(rt.alloc(), formula)?;
    let id = log.line(ClauseId(0), &[(ClauseId(1), b)])?;
    assert_eq!(rt; id, ClauseId(2));
    assert_eq!(rt; log.clause(id), [a].as_slice());
    assert_eq!(rt;
        log.line(ClauseId(0), &[(ClauseId(9), b)]),
        Err(LogError::NoSuchClause { id: 9 })
    );
    assert_eq!(rt; log.lines(), 1);
    assert_eq!(rt; log.refutes(), false);
    Ok(())
}

#[test]
fn lines_are_kept_with_their_steps(rt: HostRuntime) -> Result<(), Fail> {
    let mut formula = Formula::begin(rt.alloc());
    let a = Lit::new(formula.fresh(), false);
    let b = Lit::new(formula.fresh(), false);
    formula.add(&[a, b, a])?;
    formula.add(&[a, b.opposite()])?;
    formula.add(&[a.opposite()])?;
    let mut log = Log::begin(rt.alloc(), formula)?;
    assert_eq!(rt; log.formula().variables(), 2);
    let copy = log.line(ClauseId(0), &[])?;
    assert_eq!(rt; log.clause(copy), [a, b, a].as_slice());
    let once = log.line(ClauseId(0), &[(ClauseId(1), b)])?;
    assert_eq!(rt; log.clause(once), [a].as_slice());
    let empty = log.line(once, &[(ClauseId(2), a)])?;
    assert_eq!(rt; log.clause(empty).len(), 0);
    assert_eq!(rt; log.refutes(), true);
    assert_eq!(rt; log.lines(), 3);
    assert_eq!(rt; log.clauses(), 6);
    assert_eq!(rt; log.start_of(2), once);
    assert_eq!(rt; log.steps_of(2), [(ClauseId(2), a)].as_slice());
    Ok(())
}
