use clause_search::{Found, search};
use cnf_clauses::{Formula, Lit};
use memory::Memory;
use std::alloc::Global;
use std::test::Fail;

// What a test expects of a search.
#[derive(Clone, Copy, PartialEq, Eq, Debug)]
enum Answer {
    Model,
    Refuted,
    Spent { lines: u64 },
    Wrong,
}

// Adds the clauses of a text, in which a literal is its variable's number, counted from 1, with the literal's
// sign, and a clause ends with 0.
fn formula_of(alloc: Global, variables: u32, text: &[i32]) -> Result<Formula, Memory> {
    let mut formula = Formula::begin(alloc);
    for i in 0..variables {
        if i < 1000 && formula.variables() < 1000 {
            let _variable = formula.fresh();
        }
    }
    let mut clause = Vec::new(alloc);
    for number in text {
        let size = number.unsigned_abs();
        if size > 0 && size <= 1000 {
            clause.push(Lit::new(size - 1, *number < 0))?;
        } else {
            if formula.covers(&clause) && formula.clauses() < 1000000 {
                let _id = formula.add(&clause)?;
            }
            clause.clear();
        }
    }
    Ok(formula)
}

// The number of the variable that says that a pigeon is in a hole.
fn place(pigeon: i32, hole: i32, holes: i32) -> i32 {
    pigeon
        .wrapping_mul(holes)
        .wrapping_add(hole)
        .wrapping_add(1)
}

// Pigeons in this many holes: each pigeon has a hole, and no two have one.
fn pigeons(alloc: Global, count: i32, holes: i32) -> Result<Formula, Memory> {
    let mut text = Vec::new(alloc);
    for i in 0..count {
        for h in 0..holes {
            text.push(place(i, h, holes))?;
        }
        text.push(0)?;
        for j in 0..i {
            for h in 0..holes {
                text.push(place(i, h, holes).wrapping_neg())?;
                text.push(place(j, h, holes).wrapping_neg())?;
                text.push(0)?;
            }
        }
    }
    formula_of(alloc, 30, &text)
}

// Whether values meet a clause.
fn is_met(values: &[bool], clause: &[Lit]) -> bool {
    for lit in clause {
        if values.get(lit.var() as usize).copied() == Some(!lit.is_negated()) {
            return true;
        }
    }
    false
}

// What a search comes to, whose model is checked against the same formula.
fn answer_of(
    alloc: Global,
    formula: Formula,
    same: &Formula,
    lines: u64,
) -> Result<Answer, Memory> {
    if lines == 0 || lines > 1000000 || formula.clauses() > 1000000 {
        return Ok(Answer::Wrong);
    }
    match search(alloc, formula, lines)? {
        Found::Refuted(log) => Ok(if log.refutes() && log.lines() <= lines {
            Answer::Refuted
        } else {
            Answer::Wrong
        }),
        Found::Spent(log) => Ok(if log.refutes() {
            Answer::Wrong
        } else {
            Answer::Spent { lines: log.lines() }
        }),
        Found::Model(values) => {
            for k in 0..same.clauses() {
                if !is_met(&values, same.clause(k)) {
                    return Ok(Answer::Wrong);
                }
            }
            Ok(Answer::Model)
        }
    }
}

#[test]
fn pigeons_in_holes(rt: HostRuntime) -> Result<(), Fail> {
    let alloc = rt.alloc();
    for (count, holes, lines, expected) in [
        (3, 2, 1, Answer::Spent { lines: 1 }),
        (3, 2, 1000, Answer::Refuted),
        (3, 3, 1000, Answer::Model),
        (4, 3, 1000, Answer::Refuted),
        (5, 4, 1000, Answer::Refuted),
    ] {
        let same = pigeons(alloc, count, holes)?;
        let given = pigeons(alloc, count, holes)?;
        assert_eq!(rt;
            answer_of(alloc, given, &same, lines)?,
            expected,
            "{count} pigeons"
        );
    }
    Ok(())
}

#[test]
fn small_formulas(rt: HostRuntime) -> Result<(), Fail> {
    let alloc = rt.alloc();
    let cases: [(u32, &[i32], Answer); 12] = [
        (0, &[], Answer::Model),
        (3, &[], Answer::Model),
        (1, &[0], Answer::Refuted),
        (1, &[1, 0], Answer::Model),
        (1, &[1, 0, -1, 0], Answer::Refuted),
        (1, &[1, 1, 0, -1, -1, 0], Answer::Refuted),
        (1, &[1, -1, 0], Answer::Model),
        (2, &[1, 2, 0, -1, 2, 0, 1, -2, 0], Answer::Model),
        (
            2,
            &[1, 2, 0, -1, 2, 0, 1, -2, 0, -1, -2, 0],
            Answer::Refuted,
        ),
        (3, &[1, 0, -1, 2, 0, -2, 3, 0], Answer::Model),
        (3, &[1, 0, -1, 2, 0, -2, 3, 0, -3, -1, 0], Answer::Refuted),
        (
            3,
            &[1, 2, 3, 0, 1, -2, -3, 0, -1, 2, -3, 0, -1, -2, 3, 0],
            Answer::Model,
        ),
    ];
    for (variables, text, expected) in cases {
        let same = formula_of(alloc, variables, text)?;
        let given = formula_of(alloc, variables, text)?;
        assert_eq!(rt; answer_of(alloc, given, &same, 1000)?, expected, "{text:?}");
    }
    Ok(())
}
