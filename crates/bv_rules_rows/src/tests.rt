//! Rows that are wrong, or can't be read.

use super::*;
use std::alloc::AllocError;
use std::test::Fail;

/// What is said of a row.
fn told(alloc: Global, line: &str) -> Result<String, AllocError> {
    match report_of(alloc, line) {
        Ok(report) => Ok(report.text),
        Err(fault) => format!(in alloc; "{fault}"),
    }
}

#[test]
fn rows_that_are_wrong_or_malformed(rt: HostRuntime) -> Result<(), Fail> {
    let deep =
        "r|(not (not (not (not (not (not (not (not (not (not (not (not (not (not (not (not (not (not (not (not (not x8)))))))))))))))))))))|none|x8|none";
    let rows = [
        ("r|(plus x8 0:8)|x8|x8|none", "r: ok"),
        (
            "r|(plus x8 0:8)|y8|x8|none",
            "r: example gives x8, wanted y8",
        ),
        ("r|x8|none|x8|x8", "r: near miss gives none, wanted x8"),
        ("r|x8|none|x8", "a row has five columns"),
        ("r|x8|none|x8|none|none", "a row has five columns"),
        ("r||none|x8|none", "a term is one node"),
        ("r|(not x8|none|x8|none", "a term is one node"),
        ("r|(not x8))|none|x8|none", "a term is one node"),
        ("r|x8 y8|none|x8|none", "a term is one node"),
        ("r|()|none|x8|none", "an unknown operation"),
        ("r|(nor x8 y8)|none|x8|none", "an unknown operation"),
        ("r|(not x8 y8)|none|x8|none", "an unknown operation"),
        ("r|(slice 3 x8)|none|x8|none", "an unknown operation"),
        ("r|(not w8)|none|x8|none", "an unknown word"),
        ("r|3|none|x8|none", "an unknown word"),
        ("r|3:|none|x8|none", "an unknown word"),
        ("r|256:8|none|x8|none", "widths that don't fit"),
        ("r|(plus x8 x16)|none|x8|none", "widths that don't fit"),
        (
            "r|(not (slice 8 0 x8))|none|x8|none",
            "widths that don't fit",
        ),
        (deep, "brackets too deep"),
    ];
    for (line, want) in rows {
        let got = told(rt.alloc(), line)?;
        assert_eq!(rt; got.as_str(), want, "at {line}");
    }
    Ok(())
}
