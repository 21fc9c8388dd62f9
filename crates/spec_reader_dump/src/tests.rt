use spec_form::{Form, FormKind, Program, SpecError};
use spec_reader::read_spec;
use std::alloc::Global;
use std::test::Fail;

/// A file in the form in which ACL2 users write it.
const ACL2_FILE: &[u8] = b"; a word of 16 bits
(in-package \"ACL2\")
(include-book \"kestrel/bv/top\" :dir :system)
#| (defun g () ')' |#
(local (in-theory '(natp ')))
(DEFUND Mixed-1+ (X Y) ; two words
  \"What a \\\" is.\"
  (declare (xargs :guard (natp x)))
  (declare (ignore y))
  (BVXOR 16 x #xFf00))
(defthm mixed-1+-of-0 (equal (mixed-1+ 0 0) #xff00))
(verify-guards mixed-1+)
";

/// A block cipher of two halves, its rounds by recursion.
const CIPHER_FILE: &[u8] = b"
(defconst *delta* #x9e3779b9)
(defun half (z s p q)
  (bvxor 32 (bvplus 32 (bvshl 32 z 4) p)
            (bvxor 32 (bvplus 32 z s) (bvplus 32 (bvshr 32 z 5) q))))
(defun steps (left s y z key)
  (if (zp left) (list y z)
    (let* ((s (bvplus 32 s *delta*))
           (y (bvplus 32 y (half z s (nth 0 key) (nth 1 key))))
           (z (bvplus 32 z (half y s (nth 2 key) (nth 3 key)))))
      (steps (- left 1) s y z key))))
(defun encrypted (v key) (steps 32 0 (nth 0 v) (nth 1 v) key))
";

fn places(program: &Program, names: [&[u8]; 3]) -> [Option<usize>; 3] {
    let [first, second, third] = names;
    [
        program.function(first).map(|f| f.0),
        program.function(second).map(|f| f.0),
        program.function(third).map(|f| f.0),
    ]
}

#[test]
fn acl2_file(rt: HostRuntime) -> Result<(), Fail> {
    let program = read_spec(rt.alloc(), ACL2_FILE)?;
    let names: [&[u8]; 3] = [b"mixed-1+", b"MIXED-1+", b"mixed"];
    assert_eq!(rt; places(&program, names), [Some(0), Some(0), None]);
    assert_eq!(rt; program.functions.as_slice().len(), 1);
    assert_eq!(rt; program.functions.get(0).map(|f| f.formals), Some(2));
    Ok(())
}

#[test]
fn cipher_file(rt: HostRuntime) -> Result<(), Fail> {
    let program = read_spec(rt.alloc(), CIPHER_FILE)?;
    let names: [&[u8]; 3] = [b"half", b"steps", b"encrypted"];
    assert_eq!(rt; places(&program, names), [Some(0), Some(1), Some(2)]);
    assert_eq!(rt; program.constants.as_slice().len(), 1);
    assert_eq!(rt; program.functions.get(1).map(|f| f.formals), Some(5));
    Ok(())
}

/// Where a form stands, what it is, and how many parts it has.
fn outline(form: &Form) -> (u32, &'static str, usize) {
    let (kind, parts) = match &form.kind {
        FormKind::Number(_) => ("number", 0),
        FormKind::T => ("t", 0),
        FormKind::Quoted(numbers) => ("quoted", numbers.as_slice().len()),
        FormKind::Variable(_) => ("variable", 0),
        FormKind::Constant(_) => ("constant", 0),
        FormKind::If(parts) => ("if", parts.as_slice().len()),
        FormKind::Let(parts) => ("let", parts.as_slice().len()),
        FormKind::LetStar(parts) => ("let*", parts.as_slice().len()),
        FormKind::Cond(parts) => ("cond", parts.as_slice().len()),
        FormKind::And(parts) => ("and", parts.as_slice().len()),
        FormKind::Or(parts) => ("or", parts.as_slice().len()),
        FormKind::Builtin(_, parts) => ("builtin", parts.as_slice().len()),
        FormKind::Call(_, parts) => ("call", parts.as_slice().len()),
    };
    (form.at, kind, parts)
}

/// The forms within a form.
fn parts(form: &Form) -> &[Form] {
    match &form.kind {
        FormKind::If(parts)
        | FormKind::Let(parts)
        | FormKind::LetStar(parts)
        | FormKind::Cond(parts)
        | FormKind::And(parts)
        | FormKind::Or(parts)
        | FormKind::Builtin(_, parts)
        | FormKind::Call(_, parts) => parts.as_slice(),
        _ => &[],
    }
}

/// The body of the first function.
fn first_body(program: &Program) -> Option<&Form> {
    match program.functions.get(0) {
        Some(function) => Some(&function.body),
        None => None,
    }
}

/// The forms within a form, if there is one.
fn parts_of(form: Option<&Form>) -> &[Form] {
    match form {
        Some(form) => parts(form),
        None => &[],
    }
}

#[test]
fn kinds_of_forms(rt: HostRuntime) -> Result<(), Fail> {
    let text =
        b"(defun f (x y) (list x *k* t nil '(1 -2) (if x y 3) (let ((y x) (z y)) (declare) z) \
(let* ((x 1)) x) (cond (x 1) (t 2)) (and) (or x y x) (+ x y 1) (f x y))) (defconst *k* 5)";
    let program = read_spec(rt.alloc(), text.as_slice())?;
    let body = first_body(&program);
    let expected = [
        (21, "variable", 0),
        (23, "constant", 0),
        (27, "t", 0),
        (29, "quoted", 0),
        (33, "quoted", 2),
        (41, "if", 3),
        (52, "let", 3),
        (84, "let*", 2),
        (101, "cond", 4),
        (120, "and", 0),
        (126, "or", 3),
        (137, "builtin", 3),
        (147, "call", 2),
    ];
    for (part, expected) in parts_of(body).iter().zip(expected) {
        assert_eq!(rt; outline(part), expected);
    }
    assert_eq!(rt; parts_of(body).len(), 13);
    Ok(())
}

/// A text of one piece, repeated.
fn repeated(
    alloc: Global,
    before: &[u8],
    piece: &[u8],
    times: usize,
    after: &[u8],
) -> Result<Vec<u8>, Fail> {
    let mut text = Vec::from_slice(alloc, before)?;
    for _ in 0..times {
        text.extend_from_slice(piece)?;
    }
    text.extend_from_slice(after)?;
    Ok(text)
}

/// The fault of a text of at most 1 MB; want of memory stands for a longer one.
fn fault_of(alloc: Global, text: &[u8]) -> Option<SpecError> {
    if text.len() > 1_048_576 {
        return Some(SpecError::Memory);
    }
    read_spec(alloc, text).err()
}

#[test]
fn depth_of_parentheses(rt: HostRuntime) -> Result<(), Fail> {
    let alloc = rt.alloc();
    let cases: [(usize, usize, Option<SpecError>); 3] = [
        (499, 500, None),
        (500, 501, Some(SpecError::TooDeep { at: 2507 })),
        (499, 501, Some(SpecError::BadForm { at: 3008 })),
    ];
    for (opened, closed, fault) in cases {
        let mut text = repeated(alloc, b"(defun f () ", b"(not ", opened, b"1")?;
        let end = repeated(alloc, b"", b")", closed, b"")?;
        text.extend_from_slice(&end)?;
        assert_eq!(rt; fault_of(alloc, &text), fault);
    }
    Ok(())
}

#[test]
fn large_texts(rt: HostRuntime) -> Result<(), Fail> {
    let alloc = rt.alloc();
    let mega = 1_048_576;
    let cases: [(&[u8], &[u8], usize, &[u8], Option<SpecError>); 7] = [
        (b"", b"(", mega, b"", Some(SpecError::TooDeep { at: 500 })),
        (b"", b"a", mega, b"", Some(SpecError::BadForm { at: 0 })),
        (b"", b"'", mega, b"", Some(SpecError::BadForm { at: 0 })),
        (
            b"",
            b"#| ",
            mega / 3,
            b"",
            Some(SpecError::Unclosed { at: 0 }),
        ),
        (b"(defun f () '(", b"1 ", 500_000, b"))", None),
        (b"(defun f () (list ", b"1 ", 500_000, b"))", None),
        (
            b"(defun f () 1)",
            b"(defun f () 1)",
            70_000,
            b"",
            Some(SpecError::Duplicate { at: 14 }),
        ),
    ];
    for (before, piece, times, after, fault) in cases {
        let text = repeated(alloc, before, piece, times, after)?;
        assert_eq!(rt; fault_of(alloc, &text), fault);
    }
    Ok(())
}
