use super::{CELL, outcome};
use crate::checking::check;
use std::alloc::{AllocError, Global};
use std::process::Abort;
use std::test::Fail;

/// Whole programs, and refusals at their offsets.
const TEXTS: &[(&str, &str)] = &[
    (CELL, "tree of 6"),
    ("interface I { A() }", "tree of 1"),
    ("", "unexpected 0"),
    (" ", "unexpected 1"),
    ("interface I { }", "unexpected 14"),
    ("interface I { A() ", "unexpected 18"),
    ("interface I { A(Int,) }", "unexpected 20"),
    ("interface I { A(J!) }", "unexpected 18"),
    ("interface I { A(J!(1 + B).*C, J?0) }", "tree of 1"),
    ("interface I { A(J!2) }", "unexpected 18"),
    (
        "def f(x: I?, y: I!*A): Bool { if x == y { () } else { (1 + 2) * 3 < 4 } }",
        "tree of 1",
    ),
    ("def f(): Unit { if true { () } }", "unexpected 31"),
    ("def f(): Unit { 1 < 2 < 3 }", "unexpected 22"),
    ("def f(): Unit { 1 + }", "unexpected 20"),
    (
        "def f(): Unit { let x = let y = 1 in y in x }",
        "unexpected 24",
    ),
    (
        "def f(): Unit { let x = { let y = 1 in y } in x }",
        "tree of 1",
    ),
    ("def f(): Unit { let x = 1; x }", "unexpected 25"),
    ("def f(): Unit { f(1,) }", "unexpected 20"),
    ("def f(): Unit { x ! A }", "unexpected 22"),
    ("def f(): Unit { guard x : 1 { } }", "unexpected 30"),
    (
        "def f(): Unit { guard x : 1 { fail fail free -> () } }",
        "tree of 1",
    ),
    (
        "def f(): Unit { guard x : A { receive A(y, z) from x -> y; z free -> free(x) } }",
        "tree of 1",
    ),
    (
        "def f(): Unit { guard x : A { receive A(y,) from x -> y } }",
        "unexpected 42",
    ),
    ("def f(): Unit { (((1)) }", "unexpected 23"),
    ("def f(): Unit { () } }", "unexpected 21"),
    ("def f(): Unit { () } x", "unexpected 21"),
    ("def f(): Unit { 9223372036854775808 }", "no tokens"),
];

/// What becomes of a program that is cut off.
#[derive(Clone, Copy)]
enum Cut {
    /// The end is unexpected.
    AtEnd,
    /// The token at this offset is unexpected.
    At(u32),
    /// The lexer refuses it.
    NoTokens,
    /// It is a program.
    Whole,
}

/// A program that is cut off at each of its bytes.
const WHOLE: &str = "def f(): Unit { guard x : *A { free -> print(\"a\") } }";

/// From which byte on which of the cuts is so.
const CUTS: &[(usize, Cut)] = &[
    (0, Cut::AtEnd),
    (1, Cut::At(0)),
    (3, Cut::AtEnd),
    // `f`, `fr` and `fre` are names where a clause begins.
    (32, Cut::At(31)),
    (35, Cut::AtEnd),
    // `-` isn't yet `->`.
    (37, Cut::At(36)),
    (38, Cut::AtEnd),
    (46, Cut::NoTokens),
    (48, Cut::AtEnd),
    (WHOLE.len(), Cut::Whole),
];

fn cut_at(end: usize) -> Cut {
    let mut cut = Cut::AtEnd;
    for (from, next) in CUTS {
        if *from <= end {
            cut = *next;
        }
    }
    cut
}

fn shown(alloc: Global, cut: Cut, end: usize) -> Result<String, AllocError> {
    match cut {
        Cut::AtEnd => format!(in alloc; "unexpected {end}"),
        Cut::At(from) => format!(in alloc; "unexpected {from}"),
        Cut::NoTokens => String::from_str(alloc, "no tokens"),
        Cut::Whole => String::from_str(alloc, "tree of 1"),
    }
}

fn check_texts(rt: &impl Abort, alloc: Global, rows: &[(&str, &str)]) -> Result<(), Fail> {
    for (text, expected) in rows {
        let got = outcome(alloc, text.as_bytes())?;
        check(rt, got.as_str() == *expected);
    }
    Ok(())
}

fn check_cuts(rt: &impl Abort, alloc: Global, whole: &[u8]) -> Result<(), Fail> {
    for end in 0..=whole.len() {
        let got = outcome(alloc, &whole[..end])?;
        let expected = shown(alloc, cut_at(end), end)?;
        check(rt, got.as_str() == expected.as_str());
    }
    Ok(())
}

pub fn texts_and_refusals(rt: &impl Abort, alloc: Global) -> Result<(), Fail> {
    check_texts(rt, alloc, TEXTS)?;
    check_cuts(rt, alloc, WHOLE.as_bytes())
}
