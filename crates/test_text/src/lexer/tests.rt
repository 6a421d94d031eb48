use super::{lexer_behind, tokens_of};
use crate::checking::check;
use pat_lexer::LexError;
use pat_syntax::{Token, TokenKind};
use std::alloc::{AllocError, Global};
use std::process::Abort;
use std::test::Fail;

/// Each token as a letter for its kind and its span, or the refusal.
fn summary(alloc: Global, text: &[u8], size: usize) -> Result<String, AllocError> {
    if text.len() > 1_000_000 || size == 0 {
        return String::from_str(alloc, "too long");
    }
    match tokens_of(alloc, text, size) {
        Ok(tokens) => shown(alloc, tokens.as_slice()),
        Err(LexError::BadToken(at)) => format!(in alloc; "bad {at}"),
        Err(LexError::NumberTooWide(at)) => format!(in alloc; "wide {at}"),
        Err(LexError::NoMemory) => String::from_str(alloc, "memory"),
    }
}

fn shown(alloc: Global, tokens: &[Token]) -> Result<String, AllocError> {
    let mut text = String::new(alloc);
    for token in tokens {
        let letter = match token.kind {
            TokenKind::Name(_) => "n",
            TokenKind::Integer(_) => "i",
            TokenKind::Str(_) => "s",
            TokenKind::Word(_) => "w",
            TokenKind::Mark(_) => "m",
        };
        text.push_str(letter)?;
        let span = format!(in alloc; "{}-{} ", token.span.from, token.span.to)?;
        text.push_str(span.as_str())?;
    }
    Ok(text)
}

/// Texts, and their tokens or refusals, in pieces of whatever size.
const TEXTS: &[(&[u8], &str)] = &[
    (b"let xyz ", "w0-3 n4-7 "),
    (b"lets _x _", "n0-4 n5-7 n8-9 "),
    (b"- -> = == ===", "m0-1 m2-4 m5-6 m7-9 m10-12 m12-13 "),
    (b"12abc 007", "i0-2 n2-5 i6-9 "),
    (b"9223372036854775807", "i0-19 "),
    (b"9223372036854775808 ", "wide 0"),
    (b"x 00009223372036854775808", "wide 2"),
    (b"\"a\\\"b\\\\\" c", "s0-8 n9-10 "),
    (b"x \"abc", "bad 2"),
    (b"x \"a\\n\"", "bad 2"),
    (b"x // \xC3\xA9 y\n z", "n0-1 n11-12 "),
    (b"x // \xFF", "bad 2"),
    (b"x // \xC3", "bad 2"),
    (b"x\xFF", "bad 1"),
    (b"x \"\xFF\"", "bad 2"),
    (b"x / y", "bad 2"),
    (
        b"\xC3\xA9t\xC3\xA9 \xCE\xB1 \xD0\xB6 \xE5\x90\x8D \xD7\x90",
        "n0-5 n6-8 n9-11 n12-15 n16-18 ",
    ),
    (b"{ @ }", "bad 2"),
];

fn check_texts(rt: &impl Abort, alloc: Global, rows: &[(&[u8], &str)]) -> Result<(), AllocError> {
    for (text, expected) in rows {
        for size in [1, 2, 3, 7, 4096] {
            let got = summary(alloc, text, size)?;
            check(rt, got.as_str() == *expected);
        }
    }
    Ok(())
}

/// The bytes that the lexer holds behind the text.
fn held_behind(alloc: Global, text: &[u8], size: usize) -> Result<Vec<u8>, AllocError> {
    if text.len() > 1_000_000 || size == 0 {
        return Vec::from_slice(alloc, b"too long");
    }
    match lexer_behind(alloc, text, size) {
        Ok(lexer) => Vec::from_slice(alloc, lexer.held()),
        Err(_) => Vec::from_slice(alloc, b"refused"),
    }
}

/// Texts, the size of their pieces, and what is held behind them.
const HELD: &[(&[u8], usize, &[u8])] = &[
    (b"let xy", 6, b"xy"),
    (b"let xyz ", 6, b""),
    (b"let x =", 3, b"="),
    (b"5 -", 1, b"-"),
    (b"(007", 2, b"007"),
    (b"x \"a\\", 2, b"\"a\\"),
    (b"x \"a\"", 2, b""),
    (b"/", 1, b"/"),
    (b"x // y", 2, b""),
    (b"x // y\xE5\x90", 2, b"\xE5\x90"),
    (b"ab\xC3", 2, b"ab\xC3"),
    (b"(\xC3", 2, b"\xC3"),
];

fn check_held(
    rt: &impl Abort,
    alloc: Global,
    rows: &[(&[u8], usize, &[u8])],
) -> Result<(), AllocError> {
    for (text, size, expected) in rows {
        let got = held_behind(alloc, text, *size)?;
        check(rt, got.as_slice() == *expected);
    }
    Ok(())
}

pub fn cuts_change_nothing_and_the_unfinished_piece_is_held(
    rt: &impl Abort,
    alloc: Global,
) -> Result<(), Fail> {
    check_texts(rt, alloc, TEXTS)?;
    check_held(rt, alloc, HELD)?;
    Ok(())
}
