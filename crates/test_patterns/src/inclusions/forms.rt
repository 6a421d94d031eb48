// Closed forms worked by hand.
use crate::checking::check;
use crate::spelling::{pattern, spelled_sets};
use pat_grid_points::has_tags;
use pat_linear::{FormError, LinearSet, closed_form};
use pat_patterns::Pattern;
use pat_sequences::Sequence;
use std::alloc::{AllocError, Global};
use std::process::Abort;

/// The closed form of a pattern that is small and has tags below 32.
pub fn form(
    rt: &impl Abort,
    alloc: Global,
    p: &Pattern,
) -> Result<Sequence<LinearSet>, AllocError> {
    if !has_tags(p, 32) {
        panic!(rt; "a tag from 32 on");
    }
    match closed_form(alloc, p) {
        Ok(sets) => Ok(sets),
        Err(FormError::NoMemory) => Err(AllocError),
        Err(FormError::TooLarge) => panic!(rt; "too large"),
    }
}

/// The closed form of the pattern is the second.
fn has_form(rt: &impl Abort, alloc: Global, text: &str, want: &str) -> Result<(), AllocError> {
    let p = pattern(alloc, text)?;
    let sets = form(rt, alloc, &p)?;
    let sets = spelled_sets(alloc, sets.as_slice())?;
    check(rt, sets.as_slice() == want.as_bytes());
    Ok(())
}

/// A pattern, and its sets.
const FORMS: &[(&str, &str)] = &[
    ("0", ""),
    ("1", ":"),
    ("m", "m:"),
    ("$", ""),
    ("mn+", "m: n:"),
    ("mm+", "m: m:"),
    ("mn.", "mn:"),
    ("mn+n.", "mn: nn:"),
    ("m*", ":m"),
    ("mn.*", ":mn"),
    ("mn+*", ":m,n"),
    ("mm+*", ":m"),
    ("0*", ":"),
    ("1*", ":"),
    ("mmn*.+*", ":m m:m,n"),
    ("m**", ": :m"),
    ("m*m.", "m:m"),
    ("m*m*.", ":m"),
    ("n*m*.", ":n,m"),
    ("mn*.*", ": m:n,m"),
    ("m1+n*.", "m:n :n"),
    ("$m.", ""),
    ("$m.*", ":"),
];

pub fn all_forms(rt: &impl Abort, alloc: Global) -> Result<(), AllocError> {
    for (text, want) in FORMS {
        has_form(rt, alloc, text, want)?;
    }
    Ok(())
}
