// Refutations worked by hand.
use crate::checking::check;
use crate::spelling::{bag, pattern, tree};
use pat_patterns::Pattern;
use pat_refutations::check_refutation;
use pat_witnesses::Refutation;
use std::alloc::{AllocError, Global};
use std::process::Abort;

/// The lower bound of the one variable, a left and a right pattern, a tree, how often m and n are in a word, and whether the tree and
/// the word refute.
const REFUTATIONS: &[(&str, &str, &str, &str, u32, u32, bool)] = &[
    ("0", "mm.", "m", "ttb", 2, 0, true),
    ("0", "mm.", "m", "ttb", 1, 0, false),
    ("0", "mm.", "m", "ttb", 3, 0, false),
    ("0", "mm.", "mm.", "ttb", 2, 0, false),
    ("0", "m*", "1", "tsp", 1, 0, true),
    ("0", "1*", "0", "esp", 0, 0, false),
    ("0", "1*", "0", "s", 0, 0, true),
    ("m$.1+", "$", "m", "erv", 0, 0, true),
    ("m$.1+", "$", "1", "tervblv", 1, 0, true),
    ("m$.1+", "$", "m", "tervblv", 1, 0, false),
    ("0", "$", "0", "ev", 0, 0, false),
    ("0", "mn+", "m", "tr", 0, 1, true),
    ("0", "mn+", "m", "tl", 0, 1, false),
    ("0", "m", "0", "e", 0, 0, false),
    ("0", "m", "0", "t", 0, 1, false),
    ("0", "mn+*", "mn+", "tltrspp", 1, 1, true),
    ("0", "1m+*", "0", "trsp", 1, 0, true),
    ("0", "1m+*", "0", "trelspp", 1, 0, false),
];

fn refutes(
    rt: &impl Abort,
    alloc: Global,
    system: &[Pattern],
    left: &str,
    right: &str,
    refutation: &Refutation,
    want: bool,
) -> Result<(), AllocError> {
    let first = pattern(alloc, left)?;
    let second = pattern(alloc, right)?;
    let yes = check_refutation(alloc, system, &first, &second, refutation)?;
    check(rt, yes == want);
    Ok(())
}

pub fn all_refutations(rt: &impl Abort, alloc: Global) -> Result<(), AllocError> {
    for (lower, left, right, shape, m, n, want) in REFUTATIONS {
        let system = vec![in alloc; pattern(alloc, lower)?]?;
        let made = Refutation {
            word: bag(*m, *n),
            tree: tree(alloc, shape)?,
        };
        let copy = made.copy(alloc)?;
        refutes(rt, alloc, system.as_slice(), left, right, &copy, *want)?;
    }
    Ok(())
}
