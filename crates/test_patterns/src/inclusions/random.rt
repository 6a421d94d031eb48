// Closed forms and grids of small random patterns, word by word beside `member`.
use crate::checking::check;
use crate::inclusions::covers::cover_of;
use crate::inclusions::forms::form;
use crate::spelling::{bag, push_letter, take};
use pat_bags::Bag;
use pat_grid::{Grid, eval};
use pat_grid_points::has_tags;
use pat_linear::LinearSet;
use pat_patterns::Pattern;
use pat_refutations::member;
use pat_sequences::Sequence;
use std::alloc::{AllocError, Global};
use std::process::Abort;
use std::sync::Arc;

/// A generator of numbers that look random: the same ones from the same seed.
#[derive(Drop)]
struct Generator {
    state: u64,
}

impl Generator {
    /// The next number below 16.
    fn next(&mut self) -> u64 {
        self.state = self
            .state
            .wrapping_mul(6364136223846793005)
            .wrapping_add(1442695040888963407);
        self.state >> 60
    }
}

/// A letter of a pattern: a tag more often than a sum, a product or a star.
fn letter(generator: &mut Generator) -> u8 {
    match generator.next() {
        0 => b'0',
        1 => b'1',
        2..=5 => b'm',
        6..=8 => b'n',
        9..=10 => b'*',
        11..=13 => b'.',
        _ => b'+',
    }
}

/// A pattern of a few parts.
fn pattern(alloc: Global, generator: &mut Generator) -> Result<Pattern, AllocError> {
    let mut done = Vec::new(alloc);
    for _ in 0..10 {
        push_letter(alloc, letter(generator), &mut done)?;
    }
    let p = take(&mut done);
    let left = Arc::new(alloc, take(&mut done))?;
    let right = Arc::new(alloc, p)?;
    Ok(Pattern::Sum(left, right))
}

/// The grid of the pattern, whose counts go up to five: a count below that is a word's own.
fn grid_of(rt: &impl Abort, alloc: Global, p: &Pattern) -> Result<Grid, AllocError> {
    if !has_tags(p, 2) {
        panic!(rt; "a third tag");
    }
    eval(alloc, p, &[], 5, 2)
}

/// Whether the word is one of the pattern's just where it is one of the sets', and just where the grid has it.
fn agrees(
    rt: &impl Abort,
    alloc: Global,
    p: &Pattern,
    sets: &[LinearSet],
    grid: &Grid,
    word: &Bag,
) -> Result<bool, AllocError> {
    let mut left = Sequence::new(alloc);
    left.push(LinearSet {
        base: *word,
        periods: Sequence::new(alloc),
    })?;
    let found = cover_of(rt, alloc, left.as_slice(), sets)?;
    let yes = member(alloc, p, word)?;
    Ok(found.is_some() == yes && grid.holds(word) == yes)
}

pub fn all_random(rt: &impl Abort, alloc: Global) -> Result<(), AllocError> {
    let mut generator = Generator { state: 13 };
    for _ in 0..500 {
        let p = pattern(alloc, &mut generator)?;
        let sets = form(rt, alloc, &p)?;
        let grid = grid_of(rt, alloc, &p)?;
        for m in 0..5 {
            for n in 0..5 {
                let same = agrees(rt, alloc, &p, sets.as_slice(), &grid, &bag(m, n))?;
                check(rt, same);
            }
        }
    }
    Ok(())
}
