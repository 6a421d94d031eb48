// Parts on a stack give way to what is made of them.
ghost use Rattle.std.specs.Prelude.{◌≡◌, OnOk};
ghost use Rattle.pat_solve_bounded.specs.Limits.{sum_within, prod_within, star_within};
ghost use Rattle.pat_solve_bounded.specs.Views.{parts_view};
ghost use Rattle.pat_solve_bounded.specs.replacing.Stacks.{joined, joined_one};

use crate::{Part, product, star, sum};
use pat_sequences::Stack;
use std::alloc::{AllocError, Global};

/// The two parts on top give way to their sum; where there are fewer, none is left.
pub fn join_sum<'a>(alloc: Global, done: &mut Stack<Option<Part<'a>>>) -> Result<(), AllocError>
    ensures { OnOk result (parts_view done.new ≡ joined sum_within (parts_view done.old)) }
{
    match done.pop() {
        Some(right) => match done.pop() {
            Some(left) => {
                let whole = sum(alloc, left, right)?;
                done.push(whole)
            }
            None => Ok(()),
        },
        None => Ok(()),
    }
}

/// The two parts on top give way to their product.
pub fn join_product<'a>(alloc: Global, done: &mut Stack<Option<Part<'a>>>) -> Result<(), AllocError>
    ensures { OnOk result (parts_view done.new ≡ joined prod_within (parts_view done.old)) }
{
    match done.pop() {
        Some(right) => match done.pop() {
            Some(left) => {
                let whole = product(alloc, left, right)?;
                done.push(whole)
            }
            None => Ok(()),
        },
        None => Ok(()),
    }
}

/// The part on top gives way to its star.
pub fn join_star<'a>(alloc: Global, done: &mut Stack<Option<Part<'a>>>) -> Result<(), AllocError>
    ensures { OnOk result (parts_view done.new ≡ joined_one star_within (parts_view done.old)) }
{
    match done.pop() {
        Some(part) => {
            let whole = star(alloc, part)?;
            done.push(whole)
        }
        None => Ok(()),
    }
}
