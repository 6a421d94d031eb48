// Products of linear sets.
ghost use Rattle.std.specs.Prelude.{◌≡◌, ◌++◌, ◌∷◌, [], ℕ, ◌<◌, ◌≤◌, ◌+◌, ◌^◌, map, length, take, drop, IfOk, OnOk};
ghost use Rattle.pat_bags.specs.Views.{word_of};
ghost use Rattle.pat_inclusion_spec.specs.Counts.{most_tags};
ghost use Rattle.pat_inclusion_spec.specs.ClosedForms.{is_short, set_product as set_product_of, products as products_of};
ghost use Rattle.pat_linear.specs.Views.{set_view, sets_view};
ghost use Rattle.pat_linear.specs.Rooms.{HasRoom, HaveRoom};
ghost use Rattle.pat_linear.specs.Forms.{GivesSets};

use crate::comparing::{add_periods, copied};
use crate::error::FormError;
use crate::set::LinearSet;
use pat_limits::MOST_SETS;
use pat_sequences::Sequence;
use std::alloc::{AllocError, Global};

/// The sums of a word of each.
fn set_product(alloc: Global, a: &LinearSet, b: &LinearSet) -> Result<LinearSet, AllocError>
    requires { (t : ℕ) → t < 32 → word_of a.now.base t + word_of b.now.base t < 2 ^ 32 }
    ensures { IfOk result (λ both. set_view both ≡ set_product_of most_tags (set_view a.now) (set_view b.now)) }
{
    let mut periods = copied(alloc, a.periods.as_slice())?;
    add_periods(&mut periods, b.periods.as_slice())?;
    let base = a.base.add(&b.base);
    Ok(LinearSet { base, periods })
}

/// Makes the set the sums of a word of it and one of the other.
pub fn multiply_by(a: &mut LinearSet, b: &LinearSet) -> Result<(), AllocError>
    requires { (t : ℕ) → t < 32 → word_of a.old.base t + word_of b.now.base t < 2 ^ 32 }
    ensures { OnOk result (set_view a.new ≡ set_product_of most_tags (set_view a.old) (set_view b.now)) }
{
    a.base = a.base.add(&b.base);
    add_periods(&mut a.periods, b.periods.as_slice())
}

/// Makes the set the sums of a word of the first one and one of it.
fn multiply_onto(alloc: Global, a: &LinearSet, b: &mut LinearSet) -> Result<(), AllocError>
    requires { (t : ℕ) → t < 32 → word_of a.now.base t + word_of b.old.base t < 2 ^ 32 }
    ensures { OnOk result (set_view b.new ≡ set_product_of most_tags (set_view a.now) (set_view b.old)) }
{
    let mut periods = copied(alloc, a.periods.as_slice())?;
    add_periods(&mut periods, b.periods.as_slice())?;
    b.base = a.base.add(&b.base);
    b.periods = periods;
    Ok(())
}

/// Puts the products of the set with those from the place on in their place.
pub fn multiply_from(
    alloc: Global,
    a: &LinearSet,
    start: usize,
    sets: &mut Sequence<LinearSet>,
) -> Result<(), AllocError>
    requires room { HasRoom (set_view a.now) (sets_view (drop start sets.old)) }
    ensures length { length sets.new ≡ length sets.old }
    ensures products { OnOk result (sets_view sets.new
        ≡ sets_view (take start sets.old) ++ map (set_product_of most_tags (set_view a.now)) (sets_view (drop start sets.old))) }
{
    for place in start..sets.len() {
        multiply_onto(alloc, a, &mut sets.items[place])?;
    }
    Ok(())
}

/// The product of the one set of a list with another, in its place.
fn one_product(
    sets: Sequence<LinearSet>,
    other: &LinearSet,
) -> Result<Sequence<LinearSet>, AllocError>
    requires one { length sets ≡ 1 }
    requires room { HaveRoom (sets_view sets) (set_view other.now ∷ []) }
    ensures { IfOk result (λ done. sets_view done ≡ products_of most_tags (sets_view sets) (set_view other.now ∷ [])) }
{
    let mut done = sets;
    multiply_by(&mut done.items[0], other)?;
    Ok(done)
}

/// Appends the products of a set with each of the others.
pub fn push_row(
    alloc: Global,
    a: &LinearSet,
    bs: &[LinearSet],
    done: &mut Sequence<LinearSet>,
) -> Result<(), AllocError>
    requires { HasRoom (set_view a.now) (sets_view bs.now) }
    ensures { OnOk result (sets_view done.new ≡ sets_view done.old ++ map (set_product_of most_tags (set_view a.now)) (sets_view bs.now)) }
{
    for b in bs {
        let both = set_product(alloc, a, b)?;
        done.push(both)?;
    }
    Ok(())
}

/// The products of each set of the first list with each of the second.
fn all_products(
    alloc: Global,
    sets: &[LinearSet],
    others: &[LinearSet],
) -> Result<Sequence<LinearSet>, AllocError>
    requires { HaveRoom (sets_view sets.now) (sets_view others.now) }
    ensures { IfOk result (λ done. sets_view done ≡ products_of most_tags (sets_view sets.now) (sets_view others.now)) }
{
    let mut done = Sequence::new(alloc);
    for a in sets {
        push_row(alloc, a, others, &mut done)?;
    }
    Ok(done)
}

/// The products of each set of the first list with each of the second, if they are not too many.
pub fn products(
    alloc: Global,
    sets: &[LinearSet],
    others: &[LinearSet],
) -> Result<Sequence<LinearSet>, FormError>
    requires { HaveRoom (sets_view sets.now) (sets_view others.now) }
    ensures { let made = products_of most_tags (sets_view sets.now) (sets_view others.now) in GivesSets result (is_short made) made }
{
    if sets.len().saturating_mul(others.len()) > MOST_SETS {
        return Err(FormError::TooLarge);
    }
    let done = all_products(alloc, sets, others)?;
    Ok(done)
}

/// The same of lists that are given away. Mostly each is of one set.
pub fn product(
    alloc: Global,
    sets: Sequence<LinearSet>,
    others: Sequence<LinearSet>,
) -> Result<Sequence<LinearSet>, FormError>
    requires { HaveRoom (sets_view sets) (sets_view others) }
    ensures { let made = products_of most_tags (sets_view sets) (sets_view others) in GivesSets result (is_short made) made }
{
    if sets.len() == 1
        && let [other] = others.as_slice()
    {
        let done = one_product(sets, other)?;
        return Ok(done);
    }
    products(alloc, sets.as_slice(), others.as_slice())
}
