// Whether one list of sets is directly covered by another.
ghost use Rattle.std.specs.Prelude.{◌<◌, ◌^◌, ◌↔◌, length, IfOk, IsTrue};
ghost use Rattle.pat_inclusion_spec.specs.Covers.{IsDirectlyCovered};
ghost use Rattle.pat_linear.specs.Views.{sets_view};

use pat_cover_certificates::find_cover;
use pat_linear::LinearSet;
use std::alloc::{AllocError, Global};

/// Whether the one list of sets is directly covered by the other.
pub fn is_covered(
    alloc: Global,
    left: &[LinearSet],
    right: &[LinearSet],
) -> Result<bool, AllocError>
    requires { length right.now < 2 ^ 32 }
    ensures { IfOk result (λ yes. IsTrue yes ↔ IsDirectlyCovered (sets_view left.now) (sets_view right.now)) }
{
    let found = find_cover(alloc, left, right)?;
    Ok(found.is_some())
}
