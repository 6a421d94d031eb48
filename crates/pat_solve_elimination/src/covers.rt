// Closed forms of the sides of constraints, with their variables replaced, and whether one is directly covered by another.
ghost use Rattle.pat_solve_elimination.specs.covers.Fits.{FitsLaw};

mod covering;
mod sides;

pub use covering::is_covered;
pub use sides::side_form;

/// When a closed-form assignment isn't too large: by both rounds, and by closed forms of replaced sides.
pub fn fits_law()
    ensures { FitsLaw }
{}
