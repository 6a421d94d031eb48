// An index of a problem: what belongs to each interface, and what bounds each variable from below; and the lower bounds that are
// within the limits.
ghost use Rattle.pat_solve_bounds.specs.lower_bounds.Laws.{IndexLaw};

mod bounds;
mod indexing;
mod rows;

pub use bounds::lower_bound;
pub use indexing::Index;

/// What an index says of the constraints and the variables that inference finds.
pub fn index_law()
    ensures { IndexLaw }
{}
