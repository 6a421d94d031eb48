// Why a problem isn't solved.
ghost use Rattle.std.specs.Prelude.{◌≡◌};
ghost use Rattle.pat_solve_bounds.specs.declared.results.error.SolveError.TheVariants.{NoMemory};

use pat_witnesses::Refutation;
use std::alloc::{AllocError, AllocFailed};

/// Why a problem isn't solved. Variables are numbered from 1, interfaces and constraints from 0.
#[derive(Drop)]
pub enum SolveError {
    /// No word is derivable for this sending variable of a signature.
    Unusable {
        variable: u32,
    },
    /// The values of this interface are too large, or each tree that refutes one of its constraints is.
    TooLarge {
        interface: u32,
    },
    /// The word is derivable for the left side of this constraint, by the tree, and isn't one of the right side.
    Refuted {
        constraint: u32,
        refutation: Refutation,
    },
    /// This constraint isn't directly covered, and its interface is out of bounds.
    Undecided {
        constraint: u32,
    },
    NoMemory,
}

impl From<AllocError> for SolveError {
    ghost from_gives = { λ _ e. e ≡ NoMemory };

    fn from(_: AllocError) -> Self {
        SolveError::NoMemory
    }
}

impl<T: Drop> From<AllocFailed<T>> for SolveError {
    ghost from_gives = { λ _ e. e ≡ NoMemory };

    fn from(_: AllocFailed<T>) -> Self {
        SolveError::NoMemory
    }
}
