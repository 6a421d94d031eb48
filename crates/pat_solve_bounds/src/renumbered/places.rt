// Places of variables.
ghost use Rattle.std.specs.Prelude.{◌≡◌, IfOk};
ghost use Rattle.pat_solve_bounded.specs.replacing.Ascending.{IsAscending};
ghost use Rattle.pat_solve_bounds.specs.renumbered.Renaming.{place_in};

use pat_solve_bounded::find_variable;
use std::alloc::AllocError;

/// The place of the variable among ascending ones, or their number where it isn't there. Want of memory comes where that is 2^32 or
/// more.
pub fn place_of(variables: &[u32], variable: u32) -> Result<u32, AllocError>
    requires { IsAscending variables.now }
    ensures { IfOk result (λ place. place ≡ place_in variables.now variable) }
{
    match u32::try_from(place_among(variables, variable)) {
        Ok(place) => Ok(place),
        Err(_) => Err(AllocError),
    }
}

fn place_among(variables: &[u32], variable: u32) -> usize
    requires { IsAscending variables.now }
    ensures { result ≡ place_in variables.now variable }
{
    match find_variable(variables, variable) {
        Some(place) => place,
        None => variables.len(),
    }
}
