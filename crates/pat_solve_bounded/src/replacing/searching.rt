// The search for a variable among ascending ones.
ghost use Rattle.std.specs.Prelude.{◌≡◌, ◌≢◌, ◌<◌, ℕ, length, get_or, IfSome, IfNone};
ghost use Rattle.pat_solve_bounded.specs.replacing.Ascending.{IsAscending};

/// The place of the variable among ascending ones.
pub fn find_variable(variables: &[u32], variable: u32) -> Option<usize>
    requires { IsAscending variables.now }
    ensures some { IfSome result (λ place. (place < length variables.now) × (get_or variables.now place 0 ≡ variable)) }
    ensures none { IfNone result ((place : ℕ) → place < length variables.now → get_or variables.now place 0 ≢ variable) }
{
    match variables.binary_search(&variable) {
        Ok(place) => Some(place),
        Err(_) => None,
    }
}
