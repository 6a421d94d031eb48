// Look-ups of many variables in one environment.
ghost use Rattle.std.specs.Prelude.{◌≡◌, ◌<◌, ℕ, true, get_or, length, option_map, IsTrue, IfSome};
ghost use Rattle.pat_primitives.specs.Values.{eval, value_at};
ghost use Rattle.pat_core.specs.Views.{expr_view};
ghost use Rattle.pat_reduce_values.specs.declared.values.Value.{Value as CodeValue};
ghost use Rattle.pat_reduce_values.specs.Environments.{ascends_from};
ghost use Rattle.pat_reduce_values.specs.ValueViews.{env_view, reference_view};

use crate::evaluation::argument;
use crate::{Value, ValueRef};
use pat_core::Expr;

/// Up to how many expressions it is quicker to look through the values for each variable.
const FEW: usize = 8;

/// Whether the values of so many expressions are to be looked up by halves: many are, and the variables ascend.
pub fn is_by_halves(args: &[Expr], env: &[(u32, Value)]) -> bool
    ensures { IsTrue result → ascends_from 0 (env_view env.now) ≡ true }
{
    args.len() > FEW && ascends(env)
}

/// The value of an expression, if it has one; that of a variable is looked up by halves, if this is said.
#[inline(always)]
pub fn value_in<'a>(e: &'a Expr, env: &'a [(u32, Value)], by_halves: bool) -> Option<ValueRef<'a>>
    requires { IsTrue by_halves → ascends_from 0 (env_view env.now) ≡ true }
    ensures { option_map reference_view result ≡ eval (env_view env.now) (expr_view e.now) }
{
    match e {
        Expr::Var(variable) if by_halves => value_by_halves(env, *variable),
        e => argument(e, env),
    }
}

// Whether the variables are in ascending order.
fn ascends(env: &[(u32, Value)]) -> bool
    ensures { result ≡ ascends_from 0 (env_view env.now) }
{
    let mut least: u64 = 0;
    for (variable, _) in env {
        if least > *variable as u64 {
            return false;
        }
        least = *variable as u64 + 1;
    }
    true
}

// The value of a variable, if it has one, where the variables ascend.
fn value_by_halves(env: &[(u32, Value)], variable: u32) -> Option<ValueRef<'_>>
    requires { ascends_from 0 (env_view env.now) ≡ true }
    ensures { option_map reference_view result ≡ value_at (env_view env.now) variable }
{
    if let Some(place) = place_in_row(env, variable) {
        return Some(env[place].1.borrow());
    }
    match env.binary_search_by_key(&variable, |own| own.0) {
        Ok(place) => Some(env[place].1.borrow()),
        Err(_) => None,
    }
}

// Where the variable stands, if none is left out from it to the last one, which is mostly so.
fn place_in_row(env: &[(u32, Value)], variable: u32) -> Option<usize>
    ensures within { IfSome result (λ place. place < length env.now) }
    ensures there { IfSome result (λ place. (d : ℕ × CodeValue) → (get_or env.now place d).0 ≡ variable) }
{
    let last = env.last()?;
    let back = last.0.checked_sub(variable)?;
    let place = (env.len() - 1).checked_sub(back as usize)?;
    if env[place].0 == variable {
        Some(place)
    } else {
        None
    }
}
