// What variables give way to.
ghost use Rattle.std.specs.Prelude.{◌≡◌, nat_eq, length, option_map};
ghost use Rattle.std.specs.Map.{lookup};
ghost use Rattle.pat_solve_bounded.specs.Views.{measured_view, measured_list};
ghost use Rattle.pat_solve_bounded.specs.replacing.Ascending.{IsAscending, paired};

use crate::replacing::searching::find_variable;
use crate::{Measured, Part};

/// What variables give way to.
#[derive(Clone, Copy)]
pub enum Replacement<'a> {
    /// One variable to a pattern; all others stay.
    One(u32, &'a Measured),
    /// Variables in ascending order to the values at the same places; all others to 0.
    All(&'a [u32], &'a [Measured]),
    /// The same, but all others stay.
    Listed(&'a [u32], &'a [Measured]),
}

impl<'a> Replacement<'a> {
    ghost use Rattle.pat_solve_bounded.specs.Views.{part_view};
    ghost use Rattle.pat_solve_bounded.specs.replacing.Replacing.{replaced_by, IsReplacement};

    /// What the variable gives way to.
    pub fn value_of(&self, variable: u32) -> Part<'a>
        requires { IsReplacement self.now }
        ensures { part_view result ≡ replaced_by self.now variable }
    {
        match self {
            Replacement::One(own, value) => {
                if variable == *own {
                    Part::Held(value)
                } else {
                    Part::Made(Measured::variable(variable))
                }
            }
            Replacement::All(variables, values) => {
                match value_among(variables, values, variable) {
                    Some(value) => Part::Held(value),
                    None => Part::Made(Measured::zero()),
                }
            }
            Replacement::Listed(variables, values) => {
                match value_among(variables, values, variable) {
                    Some(value) => Part::Held(value),
                    None => Part::Made(Measured::variable(variable)),
                }
            }
        }
    }
}

/// The value at the place of the variable, if it has one.
pub fn value_among<'a>(
    variables: &'a [u32],
    values: &'a [Measured],
    variable: u32,
) -> Option<&'a Measured>
    requires ascending { IsAscending variables.now }
    requires as_many { length variables.now ≡ length values.now }
    ensures { option_map (λ v. measured_view v.now) result ≡ lookup (nat_eq variable) (paired variables.now (measured_list values.now)) }
{
    match find_variable(variables, variable) {
        Some(place) => Some(&values[place]),
        None => None,
    }
}
