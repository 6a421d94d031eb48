// Whether a pattern has a word, by what is known of its variables.
//
// These calls go as deep as the pattern, the left side of a constraint. Inference makes none deeper than statements, brackets and
// operators nest in a text, which is some 17,000 levels.
ghost use Rattle.std.specs.Prelude.{◌≡◌};
ghost use Rattle.pat_inclusion_spec.specs.Under.{inhabited_under};
ghost use Rattle.pat_patterns.specs.Views.{pattern_view};
ghost use Rattle.pat_solve_bounds.specs.productive.Flags.{flag_of};

use pat_patterns::Pattern;

/// The flag of the variable.
pub fn flag(flags: &[bool], variable: usize) -> bool
    ensures { result ≡ flag_of flags.now variable }
{
    match flags.get(variable) {
        Some(flag) => *flag,
        None => false,
    }
}

/// Whether the pattern has a word, where the flag of a variable says so of it.
pub fn has_word(flags: &[bool], p: &Pattern) -> bool
    ensures { result ≡ inhabited_under (flag_of flags.now) (pattern_view p.now) }
{
    match p {
        Pattern::Zero => false,
        Pattern::One | Pattern::Tag(_) | Pattern::Star(_) => true,
        Pattern::Sum(left, right) => has_word(flags, left) || has_word(flags, right),
        Pattern::Prod(left, right) => has_word(flags, left) && has_word(flags, right),
        Pattern::Var(number) => flag(flags, *number as usize),
    }
}
