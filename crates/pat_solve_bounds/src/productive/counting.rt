// How many variables the signatures have.
ghost use Rattle.std.specs.Prelude.{◌≡◌, ◌<◌, ◌^◌, map};
ghost use Rattle.pat_type_schemes_spec.specs.Signatures.{omits as omits_of};
ghost use Rattle.pat_core.specs.Views.{sort_view, function_view};
ghost use Rattle.pat_solve_bounds.specs.productive.Counts.{omitted_by_all, omitted_by, omitted_in};

use pat_core::{Function, Sort};

/// The number of mailbox types in signatures whose patterns aren't written.
pub fn count_omitted(functions: &[Function]) -> usize
    requires { omitted_by_all (map function_view functions.now) < 2 ^ 64 }
    ensures { result ≡ omitted_by_all (map function_view functions.now) }
{
    let mut count = 0;
    for function in functions {
        count += count_of_function(function);
    }
    count
}

fn count_of_function(function: &Function) -> usize
    requires { omitted_by (function_view function.now) < 2 ^ 64 }
    ensures { result ≡ omitted_by (function_view function.now) }
{
    count_in(function.params.as_slice()) + omits(&function.result)
}

fn count_in(sorts: &[Sort]) -> usize
    requires { omitted_in (map sort_view sorts.now) < 2 ^ 64 }
    ensures { result ≡ omitted_in (map sort_view sorts.now) }
{
    let mut count = 0;
    for sort in sorts {
        count += omits(sort);
    }
    count
}

/// 1 where it is a mailbox type whose pattern isn't written, and otherwise 0.
fn omits(sort: &Sort) -> usize
    ensures { result ≡ omits_of (sort_view sort.now) }
{
    match sort {
        Sort::Base(_) => 0,
        Sort::Mailbox(mailbox) => match &mailbox.pattern {
            Some(_) => 0,
            None => 1,
        },
    }
}
