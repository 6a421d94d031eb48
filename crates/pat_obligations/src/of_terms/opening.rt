// The types of all signatures, with a variable for each pattern that isn't written.
ghost use Rattle.std.specs.Prelude.{◌≡◌, ◌+◌, length, map, option_map, IfOk, OnOk};
ghost use Rattle.pat_words_spec.specs.Patterns.{Var};
ghost use Rattle.pat_type_system_spec.specs.Typings.{sort_type, result_of, param_usage};
ghost use Rattle.pat_type_schemes_spec.specs.Signatures.{omits, number_at, result_number};
ghost use Rattle.pat_primitives.specs.Views.{polarity_view};
ghost use Rattle.pat_patterns.specs.Views.{pattern_view};
ghost use Rattle.pat_core.specs.Views.{sort_view, function_view};
ghost use Rattle.pat_types.specs.Views.{usage_view, type_view, result_view};
ghost use Rattle.pat_obligations.specs.Views.{signature_view};
ghost use Rattle.pat_obligations.specs.of_terms.Opened.{written_or, omits_pattern, opened_params, opened, opened_from};

use crate::Signature;
use pat_core::{Function, MailboxSort, Sort};
use pat_patterns::Pattern;
use pat_primitives::Polarity;
use pat_sequences::Sequence;
use pat_types::{MailboxType, TypeOf, Usage};
use std::alloc::{AllocError, Global};

/// The signatures of functions, in order. Variables stand for the patterns that aren't written, numbered from 1.
pub fn signatures(alloc: Global, functions: &[Function]) -> Result<Sequence<Signature>, AllocError>
    ensures { IfOk result (λ all. map signature_view all ≡ opened_from 1 (map function_view functions.now)) }
{
    let mut all = Sequence::new(alloc);
    let mut next: u32 = 1;
    for function in functions {
        let signature = signature(alloc, function, &mut next)?;
        all.push(signature)?;
    }
    Ok(all)
}

fn signature(alloc: Global, function: &Function, next: &mut u32) -> Result<Signature, AllocError>
    ensures signature { IfOk result (λ s. signature_view s ≡ opened next.old (function_view function.now)) }
    ensures next { OnOk result (next.new ≡ result_number next.old (function_view function.now)
        + omits (function_view function.now).result) }
{
    let params = parameters(alloc, function.params.as_slice(), next)?;
    let result = result_type(&function.result, next)?;
    Ok(Signature { params, result })
}

fn parameters(
    alloc: Global,
    sorts: &[Sort],
    next: &mut u32,
) -> Result<Sequence<Option<MailboxType>>, AllocError>
    ensures types { IfOk result (λ types. map (option_map type_view) types ≡ opened_params next.old (map sort_view sorts.now)) }
    ensures next { OnOk result (next.new ≡ number_at next.old (map sort_view sorts.now) (length sorts.now)) }
{
    let mut types = Sequence::from_vec(Vec::with_capacity(alloc, sorts.len())?);
    for sort in sorts {
        let of = parameter(sort, next)?;
        types.push(of)?;
    }
    Ok(types)
}

fn parameter(sort: &Sort, next: &mut u32) -> Result<Option<MailboxType>, AllocError>
    ensures of { IfOk result (λ o. option_map type_view o ≡ sort_type (Var next.old) (sort_view sort.now)) }
    ensures next { OnOk result (next.new ≡ next.old + omits (sort_view sort.now)) }
{
    match sort {
        Sort::Base(_) => Ok(None),
        Sort::Mailbox(mailbox) => {
            let pattern = written(mailbox, next)?;
            Ok(Some(MailboxType {
                interface: mailbox.interface,
                polarity: mailbox.polarity,
                pattern,
                usage: parameter_usage(mailbox.polarity),
            }))
        }
    }
}

fn result_type(sort: &Sort, next: &mut u32) -> Result<TypeOf, AllocError>
    ensures of { IfOk result (λ t. result_view t ≡ result_of (Var next.old) (sort_view sort.now)) }
    ensures next { OnOk result (next.new ≡ next.old + omits (sort_view sort.now)) }
{
    match sort {
        Sort::Base(base) => Ok(TypeOf::Base(*base)),
        Sort::Mailbox(mailbox) => {
            let pattern = written(mailbox, next)?;
            Ok(TypeOf::Mailbox {
                interface: mailbox.interface,
                polarity: mailbox.polarity,
                pattern,
            })
        }
    }
}

/// The written pattern, or the next variable.
fn written(mailbox: &MailboxSort, next: &mut u32) -> Result<Pattern, AllocError>
    ensures pattern { IfOk result (λ e. pattern_view e ≡ written_or (Var next.old) (option_map pattern_view mailbox.now.pattern)) }
    ensures next { OnOk result (next.new ≡ next.old + omits_pattern (option_map pattern_view mailbox.now.pattern)) }
{
    match &mailbox.pattern {
        Some(pattern) => pattern.copy(),
        None => {
            let own = *next;
            *next = match own.checked_add(1) {
                None => return Err(AllocError),
                Some(number) => number,
            };
            Ok(Pattern::Var(own))
        }
    }
}

/// A receiving parameter is returnable, a sending one second-class.
fn parameter_usage(polarity: Polarity) -> Usage
    ensures { usage_view result ≡ param_usage (polarity_view polarity) }
{
    match polarity {
        Polarity::Sending => Usage::Second,
        Polarity::Receiving => Usage::Returnable,
    }
}
