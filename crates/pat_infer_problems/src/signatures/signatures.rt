// One pass over all signatures: their types, and the variables of those that leave a pattern out.
ghost use Rattle.std.specs.Prelude.{◌≡◌, ◌+◌, [], ◌∷◌, length, map, option_map, IfOk, OnOk};
ghost use Rattle.std.specs.List.{flat_map};
ghost use Rattle.pat_words_spec.specs.Patterns.{Var};
ghost use Rattle.pat_type_system_spec.specs.Typings.{sort_type, result_of, param_usage};
ghost use Rattle.pat_type_schemes_spec.specs.Signatures.{omits, signature_vars};
ghost use Rattle.pat_primitives.specs.Views.{polarity_view};
ghost use Rattle.pat_patterns.specs.Views.{pattern_view};
ghost use Rattle.pat_core.specs.Views.{sort_view, function_view, program_view};
ghost use Rattle.pat_types.specs.Views.{usage_view, type_view, result_view};
ghost use Rattle.pat_infer_problems.specs.Views.{placed_variable};
ghost use Rattle.pat_infer_problems.specs.Growing.{Grows};
ghost use Rattle.pat_infer_problems.specs.signatures.Opened.{open_params, params_end, signature_of, signature_end, signatures_from, signatures_end};
ghost use Rattle.pat_infer_problems.specs.signatures.Views.{signature_view, own_variable, function_variables, written_or};

use crate::{Problem, VarDecl, add_variable};
use pat_core::{Function, MailboxSort, Program, Sort};
use pat_patterns::Pattern;
use pat_primitives::Polarity;
use pat_sequences::Sequence;
use pat_types::{MailboxType, TypeOf, Usage};
use std::alloc::{AllocError, Global};

/// The types of a function's signature: those of its parameters, in order, where they are mailboxes, and that of its result.
#[derive(Drop)]
pub struct Signature {
    pub params: Sequence<Option<MailboxType>>,
    pub result: TypeOf,
}

/// The signatures of all functions, in order. Their variables are added to the problem.
pub fn open_signatures(
    alloc: Global,
    program: &Program,
    problem: &mut Problem,
) -> Result<Sequence<Signature>, AllocError>
    requires { problem.old.vars ≡ [] }
    ensures signatures { IfOk result (λ s. map signature_view s ≡ signatures_from 1 (program_view program.now).functions) }
    ensures grows { OnOk result (Grows problem.old problem.new
        (map (placed_variable program.now) (signature_vars (program_view program.now))) [] []) }
{
    open_functions(alloc, program.functions.as_slice(), problem)
}

fn open_functions(
    alloc: Global,
    functions: &[Function],
    problem: &mut Problem,
) -> Result<Sequence<Signature>, AllocError>
    ensures signatures { IfOk result (λ s. map signature_view s
        ≡ signatures_from (1 + length problem.old.vars) (map function_view functions.now)) }
    ensures grows { OnOk result (Grows problem.old problem.new (flat_map function_variables functions.now) [] []) }
{
    let mut signatures = Sequence::new(alloc);
    for function in functions {
        let signature = open_function(alloc, function, problem)?;
        signatures.push(signature)?;
    }
    Ok(signatures)
}

fn open_function(
    alloc: Global,
    function: &Function,
    problem: &mut Problem,
) -> Result<Signature, AllocError>
    ensures signature { IfOk result (λ s. signature_view s ≡ signature_of (1 + length problem.old.vars) (function_view function.now)) }
    ensures grows { OnOk result (Grows problem.old problem.new (function_variables function.now) [] []) }
    ensures count { OnOk result (1 + length problem.new.vars ≡ signature_end (1 + length problem.old.vars) (function_view function.now)) }
{
    let params = open_parameters(alloc, function.params.as_slice(), problem)?;
    let result = open_result(&function.result, problem)?;
    Ok(Signature { params, result })
}

fn open_parameters(
    alloc: Global,
    sorts: &[Sort],
    problem: &mut Problem,
) -> Result<Sequence<Option<MailboxType>>, AllocError>
    ensures types { IfOk result (λ os. map (option_map type_view) os
        ≡ open_params (1 + length problem.old.vars) (map sort_view sorts.now)) }
    ensures grows { OnOk result (Grows problem.old problem.new (flat_map own_variable sorts.now) [] []) }
    ensures count { OnOk result (1 + length problem.new.vars ≡ params_end (1 + length problem.old.vars) (map sort_view sorts.now)) }
{
    let mut types = Sequence::from_vec(Vec::with_capacity(alloc, sorts.len())?);
    for sort in sorts {
        let of = open_parameter(sort, problem)?;
        types.push(of)?;
    }
    Ok(types)
}

fn open_parameter(sort: &Sort, problem: &mut Problem) -> Result<Option<MailboxType>, AllocError>
    ensures of { IfOk result (λ o. option_map type_view o ≡ sort_type (Var (1 + length problem.old.vars)) (sort_view sort.now)) }
    ensures grows { OnOk result (Grows problem.old problem.new (own_variable sort.now) [] []) }
    ensures count { OnOk result (1 + length problem.new.vars ≡ 1 + length problem.old.vars + omits (sort_view sort.now)) }
{
    match sort {
        Sort::Base(_) => Ok(None),
        Sort::Mailbox(mailbox) => {
            let pattern = open_pattern(mailbox, problem)?;
            Ok(Some(MailboxType {
                interface: mailbox.interface,
                polarity: mailbox.polarity,
                pattern,
                usage: parameter_usage(mailbox.polarity),
            }))
        }
    }
}

fn open_result(sort: &Sort, problem: &mut Problem) -> Result<TypeOf, AllocError>
    ensures of { IfOk result (λ t. result_view t ≡ result_of (Var (1 + length problem.old.vars)) (sort_view sort.now)) }
    ensures grows { OnOk result (Grows problem.old problem.new (own_variable sort.now) [] []) }
    ensures count { OnOk result (1 + length problem.new.vars ≡ 1 + length problem.old.vars + omits (sort_view sort.now)) }
{
    match sort {
        Sort::Base(base) => Ok(TypeOf::Base(*base)),
        Sort::Mailbox(mailbox) => {
            let pattern = open_pattern(mailbox, problem)?;
            Ok(TypeOf::Mailbox {
                interface: mailbox.interface,
                polarity: mailbox.polarity,
                pattern,
            })
        }
    }
}

/// The written pattern, or a new variable.
fn open_pattern(mailbox: &MailboxSort, problem: &mut Problem) -> Result<Pattern, AllocError>
    ensures pattern { IfOk result (λ e. pattern_view e
        ≡ written_or (Var (1 + length problem.old.vars)) (option_map pattern_view mailbox.now.pattern)) }
    ensures grows { OnOk result (Grows problem.old problem.new (own_variable (Sort.Mailbox mailbox.now)) [] []) }
    ensures count { OnOk result (1 + length problem.new.vars ≡ 1 + length problem.old.vars + omits (sort_view (Sort.Mailbox mailbox.now))) }
{
    match &mailbox.pattern {
        Some(pattern) => pattern.copy(),
        None => {
            let number = add_variable(
                problem,
                VarDecl {
                    interface: mailbox.interface,
                    polarity: mailbox.polarity,
                    span: mailbox.span,
                },
            )?;
            Ok(Pattern::Var(number))
        }
    }
}

/// A receiving parameter is returnable, a sending one second-class.
fn parameter_usage(polarity: Polarity) -> Usage
    ensures { usage_view result ≡ param_usage (polarity_view polarity) }
{
    match polarity {
        Polarity::Sending => Usage::Second,
        Polarity::Receiving => Usage::Returnable,
    }
}
