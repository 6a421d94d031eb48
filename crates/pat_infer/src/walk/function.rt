// The walk of a function: its body, and the names of its parameters.
ghost use Rattle.std.specs.Prelude.{◌≡◌, ◌+◌, ◌++◌, Some, length, map, option_map, slice_get, IfOk, OnOk};
ghost use Rattle.pat_infer_spec.specs.Binders.{names_bound, param_names};
ghost use Rattle.pat_infer_spec.specs.Walk.{walk_function as found_of_function};
ghost use Rattle.pat_core.specs.Views.{program_view, function_view, sort_view};
ghost use Rattle.pat_types.specs.Views.{type_view, needs_view};
ghost use Rattle.pat_infer_problems.specs.signatures.Views.{signature_view};
ghost use Rattle.pat_infer_environments.specs.Types.{types_at};
ghost use Rattle.pat_infer_terms.specs.Views.{binder_view};
ghost use Rattle.pat_infer.specs.walk.Walking.{IsSigned, Finds};

use crate::walk::walk::{Signed, walk};
use pat_core::{Function, Program, Sort};
use pat_infer_problems::{InferError, Problem, Signature};
use pat_infer_terms::{Binder, bind_at, check_names, constrain_names};
use pat_sequences::Sequence;
use pat_types::MailboxType;
use std::alloc::{AllocError, Global};

/// Walks a function, whose number and signature these are: adds to the problem just the variables, constraints and types of
/// nodes that backward typing finds in it, or answers the first broken rule with its place, or want of memory.
pub fn walk_function(
    alloc: Global,
    signed: &Signed,
    number: usize,
    function: &Function,
    signature: &Signature,
    problem: &mut Problem,
) -> Result<(), InferError>
    requires signed { IsSigned signed.now }
    requires function { slice_get (program_view signed.now.program.now).functions number ≡ Some (function_view function.now) }
    requires signature { slice_get (map signature_view signed.now.signatures.now) number ≡ Some (signature_view signature.now) }
    ensures { Finds signed.now.program.now problem.old problem.new result
        (found_of_function (program_view signed.now.program.now) number (function_view function.now)
        (1 + length problem.old.vars)) }
{
    let levels = signed.program.nodes.len();
    let needs = walk(
        alloc,
        signed,
        levels,
        function.body,
        &signature.result,
        problem,
    )?;
    let binders = binders_of(alloc, function, signature, needs.as_slice())?;
    check_names(signed.program, number, binders.as_slice())?;
    constrain_names(signed.program, number, binders.as_slice(), problem)?;
    Ok(())
}

/// The parameters with their types, and what is needed of them.
fn binders_of(
    alloc: Global,
    function: &Function,
    signature: &Signature,
    needs: &[(u32, MailboxType)],
) -> Result<Sequence<Binder>, AllocError>
    ensures { IfOk result (λ bs. map binder_view bs
        ≡ names_bound (types_at (signature_view signature.now).params) 0 (param_names 0 (function_view function.now).params)
        (needs_view needs.now)) }
{
    bind_parameters(
        alloc,
        function.params.as_slice(),
        signature.params.as_slice(),
        needs,
    )
}

/// Parameters are the first variables.
fn bind_parameters(
    alloc: Global,
    params: &[Sort],
    types: &[Option<MailboxType>],
    needs: &[(u32, MailboxType)],
) -> Result<Sequence<Binder>, AllocError>
    ensures { IfOk result (λ bs. map binder_view bs
        ≡ names_bound (types_at (map (option_map type_view) types.now)) 0 (param_names 0 (map sort_view params.now))
        (needs_view needs.now)) }
{
    let mut binders = Sequence::new(alloc);
    for place in 0..params.len() {
        bind_at(types, place, place, needs, &mut binders)?;
    }
    Ok(binders)
}
