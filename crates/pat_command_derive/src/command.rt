// The derivation of the program of an input, as text.
ghost use Rattle.std.specs.Prelude.{ℕ, List, IfOk};
ghost use Rattle.pat_core.specs.Views.{program_view};
ghost use Rattle.pat_derivations.specs.Views.{derivation_view};
ghost use Rattle.pat_input.specs.Inputs.{IsRead};
ghost use Rattle.pat_typecheck.specs.Checks.{IsChecked};
ghost use Rattle.pat_command_derive.specs.Allowed.{AllowedDerive, SaysDerivation};

use pat_core::Program;
use pat_deriv::write;
use pat_derivations::Derivation;
use pat_front::{Answer, Status};
use pat_input::Input;
use pat_typecheck::{Checked, check_input};
use std::alloc::{AllocError, Global};

/// What `derive` answers on this input.
pub fn answer_derive(alloc: Global, input: Input) -> Result<Answer, AllocError>
    requires { (bytes : List ℕ) × IsRead bytes input }
    ensures { (bytes : List ℕ) → IsRead bytes input → IfOk result (λ a. AllowedDerive bytes a.text.items a.status) }
{
    let found = check_input(alloc, input)?;
    answer_of(alloc, found)
}

fn answer_of(alloc: Global, found: Checked) -> Result<Answer, AllocError>
    ensures { (bytes : List ℕ) → IsChecked bytes found → IfOk result (λ a. AllowedDerive bytes a.text.items a.status) }
{
    match found {
        Checked::Accepted(program, derivation) => written(alloc, program, derivation),
        Checked::Refused(answer) => Ok(answer),
    }
}

fn written(alloc: Global, program: Program, derivation: Derivation) -> Result<Answer, AllocError>
    ensures { IfOk result (λ a. SaysDerivation (program_view program) (derivation_view derivation) a.text.items a.status) }
{
    let text = write(alloc, &program, &derivation)?;
    Ok(Answer {
        text,
        status: Status::Ok,
    })
}
