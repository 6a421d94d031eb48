// Whether the program of an input is accepted.
ghost use Rattle.std.specs.Prelude.{ℕ, List, IfOk};
ghost use Rattle.pat_input.specs.Inputs.{IsRead};
ghost use Rattle.pat_front.specs.exit_answers.Answers.{SaysAccepted};
ghost use Rattle.pat_typecheck.specs.Checks.{IsChecked};
ghost use Rattle.pat_command_check.specs.Allowed.{AllowedCheck};

use pat_front::{Answer, accepted_answer};
use pat_input::Input;
use pat_typecheck::{Checked, check_input};
use std::alloc::{AllocError, Global};

/// What `check` answers on this input.
pub fn answer_check(alloc: Global, input: Input) -> Result<Answer, AllocError>
    requires { (bytes : List ℕ) × IsRead bytes input }
    ensures { (bytes : List ℕ) → IsRead bytes input → IfOk result (λ a. AllowedCheck bytes a.text.items a.status) }
{
    let found = check_input(alloc, input)?;
    answer_of(alloc, found)
}

fn answer_of(alloc: Global, found: Checked) -> Result<Answer, AllocError>
    ensures { (bytes : List ℕ) → IsChecked bytes found → IfOk result (λ a. AllowedCheck bytes a.text.items a.status) }
{
    match found {
        Checked::Accepted(program, derivation) => accepted(alloc, (program, derivation)),
        Checked::Refused(answer) => Ok(answer),
    }
}

fn accepted<T: Drop>(alloc: Global, _accepted: T) -> Result<Answer, AllocError>
    ensures { IfOk result (λ a. SaysAccepted a.text.items a.status) }
{
    accepted_answer(alloc)
}
