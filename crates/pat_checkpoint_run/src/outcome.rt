// How a run ended.
ghost use Rattle.std.specs.Prelude.{◌≡◌, ℕ, Some, None};
ghost use Rattle.pat_semantics_spec.specs.Runs.{Outcome as OutcomeOf, outcome};
ghost use Rattle.pat_core.specs.Views.{program_view};
ghost use Rattle.pat_reduce.specs.Views.{config_view};
ghost use Rattle.pat_machine.specs.Gives.{outcome_view};

use pat_machine::Outcome;
use pat_reduce::Config;
use pat_reduce_values::Executable;

/// How a run ended that led to this configuration: where it ended at all and there was no limit on messages.
pub fn outcome_of(code: &Executable, config: &Config) -> Outcome
    ensures { (steps budget : ℕ) (o : OutcomeOf)
        → outcome (program_view code.now.program) (config_view config.now) steps budget None ≡ Some o → outcome_view result ≡ o }
{
    if config.threads.is_empty() {
        return Outcome::Done;
    }
    match config.ready_thread(code) {
        Some(_) => Outcome::Budget,
        None => Outcome::Waiting,
    }
}
