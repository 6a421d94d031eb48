// How a configuration stands.
ghost use Rattle.std.specs.Prelude.{◌≡◌, option_map};
ghost use Rattle.pat_core.specs.Views.{program_view};
ghost use Rattle.pat_reduce.specs.Views.{config_view};
ghost use Rattle.pat_history.specs.run_reports.Gives.{outcome_view};
ghost use Rattle.pat_replay_input.specs.Histories.{standing};

use pat_history::Outcome;
use pat_reduce::Config;
use pat_reduce_values::Executable;

/// Done, waiting, or none of them, where a thread is left and a step is enabled.
pub fn standing_of(code: &Executable, config: &Config) -> Option<Outcome>
    ensures { option_map outcome_view result ≡ standing (program_view code.now.program) (config_view config.now) }
{
    if config.threads.is_empty() {
        return Some(Outcome::Done);
    }
    match config.ready_thread(code) {
        Some(_) => None,
        None => Some(Outcome::Waiting),
    }
}
