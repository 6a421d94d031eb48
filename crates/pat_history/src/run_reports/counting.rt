// How many steps a history has.
ghost use Rattle.std.specs.Prelude.{◌≡◌, ◌<◌, ◌≤◌, length, map};
ghost use Rattle.pat_semantics_spec.specs.Runs.{entry_steps, step_count};
ghost use Rattle.pat_reduce.specs.Views.{entry_view};
ghost use Rattle.pat_limits.specs.Limits.{number_count};

use pat_reduce::Entry;

/// The number of steps of a history of fewer than 2^32 entries.
pub fn count_steps(entries: &[Entry]) -> u64
    requires { length entries.now < number_count }
    ensures { result ≡ step_count (map entry_view entries.now) }
{
    let mut steps: u64 = 0;
    for entry in entries {
        steps += steps_of(entry);
    }
    steps
}

fn steps_of(entry: &Entry) -> u64
    ensures steps { result ≡ length (entry_steps (entry_view entry.now)) }
    ensures small { result ≤ number_count }
{
    match entry.shared {
        Some(_) => entry.local as u64 + 1,
        None => entry.local as u64,
    }
}
