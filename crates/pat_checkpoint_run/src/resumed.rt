// Runs that go on from a checkpoint.
ghost use Rattle.std.specs.Prelude.{◌≡◌, ◌≤◌, map, IfOk};
ghost use Rattle.pat_semantics_spec.specs.WellFormed.{WellFormed};
ghost use Rattle.pat_core.specs.Views.{program_view};
ghost use Rattle.pat_derivation_spec.specs.Derivations.{Derivation};
ghost use Rattle.pat_reduce.specs.Views.{config_view, entry_view};
ghost use Rattle.pat_machine.specs.Gives.{outcome_view};
ghost use Rattle.pat_checkpoint_spec.specs.Checked.{IsChecked};
ghost use Rattle.pat_checkpoint_spec.specs.Resumed.{IsResumed};
ghost use Rattle.pat_checkpoint_data.specs.Views.{checkpoint_view};
ghost use Rattle.pat_limits.specs.Limits.{most_steps};
ghost use Rattle.pat_checkpoint_run.specs.NextNumbers.{most_next_number};

use crate::course::run_turns;
use crate::mailboxes::FirstMailboxes;
use crate::outcome::outcome_of;
use pat_checkpoint_data::Checkpoint;
use pat_checkpoint_laws::{checked_laws, made_laws, resumed_laws};
use pat_machine::Outcome;
use pat_reduce::{Config, Entry};
use pat_reduce_values::Executable;
use pat_sequences::Sequence;
use std::alloc::{AllocError, Global};

/// A run that went on from a checkpoint: its history, the configuration that it led to, the interface of each mailbox that is live there, and
/// how it ended.
pub struct Resumed {
    pub entries: Sequence<Entry>,
    pub config: Config,
    pub interfaces: Sequence<u32>,
    pub outcome: Outcome,
}

impl Resumed {
    /// The history, the configuration that it led to, the interfaces of its live mailboxes, and how the run ended.
    pub fn into_parts(self) -> (Sequence<Entry>, Config, Sequence<u32>, Outcome)
        ensures entries { result.0 ≡ self.entries }
        ensures config { result.1 ≡ self.config }
        ensures interfaces { result.2 ≡ self.interfaces }
        ensures outcome { result.3 ≡ self.outcome }
    {
        let Resumed {
            entries,
            config,
            interfaces,
            outcome,
        } = self;
        (entries, config, interfaces, outcome)
    }
}

// By hand, field by field: a derived drop is proved anew in each crate that may drop the value.
impl Drop for Resumed {
    fn drop(self) {
        let Resumed {
            entries: _,
            config: _,
            interfaces: _,
            outcome: _,
        } = self;
    }
}

/// Goes on from a checked checkpoint with at most so many steps, by turns of worker 0, and without a limit on messages. The configuration
/// has the lines that were printed since, behind those of the checkpoint's.
pub fn run_from(
    alloc: Global,
    code: &Executable,
    checkpoint: Checkpoint,
    steps: u64,
) -> Result<Resumed, AllocError>
    requires well_formed { WellFormed (program_view code.now.program) }
    requires checked { (d : Derivation) × IsChecked (program_view code.now.program) d (checkpoint_view checkpoint) }
    requires steps { steps ≤ most_steps }
    requires threads { checkpoint.config.next_thread ≤ most_next_number }
    requires mailboxes { checkpoint.config.next_mailbox ≤ most_next_number }
    requires messages { checkpoint.config.next_message ≤ most_next_number }
    ensures { IfOk result (λ r. (d : Derivation) → IsChecked (program_view code.now.program) d (checkpoint_view checkpoint)
        → IsResumed (program_view code.now.program) d (checkpoint_view checkpoint) steps (map entry_view r.entries)
        (config_view r.config) r.interfaces (outcome_view r.outcome)) }
{
    // Laws: what is checked is typed, so it is in order; its turns are a run that goes on from it; and which interfaces mailboxes have.
    checked_laws();
    resumed_laws();
    made_laws();
    let (config, interfaces, _, _) = checkpoint.into_parts();
    let first = FirstMailboxes::of(alloc, &config, interfaces)?;
    let course = run_turns(alloc, code, config, steps)?;
    let live = course.config.live.as_slice();
    let interfaces = first.interfaces_of(alloc, course.made.as_slice(), live)?;
    let outcome = outcome_of(code, &course.config);
    Ok(Resumed {
        entries: course.entries,
        config: course.config,
        interfaces,
        outcome,
    })
}
