// What a machine is made of.
ghost use Rattle.std.specs.Prelude.{◌≡◌, ℕ, ◌<◌, ◌≤◌, [], IfOk};
ghost use Rattle.pat_semantics_spec.specs.WellFormed.{WellFormed};
ghost use Rattle.pat_type_system_spec.specs.Typings.{IsTypable};
ghost use Rattle.pat_core.specs.Views.{program_view};
ghost use Rattle.pat_machine_spec.specs.Lendings.{all_in};
ghost use Rattle.pat_machine.specs.Parted.{shown, IsKept};
ghost use Rattle.pat_machine.specs.Shown.{IsNew, places_for};
ghost use Rattle.pat_limits.specs.Limits.{most_steps};

use pat_core::Program;
use pat_machine_indexes::ReadySets;
use pat_machine_steps::{IndexedConfig, RefCounts};
use pat_reduce::Entry;
use pat_reduce_values::Executable;
use std::alloc::{AllocError, Global};

/// The parts of a machine, which a commit changes one after another.
#[derive(Drop)]
pub struct Parts {
    pub alloc: Global,
    pub code: Executable,
    pub state: IndexedConfig,
    /// How often each mailbox is named.
    pub names: RefCounts,
    /// The threads that may go on, those that are about to send, and those that sleep.
    pub waits: ReadySets,
    pub history: Vec<Entry>,
    pub budget: u64,
    pub limit: u32,
    /// The steps that are neither in the history nor lent.
    pub left: u64,
    /// All allowances that are out.
    pub lent: u64,
    /// The allowances by thread number.
    pub out: Vec<Option<u32>>,
    /// Space for the mailboxes that a thread names before a commit.
    pub named: Vec<u32>,
    pub last: Option<u32>,
}

impl Parts {
    /// The start of a program that can be typed, with no entry and no job.
    pub fn new(
        alloc: Global,
        program: Program,
        steps: u64,
        messages: u32,
    ) -> Result<Parts, AllocError>
        requires well { WellFormed (program_view program) }
        requires typable { IsTypable (program_view program) }
        requires steps { steps ≤ most_steps }
        requires messages { 0 < messages }
        ensures kept { IfOk result IsKept }
        ensures start { IfOk result (λ m. IsNew program steps messages (shown m)) }
    {
        let code = Executable::new(alloc, program)?;
        let state = IndexedConfig::start(alloc, &code, places_for(steps, messages))?;
        let waits = ReadySets::start(alloc)?;
        let out = nobody_out(alloc, state.threads_made())?;
        Ok(Parts {
            alloc,
            code,
            state,
            names: RefCounts::new(alloc),
            waits,
            history: Vec::new(alloc),
            budget: steps,
            limit: messages,
            left: steps,
            lent: 0,
            out,
            named: Vec::new(alloc),
            last: None,
        })
    }
}

// How many messages may ever be pending together: no more than the limit, and no more than steps are taken.
fn places_for(steps: u64, messages: u32) -> u32
    ensures { result ≡ places_for steps messages }
{
    steps.min(messages as u64) as u32
}

// A table of threads, none of which is out.
fn nobody_out(alloc: Global, threads: u32) -> Result<Vec<Option<u32>>, AllocError>
    ensures { IfOk result (λ out. out.items ≡ all_in threads) }
{
    let mut out = Vec::new(alloc);
    for _ in 0..threads {
        out.push(None)?;
    }
    Ok(out)
}
