// The generated program of a size, treated as the input of `run` is.
ghost use Rattle.std.specs.Prelude.{◌≤◌, IfOk};
ghost use Rattle.pat_run.specs.options.Options.{IsWithin};
ghost use Rattle.pat_command_run.specs.Runners.{IsRunner};
ghost use Rattle.pat_command_run.specs.load.Allowed.{AllowedLoad};

use crate::{Detail, answer_run};
use pat_front::Answer;
use pat_input::lex_bytes;
use pat_load::program_text;
use pat_run::{Finished, RunOptions};
use pat_typed_program::Accepted;
use std::alloc::{AllocError, Global};

/// What `load` with this size and these options answers, where a program is run so.
pub fn answer_load<F: Fn(Accepted, RunOptions) -> Result<Finished, AllocError>>(
    alloc: Global,
    run: &F,
    size: u32,
    options: RunOptions,
) -> Result<Answer, AllocError>
    requires runner { IsRunner (F.pre run.now) (F.post run.now) }
    requires few { size ≤ 1000 }
    requires within { IsWithin options }
    ensures { IfOk result (λ a. AllowedLoad size options a.text.items a.status) }
{
    let text = program_text(alloc, size)?;
    let input = lex_bytes(alloc, text.as_slice())?;
    answer_run(alloc, run, Detail::Summary, options, input)
}
