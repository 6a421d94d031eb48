// The start of a program, as a checkpoint.
ghost use Rattle.std.specs.Prelude.{◌≡◌, map, IfOk};
ghost use Rattle.pat_core.specs.Views.{program_view};
ghost use Rattle.pat_reduce.specs.Views.{threads_view};
ghost use Rattle.pat_checkpoint_spec.specs.Resumed.{no_certs, start_checkpoint};
ghost use Rattle.pat_checkpoint_data.specs.Views.{checkpoint_view, part_certs_view};

use pat_checkpoint_data::{Checkpoint, PartCerts};
use pat_reduce::{Config, ThreadState};
use pat_reduce_values::Executable;
use pat_sequences::Sequence;
use std::alloc::{AllocError, Global};

/// The start of the program as a checkpoint: nothing is live, and nothing needs a certificate.
pub fn start_checkpoint(alloc: Global, code: &Executable) -> Result<Checkpoint, AllocError>
    ensures { IfOk result (λ x. checkpoint_view x ≡ start_checkpoint (program_view code.now.program)) }
{
    let config = Config::start(alloc, code)?;
    let part_certs = without_certs(alloc, config.threads.as_slice())?;
    Ok(Checkpoint {
        config,
        interfaces: Sequence::new(alloc),
        mailbox_certs: Sequence::new(alloc),
        part_certs,
    })
}

// No certificate for each of these threads, which have no frames.
fn without_certs(
    alloc: Global,
    threads: &[(u32, ThreadState)],
) -> Result<Sequence<PartCerts>, AllocError>
    ensures { IfOk result (λ certs. map part_certs_view certs ≡ map (λ e. no_certs) (threads_view threads.now)) }
{
    let mut certs = Sequence::new(alloc);
    for _thread in threads {
        certs.push(PartCerts::bare())?;
    }
    Ok(certs)
}
