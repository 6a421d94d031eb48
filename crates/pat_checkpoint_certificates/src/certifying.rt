// Certificates of the lines of a configuration.
ghost use Rattle.std.specs.Prelude.{◌≡◌, ◌+◌, [], length, map, IsTrue, IfOk, IfErr};
ghost use Rattle.pat_semantics_spec.specs.WellFormed.{WellFormed};
ghost use Rattle.pat_derivation_spec.specs.Validity.{IsValid};
ghost use Rattle.pat_core.specs.Views.{program_view};
ghost use Rattle.pat_derivations.specs.Views.{derivation_view};
ghost use Rattle.pat_reduce.specs.Views.{threads_view, config_view};
ghost use Rattle.pat_checkpoint_data.specs.Views.{end_view, part_certs_view, checkpoint_view};
ghost use Rattle.pat_checkpoint_spec.specs.Checkpoints.{interfaces_of};
ghost use Rattle.pat_checkpoint_spec.specs.Checked.{stands_typed};
ghost use Rattle.pat_checkpoint_spec.specs.Resumed.{silent, silent_checkpoint};
ghost use Rattle.pat_checkpoint_spec.specs.Written.{lines_need};
ghost use Rattle.pat_checkpoint_certificates.specs.Certified.{CanBeCertified, IsCertified, IsUnshown};
ghost use Rattle.pat_checkpoint_certificates.specs.Searches.{program_in, scope_in, typing_in, bounds_in, IsSearch};
ghost use Rattle.pat_checkpoint_certificates.specs.Found.{IsUnshownFrom};
ghost use Rattle.pat_checkpoint_certificates.specs.Parts.{ThreadsFound};
ghost use Rattle.pat_checkpoint_certificates.specs.Balances.{BalancesCanBeShown, BalancesFound};

use crate::balances::certify_balances;
use crate::bounds::grid_bounds;
use crate::error::{CertifyError, line_after};
use crate::parts::certify_threads;
use crate::search::Search;
use pat_certificate_checks::plain_values;
use pat_checkpoint_balances::{bounds_of, sides_of};
use pat_checkpoint_data::{Checkpoint, PartCerts};
use pat_checkpoint_laws::{checked_laws, resumed_laws, writing_laws};
use pat_core::Program;
use pat_derivation_laws::validity_laws;
use pat_derivations::{Cert, Derivation};
use pat_reduce::Config;
use pat_sequences::{Sequence, let_go};
use std::alloc::{AllocError, Global};
use std::mem;

/// The line of the first live mailbox, behind the marker and the next numbers.
const FIRST_BALANCE: usize = 3;

/// The configuration without its printed lines.
fn silenced(alloc: Global, config: Config) -> Config
    ensures { config_view result ≡ silent (config_view config) }
{
    let mut config = config;
    let_go(mem::replace(&mut config.printed, Sequence::new(alloc)));
    config
}

/// The checkpoint of the configuration without certificates.
fn bare_checkpoint(alloc: Global, config: Config, interfaces: Sequence<u32>) -> Checkpoint
    ensures { checkpoint_view result ≡ silent_checkpoint (config_view config) interfaces [] [] }
{
    Checkpoint {
        config: silenced(alloc, config),
        interfaces,
        mailbox_certs: Sequence::new(alloc),
        part_certs: Sequence::new(alloc),
    }
}

/// The checkpoint with these certificates in place of its own.
fn with_certs(
    bare: Checkpoint,
    mailbox_certs: Sequence<Option<Cert>>,
    part_certs: Sequence<PartCerts>,
) -> Checkpoint
    ensures { checkpoint_view result ≡ record {
      config = config_view bare.config;
      interfaces = bare.interfaces;
      mailbox_certs
          = map end_view mailbox_certs;
      part_certs = map part_certs_view part_certs;
    } }
{
    let (config, interfaces, _, _) = bare.into_parts();
    Checkpoint {
        config,
        interfaces,
        mailbox_certs,
        part_certs,
    }
}

/// The line of the first thread's control, behind those of live mailboxes and messages.
fn first_part(config: &Config) -> Result<usize, AllocError>
    ensures { IfOk result (λ line. line ≡ 3 + length config.now.live + length config.now.messages) }
{
    let next = line_after(FIRST_BALANCE, config.live.len())?;
    line_after(next, config.messages.len())
}

/// Certificates of the balances of the live mailboxes of a checkpoint that stands typed.
fn certify_mailboxes(
    alloc: Global,
    search: &Search,
    bare: &Checkpoint,
) -> Result<Sequence<Option<Cert>>, CertifyError>
    requires search { IsSearch search.now }
    requires valid { IsValid (program_in search.now) (derivation_view search.now.derivation.now) }
    requires stands { IsTrue (stands_typed (program_in search.now) (derivation_view search.now.derivation.now) (checkpoint_view bare.now)) }
    ensures found { IfOk result (BalancesFound search.now bare.now bare.now.config.live) }
    ensures unshown { IfErr result (IsUnshownFrom (scope_in search.now) (bounds_in search.now) 1
        (lines_need (program_in search.now) (typing_in search.now) (interfaces_of (checkpoint_view bare.now))
        (checkpoint_view bare.now).config)) }
{
    writing_laws();
    let sides = sides_of(alloc, search.program, search.derivation, bare)?;
    let certs = certify_balances(alloc, search, bare, &sides, FIRST_BALANCE)?;
    Ok(certs)
}

/// Certificates of the parts of the threads of a checkpoint that stands typed, where what its balances need can be shown.
fn certify_parts(
    alloc: Global,
    search: &Search,
    bare: &Checkpoint,
) -> Result<Sequence<PartCerts>, CertifyError>
    requires search { IsSearch search.now }
    requires valid { IsValid (program_in search.now) (derivation_view search.now.derivation.now) }
    requires stands { IsTrue (stands_typed (program_in search.now) (derivation_view search.now.derivation.now) (checkpoint_view bare.now)) }
    requires balances { BalancesCanBeShown search.now bare.now bare.now.config.live }
    ensures found { IfOk result (ThreadsFound search.now (threads_view bare.now.config.threads)) }
    ensures unshown { IfErr result (IsUnshownFrom (scope_in search.now) (bounds_in search.now) 1
        (lines_need (program_in search.now) (typing_in search.now) (interfaces_of (checkpoint_view bare.now))
        (checkpoint_view bare.now).config)) }
{
    writing_laws();
    let line = first_part(&bare.config)?;
    let certs = certify_threads(alloc, search, bare.config.threads.as_slice(), line)?;
    Ok(certs)
}

/// The checkpoint of a configuration, with what certificates are found with.
fn certify_with(
    alloc: Global,
    search: &Search,
    config: Config,
    interfaces: Sequence<u32>,
) -> Result<Checkpoint, CertifyError>
    requires search { IsSearch search.now }
    requires valid { IsValid (program_in search.now) (derivation_view search.now.derivation.now) }
    requires typed { CanBeCertified (program_in search.now) (derivation_view search.now.derivation.now) (config_view config) interfaces }
    ensures certified { IfOk result (λ x. IsCertified (program_in search.now) (derivation_view search.now.derivation.now)
        (config_view config) interfaces (checkpoint_view x)) }
    ensures unshown { IfErr result (IsUnshown (program_in search.now) (derivation_view search.now.derivation.now)
        (config_view config) interfaces) }
{
    checked_laws();
    resumed_laws();
    let bare = bare_checkpoint(alloc, config, interfaces);
    let mailboxes = certify_mailboxes(alloc, search, &bare)?;
    let parts = certify_parts(alloc, search, &bare)?;
    Ok(with_certs(bare, mailboxes, parts))
}

/// The checkpoint of a configuration that the derivation types, where its live mailboxes have these interfaces: without the printed
/// lines, and with a certificate for each line of the text whose inclusion isn't trivial. A certificate is a direct cover of closed
/// forms that aren't too large, where there is one, and otherwise the bound that solving takes for grids of the interface.
pub fn certify(
    alloc: Global,
    program: &Program,
    derivation: &Derivation,
    config: Config,
    interfaces: Sequence<u32>,
) -> Result<Checkpoint, CertifyError>
    requires well { WellFormed (program_view program.now) }
    requires valid { IsValid (program_view program.now) (derivation_view derivation.now) }
    requires typed { CanBeCertified (program_view program.now) (derivation_view derivation.now) (config_view config) interfaces }
    ensures certified { IfOk result (λ x. IsCertified (program_view program.now) (derivation_view derivation.now)
        (config_view config) interfaces (checkpoint_view x)) }
    ensures unshown { IfErr result (IsUnshown (program_view program.now) (derivation_view derivation.now) (config_view config) interfaces) }
{
    validity_laws();
    let plain = plain_values(alloc, derivation)?;
    let bounds = grid_bounds(alloc, program)?;
    let lets = bounds_of(alloc, program)?;
    let search = Search {
        program,
        derivation,
        plain: plain.as_slice(),
        bounds: bounds.as_slice(),
        lets: lets.as_slice(),
    };
    certify_with(alloc, &search, config, interfaces)
}
