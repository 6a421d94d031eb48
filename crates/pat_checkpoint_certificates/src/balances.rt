// Certificates of the balances of live mailboxes.
ghost use Rattle.std.specs.Prelude.{◌≡◌, ◌<◌, length, take, slice_get, Some, IsTrue, IfOk, IfErr};
ghost use Rattle.pat_derivations.specs.Views.{derivation_view};
ghost use Rattle.pat_checkpoint_data.specs.Views.{checkpoint_view};
ghost use Rattle.pat_checkpoint_spec.specs.Checkpoints.{interfaces_of};
ghost use Rattle.pat_checkpoint_spec.specs.Numbers.{ascends};
ghost use Rattle.pat_checkpoint_spec.specs.Balances.{balance_needs};
ghost use Rattle.pat_checkpoint_spec.specs.Written.{IsFormedNeed, NeedsFormed};
ghost use Rattle.pat_checkpoint_balances.specs.Gathered.{IsGathered};
ghost use Rattle.pat_checkpoint_certificates.specs.Searches.{program_in, scope_in, typing_in, bounds_in, IsSearch};
ghost use Rattle.pat_checkpoint_certificates.specs.Found.{IsFound, IsUnshownFrom};
ghost use Rattle.pat_checkpoint_certificates.specs.Balances.{balances_need, BalancesCanBeShown, BalanceFoundAt, BalancesFound};

use crate::error::{CertifyError, unshown};
use crate::search::Search;
use crate::showing::show_one;
use pat_checkpoint_balances::{Sides, first_of, interface_of, product_of};
use pat_checkpoint_data::Checkpoint;
use pat_derivations::Cert;
use pat_sequences::Sequence;
use std::alloc::{AllocError, Global};

/// How the balance of the live mailbox at this place is shown, where these are the sides.
fn show_balance(
    alloc: Global,
    search: &Search,
    bare: &Checkpoint,
    sides: &Sides,
    place: usize,
    mailbox: u32,
) -> Result<Option<Option<Cert>>, AllocError>
    requires search { IsSearch search.now }
    requires live { IsTrue (ascends 0 bare.now.config.live) }
    requires at { slice_get bare.now.config.live place ≡ Some mailbox }
    requires coming { place < length sides.now.coming }
    requires receivers { place < length sides.now.receivers }
    requires sides { IsGathered (program_in search.now) (derivation_view search.now.derivation.now) (checkpoint_view bare.now) sides.now }
    requires formed { IsFormedNeed (scope_in search.now)
        (Some (balance_needs (program_in search.now) (typing_in search.now) (interfaces_of (checkpoint_view bare.now))
        (checkpoint_view bare.now).config mailbox)) }
    ensures { IfOk result (IsFound (scope_in search.now) (bounds_in search.now)
        (Some (balance_needs (program_in search.now) (typing_in search.now) (interfaces_of (checkpoint_view bare.now))
        (checkpoint_view bare.now).config mailbox))) }
{
    let live = bare.config.live.as_slice();
    let interfaces = bare.interfaces.as_slice();
    let coming = sides.coming.as_slice();
    let receivers = sides.receivers.as_slice();
    let interface = interface_of(live, interfaces, mailbox);
    let left = product_of(alloc, coming[place].as_slice())?;
    let right = first_of(receivers[place].as_slice())?;
    show_one(alloc, search, interface, &left, &right)
}

/// The certificate of the balance of the live mailbox at this place, where those before it can be shown; the lines of mailboxes begin
/// at this one.
fn certify_balance(
    alloc: Global,
    search: &Search,
    bare: &Checkpoint,
    sides: &Sides,
    place: usize,
    first: usize,
) -> Result<Option<Cert>, CertifyError>
    requires search { IsSearch search.now }
    requires live { IsTrue (ascends 0 bare.now.config.live) }
    requires place { place < length bare.now.config.live }
    requires sides { IsGathered (program_in search.now) (derivation_view search.now.derivation.now) (checkpoint_view bare.now) sides.now }
    requires formed { NeedsFormed (scope_in search.now)
        (balances_need (program_in search.now) (derivation_view search.now.derivation.now)
        (checkpoint_view bare.now) bare.now.config.live) }
    requires before { BalancesCanBeShown search.now bare.now (take place bare.now.config.live) }
    ensures found { IfOk result (λ cert. BalanceFoundAt search.now bare.now place cert) }
    ensures unshown { IfErr result (IsUnshownFrom (scope_in search.now) (bounds_in search.now) first
        (balances_need (program_in search.now) (derivation_view search.now.derivation.now)
        (checkpoint_view bare.now) bare.now.config.live)) }
{
    let live = bare.config.live.as_slice();
    match show_balance(alloc, search, bare, sides, place, live[place])? {
        None => Err(unshown(first, place)),
        Some(cert) => Ok(cert),
    }
}

/// Certificates of the balances of the live mailboxes of a checkpoint, whose lines begin at this one.
pub fn certify_balances(
    alloc: Global,
    search: &Search,
    bare: &Checkpoint,
    sides: &Sides,
    first: usize,
) -> Result<Sequence<Option<Cert>>, CertifyError>
    requires search { IsSearch search.now }
    requires live { IsTrue (ascends 0 bare.now.config.live) }
    requires sides { IsGathered (program_in search.now) (derivation_view search.now.derivation.now) (checkpoint_view bare.now) sides.now }
    requires formed { NeedsFormed (scope_in search.now)
        (balances_need (program_in search.now) (derivation_view search.now.derivation.now)
        (checkpoint_view bare.now) bare.now.config.live) }
    ensures found { IfOk result (BalancesFound search.now bare.now bare.now.config.live) }
    ensures unshown { IfErr result (IsUnshownFrom (scope_in search.now) (bounds_in search.now) first
        (balances_need (program_in search.now) (derivation_view search.now.derivation.now)
        (checkpoint_view bare.now) bare.now.config.live)) }
{
    let mut certs = Sequence::new(alloc);
    for place in 0..bare.config.live.len() {
        let cert = certify_balance(alloc, search, bare, sides, place, first)?;
        certs.push(cert)?;
    }
    Ok(certs)
}
