// Live mailboxes, which ascend, and what stands at their places.
ghost use Rattle.std.specs.Prelude.{◌≡◌, false, Some, slice_get, IsTrue, IfSome, IfNone};
ghost use Rattle.pat_semantics_spec.specs.Programs.{is_among};
ghost use Rattle.pat_checkpoint_spec.specs.Checkpoints.{interface_at};
ghost use Rattle.pat_checkpoint_spec.specs.Numbers.{ascends};
ghost use Rattle.pat_checkpoint_numbers.specs.Beside.{or_zero};

/// The place of the mailbox, if it is live.
pub fn place_of(live: &[u32], mailbox: u32) -> Option<usize>
    requires { IsTrue (ascends 0 live.now) }
    ensures some { IfSome result (λ place. slice_get live.now place ≡ Some mailbox) }
    ensures none { IfNone result (is_among mailbox live.now ≡ false) }
{
    match live.binary_search(&mailbox) {
        Ok(place) => Some(place),
        Err(_) => None,
    }
}

/// Whether the mailbox is live.
#[tactic(auto, using(crate::proofs::Halved::stands_among))]
pub fn is_live(live: &[u32], mailbox: u32) -> bool
    requires { IsTrue (ascends 0 live.now) }
    ensures { result ≡ is_among mailbox live.now }
{
    place_of(live, mailbox).is_some()
}

/// The interface at the place of the mailbox among the live ones, which ascend. It is 0 where there is none.
pub fn interface_of(live: &[u32], interfaces: &[u32], mailbox: u32) -> u32
    requires { IsTrue (ascends 0 live.now) }
    ensures { result ≡ interface_at live.now interfaces.now mailbox }
{
    match place_of(live, mailbox) {
        None => 0,
        Some(place) => number_at(interfaces, place),
    }
}

/// The number at the place. It is 0 where there is none.
fn number_at(numbers: &[u32], place: usize) -> u32
    ensures { result ≡ or_zero (slice_get numbers.now place) }
{
    match numbers.get(place) {
        None => 0,
        Some(number) => *number,
    }
}
