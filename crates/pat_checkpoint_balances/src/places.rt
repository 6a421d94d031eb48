// Where a mailbox stands among those that are live, and its interface.
ghost use Rattle.std.specs.Prelude.{◌≡◌, Some, false, slice_get, unwrap_or, IsTrue, IfSome, IfNone};
ghost use Rattle.pat_semantics_spec.specs.Programs.{is_among};
ghost use Rattle.pat_checkpoint_spec.specs.Checkpoints.{interface_at};
ghost use Rattle.pat_checkpoint_spec.specs.Numbers.{ascends};

/// The place of a mailbox, if it is live.
pub fn place_of(live: &[u32], mailbox: u32) -> Option<usize>
    requires { IsTrue (ascends 0 live.now) }
    ensures found { IfSome result (λ place. slice_get live.now place ≡ Some mailbox) }
    ensures none { IfNone result (is_among mailbox live.now ≡ false) }
{
    match live.binary_search(&mailbox) {
        Ok(place) => Some(place),
        Err(_) => None,
    }
}

/// The interface that stands at the place of the mailbox, and 0 where there is none.
pub fn interface_of(live: &[u32], interfaces: &[u32], mailbox: u32) -> u32
    requires { IsTrue (ascends 0 live.now) }
    ensures { result ≡ interface_at live.now interfaces.now mailbox }
{
    match place_of(live, mailbox) {
        None => 0,
        Some(place) => at_or_zero(interfaces, place),
    }
}

fn at_or_zero(interfaces: &[u32], place: usize) -> u32
    ensures { result ≡ unwrap_or (slice_get interfaces.now place) 0 }
{
    match interfaces.get(place) {
        None => 0,
        Some(interface) => *interface,
    }
}
