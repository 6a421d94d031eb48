// Live mailboxes that are marked: their data.
ghost use Rattle.std.specs.Prelude.{◌≡◌, ◌≤◌, ℕ, length, IsTrue};
ghost use Rattle.pat_checkpoint_spec.specs.Checkpoints.{interface_at};
ghost use Rattle.pat_checkpoint_spec.specs.Numbers.{ascends};

use pat_sequences::Sequence;

/// Marks on live mailboxes, which ascend. A mailbox is marked where its number is that of the turn, so a new turn has none.
#[derive(Drop)]
pub struct Marks<'a> {
    pub live: &'a [u32],
    pub(crate) turns: Sequence<u64>,
    pub(crate) turn: u64,
    pub ghost ascends: { IsTrue (ascends 0 live.now) },
    pub ghost each: { length turns ≡ length live.now },
    pub ghost below: { (b : ℕ) → interface_at live.now turns b ≤ turn },
}
