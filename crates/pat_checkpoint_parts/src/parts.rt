// What parts are held against: their data.
ghost use Rattle.std.specs.Prelude.{IsTrue};
ghost use Rattle.pat_checkpoint_spec.specs.Numbers.{ascends};
ghost use Rattle.pat_checkpoint_parts.specs.Lists.{AreFree};
ghost use Rattle.pat_checkpoint_parts.specs.Standing.{StandsWell};
ghost use Rattle.pat_checkpoint_parts.specs.Typed.{program_in};

use crate::typing::Typing;
use pat_sequences::Sequence;

/// What parts are held against: types, the free variables of nodes, and the interfaces of live mailboxes, which ascend.
#[derive(Drop)]
pub struct Parts<'a> {
    pub typing: Typing<'a>,
    pub(crate) free: Sequence<Sequence<u32>>,
    pub live: &'a [u32],
    pub interfaces: &'a [u32],
    pub ghost well: { StandsWell (program_in typing) },
    pub ghost free_are: { AreFree (program_in typing) free },
    pub ghost ascends: { IsTrue (ascends 0 live.now) },
}
