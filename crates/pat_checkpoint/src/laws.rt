// What a run from the start owes to `write`, and a history that goes on from a checkpoint. No code of the product.
ghost use Rattle.pat_checkpoint.specs.Laws.{StartedInterfacesAreThere, ReplayedInterfacesAreThere, ReplayedStringsAreSpelled};

use pat_checkpoint_laws::{made_laws, read_is_text_law, resumed_laws, strings_law};
use pat_semantics_laws::replay_laws;

/// A run from the start of a program leads to mailboxes of interfaces of the program.
pub fn started_law()
    ensures { StartedInterfacesAreThere }
{
    replay_laws();
    made_laws();
}

/// A history that goes on from a checked checkpoint, which was read of a text, leads to mailboxes of interfaces of the program, and to strings
/// that a program's text can have.
pub fn replayed_law()
    ensures there { ReplayedInterfacesAreThere }
    ensures strings { ReplayedStringsAreSpelled }
{
    made_laws();
    resumed_laws();
    read_is_text_law();
    strings_law();
}
