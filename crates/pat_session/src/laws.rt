// What holds of every call.
ghost use Rattle.pat_session.specs.Complete.{IsComplete};

use pat_command_checkpoint::checkpoint_law;
use pat_command_order::order_law;
use pat_command_replay::replay_law;
use pat_command_resume::resume_law;
use pat_command_verify::verify_law;
use pat_front::verdict_law;

/// An input that suits its command is answered by a status of the command's own, unless a port fails or memory is wanting.
pub fn complete_law()
    ensures { IsComplete }
{
    pat_command_check::complete_law();
    verdict_law();
    verify_law();
    replay_law();
    order_law();
    resume_law();
    checkpoint_law();
}
