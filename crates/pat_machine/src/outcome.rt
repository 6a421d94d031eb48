// How a run ends.
ghost use Rattle.pat_machine.specs.Parted.{shown, IsKept};
ghost use Rattle.pat_machine.specs.Gives.{OutcomeGives};

use crate::job::Outcome;
use crate::parts::Parts;
use pat_machine_steps::Prospect;
use pat_semantics_laws::outcome_laws;

impl Parts {
    /// The outcome, where no thread is out and nothing can be taken.
    pub fn outcome(&self) -> Option<Outcome>
        requires { IsKept self.now }
        ensures { OutcomeGives (shown self.now) result }
    {
        // A law: the outcome is the one way in which a run ends.
        outcome_laws();
        if self.lent > 0 {
            return None;
        }
        let others = self.waits.awake.numbers.as_slice();
        let senders = self.waits.senders.numbers.as_slice();
        match self
            .state
            .prospect(&self.code, &self.names, self.limit, others, senders)
        {
            Prospect::Over => Some(Outcome::Done),
            Prospect::Stuck => Some(Outcome::Waiting),
            Prospect::Full => Some(Outcome::Full),
            Prospect::Open if self.left == 0 => Some(Outcome::Budget),
            Prospect::Open => None,
        }
    }
}
