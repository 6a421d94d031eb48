// Laws of runs that go on from a configuration. No code of the product.
ghost use Rattle.pat_checkpoint_laws.specs.resuming.Laws.{TurnsEnd, TurnCommits, TurnsTake, TurnsUnfold, NextIsAble, TurnIsNext, ActIsFirst, LocalsAre, InterfacesMade, MadeJoins, MadeCounts, ResumedIsTyped, TurnsResume, StartIsChecked, TypedCanBeWritten};

use crate::checked_laws;
use pat_derivation_laws::validity_laws;
use pat_safety_laws::{interface_laws, preservation_laws};

/// Turns are a history that leads somewhere and ends, and each commits a job.
pub fn turn_laws()
    ensures ends { TurnsEnd }
    ensures commits { TurnCommits }
    ensures takes { TurnsTake }
    ensures unfolds { TurnsUnfold }
    ensures able { NextIsAble }
    ensures machines { TurnIsNext }
    ensures acts { ActIsFirst }
    ensures locals { LocalsAre }
{}

/// Which interfaces the mailboxes have that steps make.
pub fn made_laws()
    ensures interfaces { InterfacesMade }
    ensures joins { MadeJoins }
    ensures counts { MadeCounts }
{}

/// What a run that goes on from a checked checkpoint leads to is typed, and can be written as a checkpoint again; and the start of a program
/// is one.
pub fn resumed_laws()
    ensures typed { ResumedIsTyped }
    ensures resumes { TurnsResume }
    ensures start { StartIsChecked }
    ensures written { TypedCanBeWritten }
{
    checked_laws();
    preservation_laws();
    interface_laws();
    validity_laws();
}
