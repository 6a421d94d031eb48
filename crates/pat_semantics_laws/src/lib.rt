//! Laws of programs, steps, runs and outcomes. No code of the product.
#![tactic(auto)]

ghost use Rattle.pat_semantics_laws.specs.Laws.{ThreadTestIsExact, StepTestIsExact, OtherTestIsExact, OutcomeIsExact, RunsJoin, ReplaysJoin, ReplayIsRun, FreeUnfolds};
ghost use Rattle.pat_semantics_laws.specs.Orders.{StartIsOrdered, StepKeepsOrder, RunKeepsOrder, ReplayKeepsOrder, RunIsOrdered, ThreadIsFound, MessageIsFound, FirstThreadIsLeast, FirstMessageIsLeast, FirstReceiveIsLeast};

/// The tests of an enabled step are exact, and the outcome is the way in which a run ends.
pub fn outcome_laws()
    ensures threads { ThreadTestIsExact }
    ensures steps { StepTestIsExact }
    ensures others { OtherTestIsExact }
    ensures outcomes { OutcomeIsExact }
{}

/// A replay is a run of the history's steps, and joined runs and replays follow one another.
pub fn replay_laws()
    ensures runs { RunsJoin }
    ensures replays { ReplaysJoin }
    ensures replay { ReplayIsRun }
{}

/// The free variables of a node are those of its term.
pub fn variable_laws()
    ensures free { FreeUnfolds }
{}

/// Numbers stand in ascending order, and below the next free ones, at the start of any program and after each step, run and
/// replay.
pub fn order_laws()
    ensures start { StartIsOrdered }
    ensures steps { StepKeepsOrder }
    ensures runs { RunKeepsOrder }
    ensures replays { ReplayKeepsOrder }
    ensures reached { RunIsOrdered }
{}

/// In order, a number stands for one thread or message, and the first that passes a test is the one of the least number.
pub fn least_laws()
    ensures thread { ThreadIsFound }
    ensures message { MessageIsFound }
    ensures first_thread { FirstThreadIsLeast }
    ensures first_message { FirstMessageIsLeast }
    ensures first_receive { FirstReceiveIsLeast }
{}
