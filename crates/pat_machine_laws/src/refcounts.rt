// Laws of how often a configuration names a mailbox. No code of the product.
ghost use Rattle.pat_machine_laws.specs.refcounts.Laws.{ThreadRefersIsNamed, MessageRefersIsNamed, ReachedAloneIsCounted, ReachedAloneTest, ExchangedThreadCounts, JoinedValuesCount, JoinedEnvsCount, JoinedFramesCount, OverCounts, TopCounts, ExchangedTopCounts, AppendedMessageCounts, TakenMessageCounts, AppendedThreadCounts, TakenThreadCounts, StartNamesNone, NamedIsLive, NextIsNotNamed, TypedNamesOnce, RunAddsParts, ReplayHasParts, MachineNamesFew, FreedIsInNoFrame, CountsTell, CountsTellWithoutTop, StepCounts, SharedStepKeepsFrames, CommitCounts};

/// How often a mailbox is named decides who refers to it, and whether one thread alone reaches it.
pub fn test_laws()
    ensures threads { ThreadRefersIsNamed }
    ensures messages { MessageRefersIsNamed }
    ensures alone { ReachedAloneIsCounted }
    ensures test { ReachedAloneTest }
{}

/// Of what is joined, both parts are named.
pub fn join_laws()
    ensures values { JoinedValuesCount }
    ensures environments { JoinedEnvsCount }
    ensures frames { JoinedFramesCount }
{}

/// What is named after one thread was exchanged, or its top.
pub fn exchange_laws()
    ensures threads { ExchangedThreadCounts }
    ensures over { OverCounts }
    ensures top { TopCounts }
    ensures tops { ExchangedTopCounts }
{}

/// What is named once a message or a thread came or went.
pub fn change_laws()
    ensures appended_message { AppendedMessageCounts }
    ensures taken_message { TakenMessageCounts }
    ensures appended_thread { AppendedThreadCounts }
    ensures taken_thread { TakenThreadCounts }
{}

/// A typed configuration names live mailboxes alone, and a start names none.
pub fn live_laws()
    ensures start { StartNamesNone }
    ensures live { NamedIsLive }
    ensures next { NextIsNotNamed }
{}

/// A typed configuration names a mailbox at most as often as it has parts that keep values, and a machine's budget bounds these.
pub fn few_laws()
    ensures once { TypedNamesOnce }
    ensures runs { RunAddsParts }
    ensures replays { ReplayHasParts }
    ensures machine { MachineNamesFew }
{}

/// Counts of names tell who may free a mailbox.
pub fn free_laws()
    ensures frames { FreedIsInNoFrame }
    ensures each { CountsTell }
    ensures top { CountsTellWithoutTop }
{}

/// What is named once a job is committed.
pub fn commit_laws()
    ensures step { StepCounts }
    ensures frames { SharedStepKeepsFrames }
    ensures commit { CommitCounts }
{}
