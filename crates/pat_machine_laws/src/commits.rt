// Laws of open steps, turns, commits, and of what a machine keeps. No code of the product.
ghost use Rattle.pat_machine_laws.specs.commits.Laws.{OpenTestIsExact, FoundIsTurn, NoneFoundIsNone, CommitRuns, IdleCommitIsStill, TopRuns, TopKeepsFrame, SharesOnTop, StartKeeps, TakeKeeps, GiveBackKeeps, GiveAllBackKeeps, CommitKeeps, NumbersAreLeft, NoReplayIsRefused, OneEntryIsRefused};

/// The test of an open step is exact, and the thread that is found first is the one whose turn it is.
pub fn turn_laws()
    ensures opens { OpenTestIsExact }
    ensures turns { FoundIsTurn }
    ensures none { NoneFoundIsNone }
{}

/// A commit takes just the steps of its entry, and has none only where none was open. Its steps may be taken on the top of the thread.
pub fn commit_laws()
    ensures runs { CommitRuns }
    ensures idle { IdleCommitIsStill }
    ensures tops { TopRuns }
    ensures frame { TopKeepsFrame }
    ensures shares { SharesOnTop }
{}

/// What a machine keeps is true at the start, and stays true where jobs are taken, given back and committed.
pub fn machine_laws()
    ensures start { StartKeeps }
    ensures take { TakeKeeps }
    ensures give_back { GiveBackKeeps }
    ensures give_back_all { GiveAllBackKeeps }
    ensures commit { CommitKeeps }
    ensures numbers { NumbersAreLeft }
{}

/// A history has a replay, or one entry of it is refused.
pub fn refusal_laws()
    ensures refused { NoReplayIsRefused }
    ensures one { OneEntryIsRefused }
{}
