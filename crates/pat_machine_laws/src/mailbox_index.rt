// Laws of pending messages that are kept by mailbox: how the list of all of them, in ascending order of number, follows what happens to one mailbox. No code of the product.
ghost use Rattle.pat_machine_laws.specs.mailbox_index.Laws.{StartIsKept, MakesLast, SendsLast, LastIsSent, TakesOne, FreesOne, SameStays, OwnArePending, FirstPendingIsOwn, FirstIsOwn, FirstByNumberIsOwn, PendingIsOwn, AnyIsOwn, OwnAreBelow, LiveIsListed, LiveAscend, AllAreCounted, OwnIsFound, PlaceIsFound, FoundIsOwn};

/// What becomes of all messages, and of the live mailboxes, where a mailbox is made or freed, and where a message is sent to one or taken out of it.
pub fn change_laws()
    ensures start { StartIsKept }
    ensures made { MakesLast }
    ensures sent { SendsLast }
    ensures last { LastIsSent }
    ensures taken { TakesOne }
    ensures freed { FreesOne }
    ensures stays { SameStays }
{}

/// The messages of a mailbox are those of all messages that are pending in it, and the first that passes a test of these is the first of its own.
pub fn own_laws()
    ensures own { OwnArePending }
    ensures first_pending { FirstPendingIsOwn }
    ensures first { FirstIsOwn }
    ensures first_by_number { FirstByNumberIsOwn }
{}

/// Whether a message is pending in a mailbox, whether one passes a test, which mailboxes are live, how many messages there are, and which one has a number.
pub fn look_up_laws()
    ensures pending { PendingIsOwn }
    ensures any { AnyIsOwn }
    ensures below { OwnAreBelow }
    ensures live { LiveIsListed }
    ensures live_ascend { LiveAscend }
    ensures counted { AllAreCounted }
    ensures own { OwnIsFound }
    ensures place { PlaceIsFound }
    ensures mailbox { FoundIsOwn }
{}
