// Laws of what a thread's next step looks at, and of the threads that a step wakes. No code of the product.
ghost use Rattle.pat_machine_laws.specs.wakeups.Laws.{GuardDecides, SpaceDecides, OthersWake, OthersOpen, LocalsNameNoMore, FoundAmongThose, FoundInList, OpenInList, EnabledInList, SendersAreHeldBack, FoundInBoth, OpenInBoth, EnabledInBoth, OthersStay, SleepersAreCalled, TopLetsGo};

/// What a thread can do next follows from its own state, from what is pending in its guard's mailbox and who names that one, and from the space left.
pub fn need_laws()
    ensures guard { GuardDecides }
    ensures space { SpaceDecides }
{}

/// After steps of one thread another one can go on only if it could before, or is woken; and going on alone brings no name.
pub fn waking_laws()
    ensures wake { OthersWake }
    ensures opens { OthersOpen }
    ensures names { LocalsNameNoMore }
{}

/// Whose turn it is, and whether a step is open, is found among those threads that may be ready.
pub fn superset_laws()
    ensures those { FoundAmongThose }
    ensures list { FoundInList }
    ensures opens { OpenInList }
    ensures enabled { EnabledInList }
{}

/// Where those that are about to send stand in a list of their own, that is looked at only where there is space.
pub fn sender_laws()
    ensures held { SendersAreHeldBack }
    ensures found { FoundInBoth }
    ensures opens { OpenInBoth }
    ensures enabled { EnabledInBoth }
{}

/// After steps of one thread the others stand as they did, and of those that wait at a mailbox only the one can step whose message was sent, or whose mailbox's name was let go.
pub fn sleeper_laws()
    ensures stay { OthersStay }
    ensures call { SleepersAreCalled }
    ensures top { TopLetsGo }
{}
