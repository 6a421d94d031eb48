// Preservation: the start of a typed program is typed, and steps keep a configuration typed. No code of the product.
ghost use Rattle.pat_safety_laws.specs.preservation.Laws.{StartTyped, StepKeeps, RunKeeps, ReplayKeeps, RunTyped, InterfacesStay, InterfacesJoin, LiveInterfacesMatter};

/// The start of a typed program is typed, and each step, run and replay keeps a configuration typed, by the same typing and
/// under the same interfaces, but for those of the mailboxes that are made.
pub fn preservation_laws()
    ensures start { StartTyped }
    ensures steps { StepKeeps }
    ensures runs { RunKeeps }
    ensures replays { ReplayKeeps }
    ensures reached { RunTyped }
{}

/// Steps leave the interfaces of the mailboxes that are there, joined steps make them one after the other, and only those of
/// live mailboxes matter.
pub fn interface_laws()
    ensures stay { InterfacesStay }
    ensures join { InterfacesJoin }
    ensures live { LiveInterfacesMatter }
{}
