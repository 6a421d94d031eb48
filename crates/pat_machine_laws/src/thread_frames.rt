// Laws of a thread that takes a step by itself, apart from the configuration, and is put back. No code of the product.
ghost use Rattle.pat_machine_laws.specs.thread_frames.Laws.{StepsAlone, ThreadsAreLeft, BesideLeaves, SendLeaves, PlaceIsTaken, SameIsBack};

/// A step of a thread is one of the thread by itself, what is left of which is put back.
pub fn alone_laws()
    ensures { StepsAlone }
{}

/// What a step leaves of a thread by itself.
pub fn left_laws()
    ensures threads { ThreadsAreLeft }
    ensures beside { BesideLeaves }
    ensures send { SendLeaves }
{}

/// What is put back takes the place of what stood there, and changes nothing where it is as it was.
pub fn back_laws()
    ensures place { PlaceIsTaken }
    ensures same { SameIsBack }
{}
