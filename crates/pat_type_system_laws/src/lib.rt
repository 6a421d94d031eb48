//! Laws of typings alone: what fits, and what the environments of a typing name. No code of the product.
#![tactic(auto)]

ghost use Rattle.pat_type_system_laws.specs.Laws.{FitsTwice, PassesTwice, TypeFitsTwice, FittingHasKind, FreeIsNamed, UnusedMayBeDropped, BoundIsUnnamed};

/// What fits twice fits, and has the kind of what it fits.
pub fn passing_laws()
    ensures fits { FitsTwice }
    ensures passes { PassesTwice }
    ensures types { TypeFitsTwice }
    ensures kinds { FittingHasKind }
{}

/// In a typing of a well-formed program the environment of a node names each mailbox variable that is free in it, and no
/// variable that it binds; what it names beside these may be dropped.
pub fn environment_laws()
    ensures named { FreeIsNamed }
    ensures unused { UnusedMayBeDropped }
    ensures unbound { BoundIsUnnamed }
{}
