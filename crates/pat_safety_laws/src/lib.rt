//! Laws of typed configurations: a step keeps the typing, and no typed configuration has a fault. No code of the product.
#![tactic(auto)]

ghost use Rattle.pat_safety_laws.specs.Laws.{TypedHasNoFault, TypedStaysSafe, TypableIsSafe, LiveIsReferredTo, DoneLeavesNone, DoneLeavesDelegated, WaitsAtGuards};

mod preservation;

pub use preservation::{interface_laws, preservation_laws};

/// A typed configuration has no fault, so no run from one and none of a well-formed typable program reaches one.
pub fn safety_laws()
    ensures faults { TypedHasNoFault }
    ensures stays { TypedStaysSafe }
    ensures safe { TypableIsSafe }
{}

/// What is left where all threads have ended, and where threads wait at the end of a run.
pub fn ending_laws()
    ensures referred { LiveIsReferredTo }
    ensures done { DoneLeavesNone }
    ensures delegated { DoneLeavesDelegated }
    ensures waiting { WaitsAtGuards }
{}
