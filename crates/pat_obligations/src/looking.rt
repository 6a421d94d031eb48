// What stands at a number.
ghost use Rattle.std.specs.Prelude.{◌≡◌, map, option_map, option_copied, slice_get};
ghost use Rattle.pat_semantics_spec.specs.Programs.{tag_at};
ghost use Rattle.pat_core.specs.Views.{kind_view, tag_view, program_view};
ghost use Rattle.pat_derivation_spec.specs.Derivations.{line_at};
ghost use Rattle.pat_derivations.specs.Views.{line_view, derivation_view};
ghost use Rattle.pat_obligations.specs.Views.{signature_view};

use crate::demand::Signature;
use pat_core::{Kind, Program, TagDecl};
use pat_derivations::{Derivation, DerivedNode};

/// The line of a node, if there is one.
#[tactic(auto, using(crate::proofs::Gets::line_get))]
pub fn line_of(derivation: &Derivation, node: u32) -> Option<&DerivedNode>
    ensures { option_map line_view (option_copied result) ≡ line_at (derivation_view derivation.now) node }
{
    derivation.nodes.as_slice().get(node as usize)
}

/// A tag of an interface, if both are there.
#[tactic(auto, using(crate::proofs::Gets::tag_get))]
pub fn tag_of(program: &Program, interface: u32, tag: u8) -> Option<&TagDecl>
    ensures { option_map tag_view (option_copied result) ≡ tag_at (program_view program.now) interface tag }
{
    match program.interfaces.as_slice().get(interface as usize) {
        None => None,
        Some(declared) => declared.tags.as_slice().get(tag as usize),
    }
}

/// The kind of a variable, if it is there.
#[tactic(auto, using(crate::proofs::Gets::kind_get))]
pub fn kind_of(kinds: &[Kind], variable: u32) -> Option<&Kind>
    ensures { option_map kind_view (option_copied result) ≡ slice_get (map kind_view kinds.now) variable }
{
    kinds.get(variable as usize)
}

/// The signature of a function, if it is there.
#[tactic(auto, using(crate::proofs::Gets::signature_get))]
pub fn signature_of(signatures: &[Signature], function: u32) -> Option<&Signature>
    ensures { option_map signature_view (option_copied result) ≡ slice_get (map signature_view signatures.now) function }
{
    signatures.get(function as usize)
}
