//! Inference against typings: laws. No code of the product.
#![tactic(auto)]

ghost use Rattle.pat_infer_spec.specs.Laws.{BrokenIsUntypable, TypingSolves, TypableIsSolved, SolutionTypes, TypableExactly, LeastSolves};
ghost use Rattle.pat_infer_spec.specs.Inclusions.{InclusionsShown};
ghost use Rattle.pat_infer_spec.specs.Shapes.{FoundFits, EachNodeOnce, NeedsOrdered, LetsMerge};

use pat_type_system_laws::environment_laws;

/// Inference loses nothing: no rule is broken in a program that can be typed, and a typing's patterns solve its constraints.
pub fn lossless_laws()
    ensures broken { BrokenIsUntypable }
    ensures solves { TypingSolves }
    ensures solved { TypableIsSolved }
{
    environment_laws();
}

/// What inference finds is enough: where no rule is broken, a solution in which the sending variables of signatures have
/// words gives a typing; so a program can be typed just there. And what is below a solution and meets the constraints with a
/// variable on the right is a solution.
pub fn enough_laws()
    ensures types { SolutionTypes }
    ensures exactly { TypableExactly }
    ensures least { LeastSolves }
{
    environment_laws();
}

/// What is found: patterns keep to their interfaces, right sides are one variable or have none, each node is found once, and
/// needs ascend, so that those of a let are found in one pass over those of its parts.
pub fn found_laws()
    ensures fits { FoundFits }
    ensures once { EachNodeOnce }
    ensures ordered { NeedsOrdered }
    ensures merge { LetsMerge }
{}

/// Each inclusion that a typing needs at a found node is trivial, or is one of the constraints.
pub fn shown_laws()
    ensures shown { InclusionsShown }
{
    environment_laws();
}
