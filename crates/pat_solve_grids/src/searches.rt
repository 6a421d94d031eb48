// Searches of an interface's constraints, in order.
ghost use Rattle.std.specs.Prelude.{◌≡◌, length, IfOk, IsTrue};
ghost use Rattle.std.specs.List.{AllByRecursion};
ghost use Rattle.pat_words_spec.specs.Tags.{tags_below};
ghost use Rattle.pat_inclusion_spec.specs.Points.{grid_fits};
ghost use Rattle.pat_inclusion_spec.specs.bounds.Trees.{bounds_of};
ghost use Rattle.pat_patterns.specs.Views.{patterns_view};
ghost use Rattle.pat_solve_bounds.specs.lower_bounds.Sides.{sides_list};
ghost use Rattle.pat_solve_bounded.specs.replacing.Ascending.{IsAscending};
ghost use Rattle.pat_solve_bounds.specs.renumbered.Renaming.{place_in, renamed as renamed_by};
ghost use Rattle.pat_solve_bounds.specs.renumbered.Systems.{picked};
ghost use Rattle.pat_solve_grids.specs.Findings.{IsSearchable, AreFound};
ghost use Rattle.pat_solve_grids.specs.Least.{AreLeastOf};
ghost use Rattle.pat_solve_grids.specs.Views.{findings_view};

use crate::batches::{Batch, search_batch};
use crate::findings::Findings;
use pat_grid_certificates::Grid;
use pat_infer_problems::Constraint;
use pat_patterns::Pattern;
use pat_sequences::Sequence;
use std::alloc::{AllocError, Global};

/// The least grids of the system; and what searches of the constraints with these numbers find, in order, for derivable words of the
/// left that the right lacks. The system has the lower bounds of the variables, numbered by their places; there are 65,536 points at
/// most.
pub fn search_each(
    alloc: Global,
    system: &[Pattern],
    constraints: &[Constraint],
    numbers: &[usize],
    variables: &[u32],
    k: u32,
    tags: u8,
) -> Result<(Sequence<Grid>, Findings), AllocError>
    requires ascending { IsAscending variables.now }
    requires fits { IsTrue (grid_fits k tags) }
    requires system { AllByRecursion (λ e. IsTrue (tags_below tags e)) (patterns_view system.now) }
    requires sides { AllByRecursion (IsSearchable k tags) (picked (sides_list constraints.now) numbers.now) }
    ensures least { IfOk result (λ r. AreLeastOf k tags (patterns_view system.now) r.0) }
    ensures found { IfOk result (λ r. AreFound (bounds_of (patterns_view system.now)) (renamed_by (place_in variables.now))
        (picked (sides_list constraints.now) numbers.now) numbers.now (length numbers.now) (findings_view r.1)) }
{
    let none = Findings {
        refuted: None,
        is_oversized: false,
    };
    let Batch {
        grids,
        mut findings,
        mut end,
    } = search_batch(
        alloc,
        system,
        constraints,
        numbers,
        0,
        variables,
        k,
        tags,
        none,
    )?;
    while end < numbers.len() {
        let batch = search_batch(
            alloc,
            system,
            constraints,
            numbers,
            end,
            variables,
            k,
            tags,
            findings,
        )?;
        findings = batch.findings;
        end = batch.end;
    }
    Ok((grids, findings))
}
