// Searches that share a table.
//
// A table is made for the system and the sides of several constraints, which are about as large as the system is. So all tables
// together take time in proportion to the system and the sides, and each of them memory in proportion to the system.
ghost use Rattle.std.specs.Prelude.{◌≡◌, ◌<◌, ◌≤◌, ◌+◌, ℕ, List, length, get_or, None, true, IfOk, IsTrue, IsFalse};
ghost use Rattle.std.specs.List.{AllByRecursion};
ghost use Rattle.pat_words_spec.specs.Tags.{tags_below};
ghost use Rattle.pat_inclusion_spec.specs.Points.{grid_fits};
ghost use Rattle.pat_words_spec.specs.Patterns.{Pat};
ghost use Rattle.pat_inclusion_spec.specs.bounds.Trees.{bounds_of};
ghost use Rattle.pat_inclusion_spec.specs.bounds.Assignments.{Constraint as GhostConstraint};
ghost use Rattle.pat_inclusion_spec.specs.bounds.Tables.{IsDone};
ghost use Rattle.pat_inclusion_spec.specs.bounds.Numbers.{HasAllEntries, table_of};
ghost use Rattle.pat_patterns.specs.Views.{patterns_view};
ghost use Rattle.pat_grid.specs.tables.Views.{setting_of, IsBoard};
ghost use Rattle.pat_grid.specs.Rows.{AreRows};
ghost use Rattle.pat_counterexample_search.specs.Choices.{IsReady};
ghost use Rattle.pat_solve_bounds.specs.lower_bounds.Sides.{sides_list};
ghost use Rattle.pat_solve_bounded.specs.replacing.Ascending.{IsAscending};
ghost use Rattle.pat_solve_bounds.specs.renumbered.Renaming.{place_in, renamed as renamed_by};
ghost use Rattle.pat_solve_bounds.specs.renumbered.Systems.{side_at, picked};
ghost use Rattle.pat_solve_grids.specs.Findings.{IsSearchable, AreFound};
ghost use Rattle.pat_solve_grids.specs.Laying.{AreReady, IsNoted};
ghost use Rattle.pat_solve_grids.specs.Least.{AreLeastOf};
ghost use Rattle.pat_solve_grids.specs.Limits.{limited, IsTold, IsSettled};
ghost use Rattle.pat_solve_grids.specs.Views.{findings_view};
ghost use Rattle.pat_limits.specs.Limits.{most_tree_nodes};

use crate::findings::{Findings, note};
use crate::laying::lay_some;
use crate::shared::{Shared, lay_system};
use pat_counterexample_search::{is_large, read_answer};
use pat_grid::{Board, least_sizes, row_grids};
use pat_grid_points::{Grid, SparseList, count_points};
use pat_inclusion_laws::closed_laws;
use pat_infer_problems::Constraint;
use pat_limits::MOST_TREE_NODES;
use pat_patterns::Pattern;
use pat_sequences::Sequence;
use std::alloc::{AllocError, Global};

/// How many times as many symbols as those of its system a batch has at most, but for the sides of one constraint; and how many more.
const SYMBOLS_EACH: usize = 2;

const SYMBOLS_BESIDE: usize = 64;

/// What the search of a batch of constraints gives.
#[derive(Drop)]
pub struct Batch {
    /// The least grids of the system, if the batch is the first.
    pub grids: Sequence<Grid>,
    pub findings: Findings,
    /// The place behind the batch.
    pub end: usize,
}

/// Searches constraints whose numbers stand from the place on, by one table: as many as there is room for. The first batch shows
/// the least grids of the system as well.
pub fn search_batch(
    alloc: Global,
    system: &[Pattern],
    constraints: &[Constraint],
    numbers: &[usize],
    from: usize,
    variables: &[u32],
    k: u32,
    tags: u8,
    findings: Findings,
) -> Result<Batch, AllocError>
    requires ascending { IsAscending variables.now }
    requires fits { IsTrue (grid_fits k tags) }
    requires system { AllByRecursion (λ e. IsTrue (tags_below tags e)) (patterns_view system.now) }
    requires sides { AllByRecursion (IsSearchable k tags) (picked (sides_list constraints.now) numbers.now) }
    requires from { from ≤ length numbers.now }
    requires found { AreFound (bounds_of (patterns_view system.now)) (renamed_by (place_in variables.now))
        (picked (sides_list constraints.now) numbers.now) numbers.now from (findings_view findings) }
    ensures within { IfOk result (λ b. b.end ≤ length numbers.now) }
    ensures more { IfOk result (λ b. from < length numbers.now → from < b.end) }
    ensures least { IfOk result (λ b. from ≡ 0 → AreLeastOf k tags (patterns_view system.now) b.grids) }
    ensures found { IfOk result (λ b. AreFound (bounds_of (patterns_view system.now)) (renamed_by (place_in variables.now))
        (picked (sides_list constraints.now) numbers.now) numbers.now b.end (findings_view b.findings)) }
{
    closed_laws();
    let mut shared = Shared::for_system(alloc, system)?;
    let roots = lay_system(alloc, system, &mut shared)?;
    let most = most_symbols(shared.symbols.len());
    let sides = lay_some(
        alloc,
        constraints,
        numbers,
        from,
        most,
        variables,
        &mut shared,
    )?;
    let listed = sides.as_slice();
    let first = Board {
        k,
        tags,
        points: count_points(k, tags),
        limit: 0,
        symbols: shared.symbols.as_slice(),
        roots: roots.as_slice(),
        given: &[],
    };
    let (limit, entries) = settled_sizes(alloc, &first, listed)?;
    let board = Board { limit, ..first };
    let grids = rows_if(alloc, from == 0, &board, &entries)?;
    let found = read_each(alloc, &board, &entries, listed, numbers, from, findings)?;
    Ok(Batch {
        grids,
        findings: found,
        end: from + listed.len(),
    })
}

/// How many symbols a batch has at most, but for the sides of one constraint, where its system has so many.
fn most_symbols(own: usize) -> usize {
    own.saturating_mul(SYMBOLS_EACH)
        .saturating_add(SYMBOLS_BESIDE)
}

/// A table at the first of some rising limits at which no side has larger trees alone, and the limit. Where all sides are
/// inside no size is worked out, and a refutation costs what its own tree does.
fn settled_sizes(
    alloc: Global,
    board: &Board,
    sides: &[Option<(usize, usize)>],
) -> Result<(u16, SparseList<u16>), AllocError>
    requires { IsBoard board.now }
    ensures limit { IfOk result (λ r. r.0 ≤ most_tree_nodes) }
    ensures all { IfOk result (λ r. HasAllEntries (setting_of (limited board.now r.0)) r.1) }
    ensures done { IfOk result (λ r. let g = setting_of (limited board.now r.0) in IsDone g (table_of g r.1)) }
    ensures settled { IfOk result (λ r. IsSettled (limited board.now r.0) r.1 sides.now) }
{
    let mut limit: u16 = 0;
    loop {
        let now = Board { limit, ..*board };
        let entries = least_sizes(alloc, &now)?;
        if limit == MOST_TREE_NODES {
            return Ok((limit, entries));
        }
        if !is_any_large(&now, &entries, sides) {
            return Ok((limit, entries));
        }
        limit = next_limit(limit);
    }
}

/// A greater limit: 32, then four times as much, and at last the greatest.
fn next_limit(limit: u16) -> u16
    requires { limit < most_tree_nodes }
    ensures more { limit < result }
    ensures most { result ≤ most_tree_nodes }
{
    (limit * 4).max(32).min(MOST_TREE_NODES)
}

/// Whether at this limit one of the sides has larger trees alone.
fn is_any_large(board: &Board, entries: &SparseList<u16>, sides: &[Option<(usize, usize)>]) -> bool
    requires board { IsBoard board.now }
    requires all { HasAllEntries (setting_of board.now) entries.now }
    ensures { IsFalse result → (j : ℕ) → j < length sides.now → IsTold board.now entries.now (get_or sides.now j None) }
{
    for side in sides {
        if is_side_large(board, entries, *side) {
            return true;
        }
    }
    false
}

fn is_side_large(board: &Board, entries: &SparseList<u16>, side: Option<(usize, usize)>) -> bool
    requires board { IsBoard board.now }
    requires all { HasAllEntries (setting_of board.now) entries.now }
    ensures { IsFalse result → IsTold board.now entries.now side }
{
    match side {
        None => false,
        Some((left, right)) => is_large(board, entries, left, right),
    }
}

/// The rows of the roots, if they are asked for.
fn rows_if(
    alloc: Global,
    wanted: bool,
    board: &Board,
    entries: &SparseList<u16>,
) -> Result<Sequence<Grid>, AllocError>
    requires board { IsBoard board.now }
    requires all { HasAllEntries (setting_of board.now) entries.now }
    ensures { IfOk result (λ grids. wanted ≡ true → AreRows board.now entries.now board.now.roots.now grids) }
{
    if wanted {
        row_grids(alloc, board, entries, board.roots)
    } else {
        Ok(Sequence::new(alloc))
    }
}

/// Notes the answers for the sides one after another; `from` is the place of the first one's number.
fn read_each(
    alloc: Global,
    board: &Board,
    entries: &SparseList<u16>,
    sides: &[Option<(usize, usize)>],
    numbers: &[usize],
    from: usize,
    findings: Findings,
) -> Result<Findings, AllocError>
    requires ready { IsReady board.now entries.now }
    requires within { from + length sides.now ≤ length numbers.now }
    ensures { (lower : ℕ → Pat) (rename : Pat → Pat) (zs : List GhostConstraint)
        → AreReady board.now entries.now lower rename zs numbers.now from sides.now
        → AreFound lower rename (picked zs numbers.now) numbers.now from (findings_view findings)
        → IfOk result (λ f. AreFound lower rename (picked zs numbers.now) numbers.now (from + length sides.now) (findings_view f)) }
{
    let mut found = findings;
    for place in 0..sides.len() {
        let number = numbers[from + place];
        found = read_one(alloc, board, entries, sides[place], number, found)?;
    }
    Ok(found)
}

/// Notes the answer for both sides of one constraint.
fn read_one(
    alloc: Global,
    board: &Board,
    entries: &SparseList<u16>,
    side: Option<(usize, usize)>,
    number: usize,
    findings: Findings,
) -> Result<Findings, AllocError>
    requires { IsReady board.now entries.now }
    ensures { IfOk result (λ f. IsNoted board.now entries.now side number (findings_view findings) (findings_view f)) }
{
    match side {
        None => Ok(findings),
        Some((left, right)) => {
            let answer = read_answer(alloc, board, entries, left, right)?;
            Ok(note(answer, number, findings))
        }
    }
}
