// What derivable words, their cuts and tables of least trees are worth. No code of the product.
ghost use Rattle.std.specs.Prelude.{ℕ};
ghost use Rattle.pat_words_spec.specs.Patterns.{Language};
ghost use Rattle.pat_inclusion_laws.specs.bounds.Laws.{LeastLaw, DerivableMeetsLaw, BelowLaw, NoRefutationLaw, PatternsLaw, TreeWordLaw, ThroughLaw, CutMeetsLaw, CutLeastLaw, InsideByCutsLaw, OutsideByCutsLaw, StartLaw, GrowLaw, GroundLaw, RebuildLaw, LeastSizeLaw, FlatTreesLaw, DerivableByTableLaw, GivenByTableLaw, InsideByTableLaw, FoundByTableLaw, LargeByTableLaw, GridSolvesLaw, LayoutLaw, GivenLayoutLaw, KeptLaw, NumbersLaw, PlacesLaw, WriteLaw, FallLaw, PassLaw, AnswersLaw, UsableLaw, ClosedLaw, FlatClosedLaw, ValuesLaw, RightByTableLaw, PassedOnLaw, SearchLaw, EvalLaw, OrderLaw, DoneLaw, SmallWordLaw, TotalLaw, PointsLieLaw, PointsWhereLaw, InBoundsLaw};

/// An assignment: a set of words, or of points, for each variable.
pub trait Assignment {
    ghost values: { ℕ → Language };
}

/// Derivable words, and so their cuts, are in each assignment that meets the lower bounds; no solution leaves room for a refutation.
pub fn assignment_laws<A: Assignment>()
    ensures least { LeastLaw A.values }
    ensures below { BelowLaw A.values }
    ensures refuted { NoRefutationLaw A.values }
    ensures through { ThroughLaw A.values }
    ensures cuts { CutLeastLaw A.values }
{}

/// Derivable words meet the lower bounds themselves, patterns may be an assignment, and a tree shows just one word.
pub fn derivable_laws()
    ensures meets { DerivableMeetsLaw }
    ensures patterns { PatternsLaw }
    ensures words { TreeWordLaw }
    ensures small { SmallWordLaw }
    ensures usable { UsableLaw }
{}

/// The cuts of derivable words meet the lower bounds, cut, and tell of a flat right side all there is.
pub fn cut_set_laws()
    ensures meets { CutMeetsLaw }
    ensures inside { InsideByCutsLaw }
    ensures outside { OutsideByCutsLaw }
{}

/// A table that is closed under steps and has a tree for each entry has the sizes of least trees.
pub fn table_laws()
    ensures start { StartLaw }
    ensures grow { GrowLaw }
    ensures ground { GroundLaw }
    ensures rebuild { RebuildLaw }
    ensures least { LeastSizeLaw }
    ensures trees { FlatTreesLaw }
    ensures exists { DoneLaw }
{}

/// What such a table says of derivable words, and of a search for one outside a pattern.
pub fn search_laws()
    ensures derivable { DerivableByTableLaw }
    ensures given { GivenByTableLaw }
    ensures inside { InsideByTableLaw }
    ensures found { FoundByTableLaw }
    ensures large { LargeByTableLaw }
    ensures grids { GridSolvesLaw }
    ensures answers { AnswersLaw }
    ensures in_bounds { InBoundsLaw }
{}

/// Patterns can be laid out as symbols.
pub fn layout_laws()
    ensures system { LayoutLaw }
    ensures given { GivenLayoutLaw }
    ensures kept { KeptLaw }
{}

/// A table may be one list of entries, and points numbers; what a loop over it needs.
pub fn number_laws()
    ensures numbers { NumbersLaw }
    ensures order { OrderLaw }
    ensures listed { PointsWhereLaw }
    ensures places { PlacesLaw }
    ensures write { WriteLaw }
    ensures fall { FallLaw }
    ensures pass { PassLaw }
    ensures passed { PassedOnLaw }
{}

/// Patterns without variables, as right sides and as values.
pub fn closed_laws()
    ensures closed { ClosedLaw }
    ensures flat { FlatClosedLaw }
    ensures values { ValuesLaw }
    ensures right { RightByTableLaw }
    ensures search { SearchLaw }
    ensures eval { EvalLaw }
    ensures total { TotalLaw }
    ensures lie { PointsLieLaw }
{}
