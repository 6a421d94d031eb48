// Closed-form assignments and bounds of constraints written out, by computation. No code of the product.
ghost use Rattle.std.specs.Prelude.{◌≡◌, true, false, [], ◌∷◌};
ghost use Rattle.pat_words_spec.specs.Patterns.{Zero, One, Tag, Sum, Prod, Star, Var};
ghost use Rattle.pat_examples.specs.safety.Safe.{one_message};
ghost use Rattle.pat_examples.specs.inference.Programs.{unrolled, in_pairs};
ghost use Rattle.pat_solve_spec.specs.LowerBounds.{lowers};
ghost use Rattle.pat_solve_spec.specs.Assignments.{derivative, put_in_turn, first_round, assigned, made, assignment_fits, bound_of, is_in_bounds};
ghost use Rattle.pat_solve_spec.specs.Answers.{constraints_of, values_of};
ghost use Rattle.pat_examples.specs.solving.Constraints.{lies_in, alone, in_a_ring, in_a_row, by_way_of_the_second, with_rights};

/// What a variable has by constraints, and what is left of a pattern once the variable is taken.
pub fn steps()
    ensures lower { lowers in_a_ring 1 ≡ Sum One (Prod (Var 2) (Tag 0)) }
    ensures none { lowers in_a_ring 3 ≡ Zero }
    ensures both_factors { derivative 1 (Prod (Prod (Var 1) (Tag 0)) (Var 1)) ≡ Sum (Prod (Tag 0) (Var 1)) (Prod (Var 1) (Tag 0)) }
    ensures star { derivative 1 (Star (Prod (Var 1) (Tag 0))) ≡ Prod (Star (Prod (Var 1) (Tag 0))) (Tag 0) }
    ensures others { derivative 1 (Sum (Var 2) (Tag 0)) ≡ Zero }
    ensures in_turn { put_in_turn ((1, Prod (Var 2) (Tag 0)) ∷ (2, Tag 1) ∷ []) (Var 1) ≡ Prod (Tag 1) (Tag 0) }
    ensures as_it_stands { put_in_turn [] (Sum (Tag 0) (Tag 0)) ≡ Sum (Tag 0) (Tag 0) }
{}

/// Assignments, and what is made on the way.
pub fn assignments()
    ensures alone { assigned alone (1 ∷ []) ≡ (1, Star (Tag 0)) ∷ [] }
    ensures made_alone { made alone (1 ∷ [])
        ≡ Sum One (Prod (Var 1) (Tag 0)) ∷ One ∷ Tag 0 ∷ Tag 0 ∷ Star (Tag 0) ∷ One ∷ Star (Tag 0) ∷ Prod (Star (Tag 0)) (Tag 0)
        ∷ Star (Tag 0) ∷ [] }
    ensures ring { assigned in_a_ring (1 ∷ 2 ∷ [])
        ≡ (1, Sum One (Prod (Prod (Star (Prod (Tag 0) (Tag 1))) (Tag 1)) (Tag 0))) ∷ (2, Prod (Star (Prod (Tag 0) (Tag 1))) (Tag 1))
        ∷ [] }
    ensures ring_fits { assignment_fits 2 in_a_ring (1 ∷ 2 ∷ []) ≡ true }
    ensures first_of_row { first_round in_a_row [] (1 ∷ 2 ∷ 3 ∷ []) ≡ (1, Var 2) ∷ (2, Prod (Var 3) (Tag 0)) ∷ (3, Tag 1) ∷ [] }
    ensures row { assigned in_a_row (1 ∷ 2 ∷ 3 ∷ []) ≡ (1, Prod (Tag 1) (Tag 0)) ∷ (2, Prod (Tag 1) (Tag 0)) ∷ (3, Tag 1) ∷ [] }
    ensures by_way { first_round by_way_of_the_second [] (1 ∷ 2 ∷ 3 ∷ [])
        ≡ (1, Prod (Var 2) (Tag 0)) ∷ (2, Tag 1) ∷ (3, Prod (Tag 1) (Tag 0)) ∷ [] }
    ensures without_constraints { assigned [] (1 ∷ []) ≡ (1, Zero) ∷ [] }
{}

/// Bounds: one more than the greatest degree of the right sides without variables, as they stand.
pub fn bounds()
    ensures least { bound_of [] ≡ 1 }
    ensures one_more { bound_of (with_rights (Tag 0 ∷ Prod (Tag 0) (Prod (Tag 1) (Tag 0)) ∷ [])) ≡ 4 }
    ensures unsimplified { bound_of (with_rights (Sum (Tag 0) (Prod Zero (Prod (Tag 0) (Tag 0))) ∷ [])) ≡ 3 }
    ensures of_stars { bound_of (with_rights (Star (Sum (Tag 0) (Tag 1)) ∷ [])) ≡ 1 }
    ensures variables { bound_of alone ≡ 1 }
    ensures most_tags { is_in_bounds 16 [] ≡ true }
    ensures too_many_tags { is_in_bounds 17 [] ≡ false }
    ensures of_both { is_in_bounds 2 in_a_ring ≡ true }
    ensures not_flat { is_in_bounds 2 (with_rights (Star (Prod (Tag 0) (Tag 1)) ∷ [])) ≡ false }
{}

/// Programs.
pub fn programs()
    ensures values { values_of one_message 0 ≡ (1, One) ∷ [] }
    ensures bound { bound_of (constraints_of unrolled 0) ≡ 2 }
    ensures flat { is_in_bounds 1 (constraints_of unrolled 0) ≡ true }
    ensures pairs { is_in_bounds 2 (constraints_of in_pairs 0) ≡ true }
{}
