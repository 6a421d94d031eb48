// Derivations that are valid, and derivations that are not, with the first bad node and the rule that it breaks. No code of the product.
ghost use Rattle.std.specs.Prelude.{◌≡◌, List, [], ◌∷◌, true, false};
ghost use Rattle.pat_words_spec.specs.Patterns.{Zero, One, Tag, Sum, Prod, Star, Var};
ghost use Rattle.pat_inclusion_spec.specs.ClosedForms.{sets_of};
ghost use Rattle.pat_inclusion_spec.specs.Covers.{is_cover};
ghost use Rattle.pat_inclusion_spec.specs.CutWords.{cuts_lie};
ghost use Rattle.pat_inclusion_spec.specs.Certificates.{CoverCert, GridCert};
ghost use Rattle.pat_derivation_spec.specs.Validity.{ShapeRule, EmptyRule, AliasRule, UseRule, DropRule, PayloadRule, CoversRule, CertRule};
ghost use Rattle.pat_examples.specs.derivations.Build.{unit, gives_receiving, variable, receives, sends, receives_second, line, derivation, entry};
ghost use Rattle.pat_examples.specs.safety.Safe.{one_message, delegation, future};
ghost use Rattle.pat_examples.specs.safety.Unsafe.{leak, alias, beside};
ghost use Rattle.pat_examples.specs.derivations.Programs.{sends_twice, handing_on, pairs, apart, one_tag, any, some_or_none, with_grid, uncovered, sends_on};
ghost use Rattle.pat_examples.specs.derivations.Derivations.{one_message_derived, with_line, with_more, with_value, with_second, sends_twice_cut, handed_on, pairs_cover, wrong_cover, pairs_again, grid_derived, delegation_derived, future_derived, leak_derived, alias_derived, beside_derived, uncovered_derived, sends_on_derived};
ghost use Rattle.pat_examples.specs.derivations.Claims.{Accepted, RejectedAt, HasForm, HasCuts};

/// Valid derivations: by covers, by grids, with variables in both forms, with payloads of both polarities.
pub fn valid_derivations()
    ensures one_message_valid { Accepted one_message one_message_derived }
    ensures pair_valid { Accepted (handing_on (Prod (Tag 0) (Tag 1)) pairs) (handed_on pairs (CoverCert (entry 0 (1 ∷ []) [] ∷ []))) }
    ensures pairs_valid { Accepted (handing_on pairs apart) (handed_on apart pairs_cover) }
    ensures grid_two { Accepted (one_tag any some_or_none) (handed_on some_or_none (GridCert 2)) }
    ensures grid_form { Accepted with_grid (grid_derived 2 ((0 ∷ []) ∷ (1 ∷ []) ∷ (2 ∷ []) ∷ []) (GridCert 2)) }
    ensures delegation_valid { Accepted delegation delegation_derived }
    ensures future_valid { Accepted future future_derived }
    ensures sends_any { Accepted sends_on (sends_on_derived (Star (Tag 0))) }
{}

/// Derivations that are refused: the first bad node, and the first rule that it breaks.
pub fn refused_derivations()
    ensures one_message_cert { RejectedAt one_message (with_line one_message_derived 3 (line unit (sends 0 0 One ∷ []) [])) 2 CertRule }
    ensures one_line_more { RejectedAt one_message (with_more one_message_derived (line unit [] [])) 7 ShapeRule }
    ensures variable_of_nothing { RejectedAt one_message (with_value one_message_derived Zero) 1 CertRule }
    ensures second_class { RejectedAt one_message
        (with_line one_message_derived 4 (line unit (receives_second 0 0 (Tag 0) ∷ []) [])) 4 UseRule }
    ensures pairs_wrong { RejectedAt (handing_on pairs apart) (handed_on apart wrong_cover) 0 CertRule }
    ensures pairs_left_over { RejectedAt (handing_on pairs pairs) pairs_again 0 CertRule }
    ensures grid_one { RejectedAt (one_tag any some_or_none) (handed_on some_or_none (GridCert 1)) 0 CertRule }
    ensures grid_form_short { RejectedAt with_grid (grid_derived 2 ((0 ∷ []) ∷ (1 ∷ []) ∷ []) (GridCert 2)) 1 CertRule }
    ensures grid_form_descends { RejectedAt with_grid (grid_derived 2 ((0 ∷ []) ∷ (2 ∷ []) ∷ (1 ∷ []) ∷ []) (GridCert 2)) 0 ShapeRule }
    ensures grid_form_other_bound { RejectedAt with_grid (grid_derived 2 ((0 ∷ []) ∷ (1 ∷ []) ∷ (2 ∷ []) ∷ []) (GridCert 3)) 1 CertRule }
    ensures future_without_cert { RejectedAt future (with_line future_derived 9 (line unit (receives 0 0 One ∷ []) [])) 9 CertRule }
    ensures leak_drops { RejectedAt leak leak_derived 0 DropRule }
    ensures alias_refused { RejectedAt alias alias_derived 3 AliasRule }
    ensures beside_refused { RejectedAt beside beside_derived 7 PayloadRule }
    ensures uncovered_refused { RejectedAt uncovered uncovered_derived 2 CoversRule }
    ensures sends_nothing { RejectedAt sends_on (sends_on_derived Zero) 0 EmptyRule }
    ensures no_value { RejectedAt one_message (derivation [] one_message_derived.lines) 1 ShapeRule }
    ensures missing_line { RejectedAt one_message (derivation one_message_derived.vars []) 0 ShapeRule }
    ensures payload_returnable { RejectedAt delegation
        (with_line delegation_derived 4 (line unit (receives 1 0 any ∷ receives 2 1 One ∷ []) [])) 3 UseRule }
    ensures foreign_tag { RejectedAt one_message (with_line one_message_derived 3 (line unit (sends 0 0 (Tag 1) ∷ []) [])) 2 CertRule }
    ensures cut_off { RejectedAt sends_twice (sends_twice_cut (sends 0 0 (Prod (Tag 0) (Tag 0)) ∷ [])) 2 ShapeRule }
    ensures cut_off_unnamed { RejectedAt sends_twice (sends_twice_cut []) 0 UseRule }
    ensures name_in_bound_part { RejectedAt one_message
        (with_line one_message_derived 1 (line (gives_receiving 0 (Var 1)) (sends 0 0 One ∷ []) [])) 1 ShapeRule }
    ensures variable_of_another_interface { RejectedAt delegation (with_second delegation_derived (variable 0 (Tag 0))) 3 CertRule }
    ensures out_of_order { RejectedAt delegation
        (with_line delegation_derived 4 (line unit (receives 2 1 One ∷ receives_second 1 0 any ∷ []) [])) 4 ShapeRule }
{}

/// Closed forms, cut words, and covers that show nothing.
pub fn forms_and_cuts()
    ensures period_left_out { is_cover 1 (sets_of 1 (Star (Tag 0))) (sets_of 1 One) (entry 0 [] ([] ∷ []) ∷ []) ≡ false }
    ensures large_number { is_cover 1 (sets_of 1 One) (sets_of 1 (Prod (Tag 0) (Star (Tag 0)))) (entry 0 (4294967295 ∷ []) [] ∷ [])
        ≡ false }
    ensures form_of_star { HasForm 2 (Star (Sum (Tag 0) (Prod (Tag 0) (Star (Tag 1)))))
        ((0 ∷ 0 ∷ [], (1 ∷ 0 ∷ []) ∷ []) ∷ (1 ∷ 0 ∷ [], (1 ∷ 0 ∷ []) ∷ (0 ∷ 1 ∷ []) ∷ []) ∷ []) }
    ensures two_in_any { cuts_lie 1 1 (Prod (Tag 0) (Tag 0)) any ≡ true }
    ensures two_in_one { cuts_lie 2 1 (Prod (Tag 0) (Tag 0)) (Tag 0) ≡ false }
    ensures cuts_of_put { HasCuts 2 2 (Prod (Tag 0) (Star (Tag 1))) ((1 ∷ 2 ∷ []) ∷ (1 ∷ 1 ∷ []) ∷ (1 ∷ 0 ∷ []) ∷ []) }
{}
