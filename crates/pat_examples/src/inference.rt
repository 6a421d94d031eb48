// Inference on programs written out: what is found in them; which can't be typed since a rule is broken, and which can since
// their constraints are solved. No code of the product.
ghost use Rattle.std.specs.Prelude.{[], ◌∷◌};
ghost use Rattle.pat_words_spec.specs.Patterns.{One, Tag, Sum, Prod, Star, Var};
ghost use Rattle.pat_semantics_spec.specs.Programs.{Receiving};
ghost use Rattle.pat_type_system_spec.specs.Types.{MailboxTerm};
ghost use Rattle.pat_type_system_spec.specs.Typings.{IsTypable};
ghost use Rattle.pat_type_schemes_spec.specs.Signatures.{OfParameter, OfNeed};
ghost use Rattle.pat_examples.specs.safety.Safe.{one_message};
ghost use Rattle.pat_infer_spec.specs.Constraints.{AtNode, AtName, AliasRule, BranchRule, CoversRule, UnusedRule, SecondRule, constraint};
ghost use Rattle.pat_examples.specs.inference.Build.{broken, receiver, returnable, held, sender, line, unit_line};
ghost use Rattle.pat_examples.specs.inference.Programs.{uncovered, handed_back, spawned_on, freed_once, sent_to_itself, left_aside, in_pairs, unrolled, put_twice, unanswered, asked_by_nobody};
ghost use Rattle.pat_examples.specs.inference.Shown.{IsFirst, Finds};

use pat_infer_laws::{enough_laws, lossless_laws};

/// The rule that a program breaks first, and where.
pub fn broken_rules()
    ensures covers { IsFirst uncovered (broken CoversRule (AtNode 2)) }
    ensures second { IsFirst handed_back (broken SecondRule (AtName 0 1)) }
    ensures branch { IsFirst freed_once (broken BranchRule (AtNode 2)) }
    ensures alias { IsFirst sent_to_itself (broken AliasRule (AtNode 3)) }
    ensures unused { IsFirst left_aside (broken UnusedRule (AtName 0 1)) }
{}

/// The variables, constraints and nodes of programs that break no rule.
pub fn found()
    ensures spawned_on { Finds spawned_on (receiver 1 (OfParameter 0 0) ∷ [])
        (constraint 1 One One (AtName 0 2) ∷ constraint 0 (Tag 0) (Tag 0) (AtName 0 1) ∷ constraint 1 (Var 1) (Tag 0) (AtName 0 0) ∷ [])
        (unit_line 5 ((1, sender 0 (Tag 0)) ∷ [])
        ∷ unit_line 4 ((1, sender 0 (Tag 0)) ∷ [])
        ∷ unit_line 3 []
        ∷ unit_line 2 ((2, returnable 1 One) ∷ [])
        ∷ unit_line 1 ((1, sender 0 (Tag 0)) ∷ (2, returnable 1 One) ∷ [])
        ∷ unit_line 0 ((0, returnable 1 (Tag 0)) ∷ [])
        ∷ unit_line 6 []
        ∷ []) }
    ensures in_pairs { Finds in_pairs []
        (constraint 0 (Star (Prod (Tag 0) (Tag 1))) (Prod (Star (Tag 0)) (Star (Tag 1))) (AtName 0 0)
        ∷ constraint 0 (Prod (Star (Tag 0)) (Star (Tag 1))) (Prod (Star (Tag 0)) (Star (Tag 1))) (AtName 1 0)
        ∷ [])
        (unit_line 0 ((0, returnable 0 (Prod (Star (Tag 0)) (Star (Tag 1)))) ∷ [])
        ∷ unit_line 1 ((0, returnable 0 (Prod (Star (Tag 0)) (Star (Tag 1)))) ∷ [])
        ∷ unit_line 2 []
        ∷ []) }
    ensures unrolled { Finds unrolled []
        (constraint 0 (Star (Tag 0)) (Sum One (Prod (Tag 0) (Star (Tag 0)))) (AtName 0 0)
        ∷ constraint 0 (Sum One (Prod (Tag 0) (Star (Tag 0)))) (Sum One (Prod (Tag 0) (Star (Tag 0)))) (AtName 1 0)
        ∷ [])
        (unit_line 0 ((0, returnable 0 (Sum One (Prod (Tag 0) (Star (Tag 0))))) ∷ [])
        ∷ unit_line 1 ((0, returnable 0 (Sum One (Prod (Tag 0) (Star (Tag 0))))) ∷ [])
        ∷ unit_line 2 []
        ∷ []) }
    ensures one_message { Finds one_message (receiver 0 (OfNeed 2 0) ∷ [])
        (constraint 0 One One (AtName 0 1)
        ∷ constraint 0 (Prod (Tag 0) (Var 1)) (Tag 0) (AtNode 2)
        ∷ constraint 0 One (Var 1) (AtNode 1)
        ∷ [])
        (unit_line 6 []
        ∷ unit_line 5 ((1, returnable 0 One) ∷ [])
        ∷ unit_line 4 ((0, returnable 0 (Tag 0)) ∷ [])
        ∷ unit_line 3 ((0, sender 0 (Tag 0)) ∷ [])
        ∷ unit_line 2 ((0, returnable 0 (Var 1)) ∷ [])
        ∷ line 1 (MailboxTerm 0 Receiving (Var 1)) []
        ∷ unit_line 0 []
        ∷ []) }
{}

/// The constraints that are refuted later: at the parameter of `cell`, and at the payload that isn't needed.
pub fn refutable()
    ensures put_twice { Finds put_twice (receiver 0 (OfParameter 0 0) ∷ receiver 0 (OfNeed 7 0) ∷ [])
        (constraint 0 One One (AtName 0 2)
        ∷ constraint 0 (Var 1) (Tag 0) (AtName 0 0)
        ∷ constraint 0 (Prod (Prod (Tag 0) (Tag 0)) (Var 2)) (Var 1) (AtNode 7)
        ∷ constraint 0 One (Var 2) (AtNode 6)
        ∷ [])
        (unit_line 4 []
        ∷ unit_line 3 []
        ∷ unit_line 2 ((2, returnable 0 One) ∷ [])
        ∷ unit_line 1 ((2, returnable 0 One) ∷ [])
        ∷ unit_line 0 ((0, returnable 0 (Tag 0)) ∷ [])
        ∷ unit_line 12 ((0, sender 0 (Tag 0)) ∷ [])
        ∷ unit_line 11 ((0, sender 0 (Tag 0)) ∷ [])
        ∷ unit_line 10 ((0, sender 0 (Prod (Tag 0) (Tag 0))) ∷ [])
        ∷ unit_line 9 ((0, returnable 0 (Var 1)) ∷ [])
        ∷ unit_line 8 ((0, held 0 (Var 1)) ∷ [])
        ∷ unit_line 7 ((0, held 0 (Var 2)) ∷ [])
        ∷ line 6 (MailboxTerm 0 Receiving (Var 2)) []
        ∷ unit_line 5 []
        ∷ []) }
    ensures unanswered { Finds unanswered (receiver 1 (OfParameter 0 0) ∷ [])
        (constraint 1 One One (AtName 0 2) ∷ constraint 0 One (Tag 0) (AtName 0 1) ∷ constraint 1 (Var 1) (Tag 0) (AtName 0 0) ∷ [])
        (unit_line 2 []
        ∷ unit_line 1 ((2, returnable 1 One) ∷ [])
        ∷ unit_line 0 ((0, returnable 1 (Tag 0)) ∷ [])
        ∷ unit_line 3 []
        ∷ []) }
{}

/// Programs in which a rule is broken can't be typed.
pub fn untypable_programs()
    ensures covers { IsTypable uncovered → ⊥ }
    ensures second { IsTypable handed_back → ⊥ }
    ensures branch { IsTypable freed_once → ⊥ }
    ensures alias { IsTypable sent_to_itself → ⊥ }
    ensures unused { IsTypable left_aside → ⊥ }
{
    lossless_laws();
}

/// Programs whose constraints are solved can be typed; the last one though no caller gives its sending result a word.
pub fn typable_programs()
    ensures one_message { IsTypable one_message }
    ensures spawned_on { IsTypable spawned_on }
    ensures asked_by_nobody { IsTypable asked_by_nobody }
{
    enough_laws();
}
