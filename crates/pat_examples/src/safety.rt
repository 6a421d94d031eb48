// Examples: programs that are safe by the law, and programs that reach a fault. No code of the product.
ghost use Rattle.std.specs.Prelude.{List, [], ◌∷◌, Some, None, pos};
ghost use Rattle.std.specs.Fmt.{signed_decimal};
ghost use Rattle.pat_semantics_spec.specs.WellFormed.{WellFormed};
ghost use Rattle.pat_type_system_spec.specs.Typings.{IsTypable};
ghost use Rattle.pat_semantics_spec.specs.Runs.{EndDone, EndWaiting, EndFull};
ghost use Rattle.pat_examples.specs.safety.Witnesses.{IsWitness};
ghost use Rattle.pat_examples.specs.safety.Safe.{one_message, future, future_history, pump, delegation, swap, swap_history, crossed, crossed_history, turned, turned_history, turned_start, EndsAs};
ghost use Rattle.pat_examples.specs.safety.Forms.{branches, given, renamed, impossible};
ghost use Rattle.pat_examples.specs.safety.Unsafe.{leak, alias, beside, waiting, ReachesFault, ReachesFailingGuard, OnlyAlias, OnlyBeside};

/// Programs with messages, spawning, calls, recursion, payloads and delegation are well formed, can be typed, and are safe.
pub fn safe_programs()
    ensures one_message { IsWitness one_message }
    ensures future { IsWitness future }
    ensures pump { IsWitness pump }
    ensures delegation { IsWitness delegation }
    ensures swap { IsWitness swap }
    ensures crossed { IsWitness crossed }
    ensures turned { IsWitness turned }
{}

/// Some of them by what makes them safe: they are well formed and can be typed.
pub fn typable_programs()
    ensures one_message { WellFormed one_message × IsTypable one_message }
    ensures crossed { WellFormed crossed × IsTypable crossed }
    ensures turned { WellFormed turned × IsTypable turned }
{}

/// Programs with a choice, with a function that gives back a mailbox, with a mailbox variable as a value, and with a guard without
/// clauses are so too.
pub fn safe_forms()
    ensures branches { IsWitness branches }
    ensures given { IsWitness given }
    ensures renamed { IsWitness renamed }
    ensures impossible { IsWitness impossible }
{}

/// Histories of four of those programs, to the end: what they print, which mailboxes are left, and which threads wait; and one that a limit on
/// messages holds back.
pub fn runs()
    ensures future { EndsAs future future_history None 34 EndDone (signed_decimal (pos 5) ∷ []) [] [] }
    ensures swap { EndsAs swap swap_history None 11 EndDone [] (0 ∷ 1 ∷ []) [] }
    ensures crossed { EndsAs crossed crossed_history None 13 EndWaiting [] (0 ∷ 1 ∷ []) (1 ∷ 2 ∷ []) }
    ensures turned { EndsAs turned turned_history None 13 EndDone [] [] [] }
    ensures held { EndsAs turned turned_start (Some 1) 7 EndFull [] (0 ∷ []) (0 ∷ []) }
{}

/// Well-formed programs that reach a fault. Two of them are typed but for one rule: that a target and its payloads are
/// different variables, and that beside a received mailbox a clause uses its own names alone.
pub fn unsafe_programs()
    ensures formed { WellFormed leak × WellFormed alias × WellFormed beside }
    ensures leak { ReachesFault leak }
    ensures alias { ReachesFault alias }
    ensures only_alias { OnlyAlias }
    ensures beside { ReachesFault beside }
    ensures only_beside { OnlyBeside }
{}

/// A well-formed program that waits for a message that nobody can send reaches a failing guard.
pub fn failing_guards()
    ensures formed { WellFormed waiting }
    ensures fails { ReachesFailingGuard waiting }
{}
