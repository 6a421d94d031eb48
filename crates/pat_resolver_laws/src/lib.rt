//! Laws of names and kinds, and examples of each refusal. No code of the product.
#![tactic(auto)]

ghost use Rattle.std.specs.Prelude.{◌≡◌, [], ◌++◌};
ghost use Rattle.pat_parser_spec.specs.Trees.{span};
ghost use Rattle.pat_resolver_spec.specs.Findings.{findings, found, UnknownName, Twice, WrongArity, WrongKind, ForeignTag, EmptySending, TooManyTags};
ghost use Rattle.pat_resolver_spec.specs.Numbering.{numbered};
ghost use Rattle.pat_resolver_laws.specs.Laws.{EachTreeIsAnswered, ResolvedIsWhole, StringsAreKept, SpelledIsWritten, SpelledIsWhole, NeededIsGiven, NumberedIsPlaced};
ghost use Rattle.pat_resolver_laws.specs.Examples as example;

/// A tree resolves or is refused. What it resolves to is well formed, with names and strings that a text can have and a place
/// for each part. The program's string literals are the tree's.
pub fn resolution_laws()
    ensures answer { EachTreeIsAnswered }
    ensures whole { ResolvedIsWhole }
    ensures strings { StringsAreKept }
    ensures placed { NumberedIsPlaced }
{}

/// What a text spells is a tree as above, so what it resolves to is whole.
pub fn text_laws()
    ensures written { SpelledIsWritten }
    ensures whole { SpelledIsWhole }
{}

/// Where nothing is found in a term, it has the kind that is needed of it.
pub fn kind_law()
    ensures { NeededIsGiven }
{}

/// Each rule is found where it is broken: in a declaration's head, at `main`, or in a body.
pub fn refusals()
    ensures unknown_function { findings 24 example.unknown_function ≡ found UnknownName (span 19 20) }
    ensures no_main { findings 24 example.no_main ≡ found UnknownName (span 24 24) }
    ensures own_bound { findings 36 example.own_bound ≡ found UnknownName (span 27 28) }
    ensures twice { findings 48 example.same_tag ≡ found Twice (span 19 20) }
    ensures twice_clause { findings 96 example.two_frees ≡ found Twice (span 82 86) }
    ensures arity { findings 29 example.main_with_parameter ≡ found WrongArity (span 4 8) }
    ensures last_kind { findings 35 example.wrong_last ≡ found WrongKind (span 32 33) }
    ensures units_compared { findings 36 example.units_compared ≡ found WrongKind (span 25 27) }
    ensures second_branch { findings 60 example.second_branch ≡ found WrongKind (span 49 50) }
    ensures foreign { findings 86 example.foreign_tag ≡ found ForeignTag (span 81 82) }
    ensures empty { findings 46 example.empty_sending ≡ found EmptySending (span 16 19) }
    ensures too_many { findings 260 example.many_tags ≡ found TooManyTags (span 229 232) }
    ensures same_parameter { findings 59 example.same_parameter ≡ found Twice (span 14 15) }
    ensures payloads { findings 68 example.payload_too_many ≡ found WrongArity (span 61 62) }
    ensures base_target { findings 42 example.base_target ≡ found WrongKind (span 32 39) }
    ensures bare_guard { findings 87 example.bare_guard ≡ found WrongKind (span 40 60) }
    ensures heads_first { findings 69 example.body_and_head ≡ found UnknownName (span 29 30) ++ found WrongKind (span 15 17) }
{}

/// Trees without a finding, and their programs: a call of a function that is declared behind its caller, a guard, a name that
/// is bound within what another name is bound to, and payloads that hand over the right to receive, one with a pattern that
/// has no word.
pub fn numberings()
    ensures forward { findings 65 example.forward ≡ [] }
    ensures forward_program { numbered example.forward ≡ example.forward_program }
    ensures guarding { findings 123 example.guarding ≡ [] }
    ensures guarding_program { numbered example.guarding ≡ example.guarding_program }
    ensures inner_binder { findings 60 example.inner_binder ≡ [] }
    ensures inner_binder_program { numbered example.inner_binder ≡ example.inner_binder_program }
    ensures received_payload { findings 52 example.received_payload ≡ [] }
    ensures received_payload_program { numbered example.received_payload ≡ example.received_payload_program }
{}
