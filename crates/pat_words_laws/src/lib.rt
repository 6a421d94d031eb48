//! Laws of words and patterns. No code of the product.
#![tactic(auto)]

ghost use Rattle.pat_words_spec.specs.Patterns.{ResidualLaw, NullableLaw, InhabitedLaw, CoversLaw};
ghost use Rattle.pat_words_spec.specs.Sizes.{LevelsLaw, DegreeLaw};
ghost use Rattle.pat_words_spec.specs.Substitutions.{SameLaw, SumLaw, ProdLaw, StarLaw, SubstitutionLaw};

/// The laws of patterns, which code and proofs above cite.
pub fn pattern_laws()
    ensures residual { ResidualLaw }
    ensures nullable { NullableLaw }
    ensures inhabited { InhabitedLaw }
    ensures covers { CoversLaw }
{}

/// The simplifying forms and a substitution keep the words that they should.
pub fn form_laws()
    ensures same { SameLaw }
    ensures sum { SumLaw }
    ensures product { ProdLaw }
    ensures star { StarLaw }
    ensures substitution { SubstitutionLaw }
{}

/// How levels and degree go with the number of nodes.
pub fn size_laws()
    ensures levels { LevelsLaw }
    ensures degree { DegreeLaw }
{}
