//! A valid derivation gives a typing; and what the first bad number says. No code of the product.
#![tactic(auto)]

ghost use Rattle.pat_derivation_laws.specs.Laws.{ValidGivesTyping, ValidHolds, TrueGivesTyping, ValidGivesTypable, ValidIsNoneBad, FirstBadIs, ScopeOfBody, ScopeOfPart, EmptyReads, AliasReads, PayloadReads, CoversReads, CertReads, TestedLaw};

/// A valid derivation of a well-formed program gives a typing of it, so the program is typable; true inclusions are enough.
pub fn validity_laws()
    ensures typing { ValidGivesTyping }
    ensures typable { ValidGivesTypable }
    ensures holds { ValidHolds }
    ensures inclusions { TrueGivesTyping }
{}

/// The first bad number is the least at which a rule is broken, with the first rule that is broken there; a valid derivation has none.
pub fn first_bad_laws()
    ensures none { ValidIsNoneBad }
    ensures first { FirstBadIs }
{}

/// What is in scope, from a function's body down.
pub fn scope_laws()
    ensures body { ScopeOfBody }
    ensures part { ScopeOfPart }
{}

/// What the tests of five rules say, without tests.
pub fn reading_laws()
    ensures empty { EmptyReads }
    ensures alias { AliasReads }
    ensures payload { PayloadReads }
    ensures covers { CoversReads }
    ensures cert { CertReads }
{}

/// Words of sending patterns by tests of the values of their variables: nothing is replaced.
pub fn tested_laws()
    ensures tested { TestedLaw }
{}
