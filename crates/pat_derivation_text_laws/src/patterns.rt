// That the text of a pattern is read as this pattern, and no other text as one. No code of the product.
ghost use Rattle.pat_derivation_text_laws.specs.patterns.Laws.{PatternIsSpelled, PatternIsRead, NumberIsSpelled, NumberIsRead};

/// A pattern's text is read as this pattern, and what is read is a pattern's text.
pub fn pattern_text_laws()
    ensures spelled { PatternIsSpelled }
    ensures read { PatternIsRead }
{}

/// A number is read as it is written, and what is read is a number's text.
pub fn number_text_laws()
    ensures spelled { NumberIsSpelled }
    ensures read { NumberIsRead }
{}
