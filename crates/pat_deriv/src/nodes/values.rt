// Values of pattern variables.
ghost use Rattle.std.specs.Prelude.{◌≡◌};
ghost use Rattle.pat_patterns.specs.Views.{pattern_view};
ghost use Rattle.pat_derivations.specs.Views.{value_view};
ghost use Rattle.pat_derivation_text_spec.specs.LineReading as reading;
ghost use Rattle.pat_derivation_lines.specs.patterns.Answers.{Gives};
ghost use Rattle.pat_derivation_lines.specs.patterns.Views.{names_of};

use crate::nodes::grids::read_grid;
use pat_core::TagDecl;
use pat_derivation_lines::{Unread, read_pattern};
use pat_derivations::VarValue;
use pat_patterns::{Pattern, has_values};
use pat_texts::behind;
use std::alloc::Global;

/// A pattern as a value, if it has no variable.
#[tactic(auto, using(crate::proofs::Closed::closed_is))]
fn closed_value(pattern: Pattern) -> Result<VarValue, Unread>
    ensures { Gives value_view (reading.closed_value (pattern_view pattern)) result }
{
    if has_values(&pattern, 0) {
        Ok(VarValue::Pattern(pattern))
    } else {
        Err(Unread::NotSpelled)
    }
}

fn read_closed(alloc: Global, tags: &[TagDecl], text: &[u8]) -> Result<VarValue, Unread>
    ensures { Gives value_view (reading.read_closed (names_of tags.now) text.now) result }
{
    let pattern = read_pattern(alloc, tags, text)?;
    closed_value(pattern)
}

/// The value of a variable of the interface with these tags.
pub fn read_value(alloc: Global, tags: &[TagDecl], text: &[u8]) -> Result<VarValue, Unread>
    ensures { Gives value_view (reading.read_value (names_of tags.now) text.now) result }
{
    match behind(text, b"@") {
        Some(more) => read_grid(alloc, tags.len(), more),
        None => read_closed(alloc, tags, text),
    }
}
