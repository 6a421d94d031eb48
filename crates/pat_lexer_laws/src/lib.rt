//! Laws of how a text divides into tokens. No code of the product.
#![tactic(auto)]

ghost use Rattle.std.specs.Prelude.{ℕ, List};
ghost use Rattle.pat_lexer_spec.specs.Tokens.{Spanned};
ghost use Rattle.pat_lexer_spec.specs.Divisions.{OneDivision};
ghost use Rattle.pat_lexer_spec.specs.Held.{IsHeld, NothingWhole};

/// A text divides in at most one way, or is refused in at most one way.
pub fn division_laws()
    ensures { (text : List ℕ) → OneDivision text }
{}

/// All of some bytes is held only where nothing in them is known to be whole: no reader may hold back everything.
pub fn held_law()
    ensures { (bytes : List ℕ) (tokens : List Spanned) → IsHeld bytes tokens bytes → NothingWhole bytes }
{}
