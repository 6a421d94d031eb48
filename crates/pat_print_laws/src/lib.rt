//! Laws of the canonical text: its tokens spell the tree again, and its bytes divide into these tokens. No code of the product.
#![tactic(auto)]

ghost use Rattle.std.specs.Prelude.{◌≡◌, List, ℕ};
ghost use Rattle.pat_lexer_spec.specs.Tokens.{Spanned};
ghost use Rattle.pat_parser_spec.specs.Trees.{Tree};
ghost use Rattle.pat_parser_spec.specs.Items.{Limits};
ghost use Rattle.pat_parser_spec.specs.Claims.{SpellsTree};
ghost use Rattle.pat_print_spec.specs.Canonical.{canonical, tokens_of};
ghost use Rattle.pat_print_laws.specs.RoundTrip.{kinds, SpelledAgain};
ghost use Rattle.pat_print_spec.specs.Text.{canonical_text};
ghost use Rattle.pat_print_laws.specs.Examples.{brackets_tree, brackets_text, messages_tree, messages_text};
ghost use Rattle.pat_lexer_spec.specs.Divisions.{Divides};
ghost use Rattle.pat_parser_laws.specs.Names.{AreSpelled};
ghost use Rattle.pat_print_laws.specs.ReadAgain.{IsWritable, DividesInto, CanBeSpelled, ReadsAs};

/// The tokens of the canonical text of a tree that was read are read as the same tree, places aside, within the same
/// limits: none of them is too deep.
pub fn round_trip_law()
    ensures { (lim : Limits) (ts us : List Spanned) (m : Tree) → SpellsTree lim ts m → kinds us ≡ tokens_of (canonical m)
        → SpelledAgain lim m us }
{}

/// The canonical text of two trees, by computation: brackets, braces, spaces, escapes and types of payloads.
pub fn example_law()
    ensures brackets { canonical_text brackets_tree ≡ brackets_text }
    ensures messages { canonical_text messages_tree ≡ messages_text }
{}

/// The canonical text of a tree divides into its canonical tokens, where each of these is one that bytes spell: no two
/// tokens that stand side by side run together.
pub fn division_law()
    ensures { (m : Tree) → IsWritable m → DividesInto (canonical_text m) (tokens_of (canonical m)) }
{}

/// Bytes spell each name, string and integer of the tree of tokens that bytes spell.
pub fn writable_law()
    ensures { (lim : Limits) (ts : List Spanned) (m : Tree) → AreSpelled ts → SpellsTree lim ts m → IsWritable m }
{}

/// The canonical text of the tree of a text is read as that tree, places aside, within the same limits: no token of it
/// is too deep.
pub fn text_round_trip_law()
    ensures { (lim : Limits) (text : List ℕ) (ts : List Spanned) (m : Tree) → Divides text ts → SpellsTree lim ts m
        → ReadsAs lim (canonical_text m) m }
{}

/// The canonical text of any tree that is, places aside, the tree of tokens that bytes spell, is read as that tree, places
/// aside: so also that of a tree which was made, and stands at no places.
pub fn bare_round_trip_law()
    ensures again { (lim : Limits) (m : Tree) → CanBeSpelled lim m → ReadsAs lim (canonical_text m) m }
    ensures texts { (lim : Limits) (text : List ℕ) (ts : List Spanned) (m : Tree) → Divides text ts → SpellsTree lim ts m
        → CanBeSpelled lim m }
{}
