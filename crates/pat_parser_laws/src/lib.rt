//! Laws of the grammar: the machine reads exactly what the grammar spells, and refuses exactly where it must. No code of the product.
#![tactic(auto)]

ghost use Rattle.std.specs.Prelude.{◌≡◌, ◌≤◌, ◌*◌, ℕ, List, length};
ghost use Rattle.pat_lexer_spec.specs.Tokens.{Spanned};
ghost use Rattle.pat_parser_spec.specs.Trees.{Tree};
ghost use Rattle.pat_parser_spec.specs.Items.{Item, Limits};
ghost use Rattle.pat_parser_spec.specs.Grammar.{Spells};
ghost use Rattle.pat_parser_spec.specs.Claims.{ExactAnswer, SpellsTree};
ghost use Rattle.pat_parser_laws.specs.Counts.{tree_size};
ghost use Rattle.pat_parser_laws.specs.Names.{AreSpelled, TreeNamed};

/// Tokens spell at most one tree, spans included.
pub fn one_tree_law()
    ensures { (lim : Limits) (ts : List Item) (one other : Tree) → Spells lim ts one → Spells lim ts other → one ≡ other }
{}

/// The machine that reads a token at a time answers the tree that the tokens spell, or the first token that is refused
/// and why, and each of these exactly where it is so.
pub fn exact_answer_law()
    ensures { (lim : Limits) (end : ℕ) (ts : List Spanned) → ExactAnswer lim end ts }
{}

/// For each token a tree has four parts at most, counting its terms, expressions, patterns and names.
pub fn size_law()
    ensures { (lim : Limits) (ts : List Spanned) (m : Tree) → SpellsTree lim ts m → tree_size m ≤ 4 * length ts }
{}

/// Every name in the tree of tokens that bytes spell is a name, and every string one that a string stands for.
pub fn names_law()
    ensures { (lim : Limits) (ts : List Spanned) (m : Tree) → AreSpelled ts → SpellsTree lim ts m → TreeNamed m }
{}
