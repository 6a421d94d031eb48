// The steps from tokens to a program, in the order in which they are answered.
ghost use Rattle.std.specs.Prelude.{◌≡◌, ◌<◌, ◌≤◌, ℕ, List, OnOk, IfOk, IfErr, length};
ghost use Rattle.pat_semantics_spec.specs.Programs.{Program as AnyProgram};
ghost use Rattle.pat_parser_spec.specs.Trees.{Tree as AnyTree};
ghost use Rattle.pat_parser_laws.specs.Counts.{tree_size};
ghost use Rattle.pat_tree.specs.Views.{tree_view};
ghost use Rattle.pat_core.specs.Views.{program_view};
ghost use Rattle.pat_resolver_spec.specs.Places.{places};
ghost use Rattle.pat_resolver_spec.specs.Resolved.{IsResolved};
ghost use Rattle.pat_resolver_heads.specs.results.Views.{places_view};
ghost use Rattle.pat_lexer_spec.specs.Tokens.{Spanned};
ghost use Rattle.pat_lexer_spec.specs.Divisions.{Divides};
ghost use Rattle.pat_parser.specs.Answers.{Explains as ExplainsTokens};
ghost use Rattle.pat_resolver.specs.Answers.{Explains as ExplainsTree};
ghost use Rattle.pat_lexer.specs.Explains.{Explains as ExplainsText};
ghost use Rattle.pat_input.specs.Inputs.{IsRead, limit};
ghost use Rattle.pat_front.specs.Texts.{IsTreeText, IsProgramText, Explains};
ghost use Rattle.pat_limits.specs.Limits.{most_number};

use crate::Verdict;
use pat_core::Program;
use pat_input::Input;
use pat_lexer::LexError;
use pat_parser::ParseError;
use pat_resolver_heads::ResolveError;
use pat_tree::Tree;
use std::alloc::Global;

/// Why there is no tree or no program.
#[derive(Clone, Copy, Debug, PartialEq, Eq)]
pub enum FrontError {
    Refused(Verdict),
    NoMemory,
}

/// The tree of a text, and the number of the text's bytes.
pub fn tree_of(alloc: Global, input: Input) -> Result<(Tree, u32), FrontError>
    ensures tree { (bytes : List ℕ) → IsRead bytes input → IfOk result (λ r. IsTreeText bytes (tree_view r.0)) }
    ensures end { (bytes : List ℕ) → IsRead bytes input → IfOk result (λ r. r.1 ≡ length bytes) }
    ensures size { (bytes : List ℕ) → IsRead bytes input → IfOk result (λ r. tree_size (tree_view r.0) < most_number) }
    ensures refused { (bytes : List ℕ) → IsRead bytes input → IfErr result (Explains bytes) }
{
    match input {
        Input::TooLong => Err(FrontError::Refused(Verdict::TooLong)),
        Input::Refused(refusal) => Err(of_lexer(refusal)),
        Input::Tokens(tokens, end) => match pat_parser::parse(alloc, tokens, end) {
            Ok(tree) => Ok((tree, end)),
            Err(refusal) => Err(of_parser(refusal)),
        },
    }
}

/// The program of the tree of a text that has so many bytes.
pub fn program_of(alloc: Global, tree: &Tree, end: u32) -> Result<Program, FrontError>
    requires small { tree_size (tree_view tree.now) < most_number }
    ensures program { (bytes : List ℕ) → IsTreeText bytes (tree_view tree.now) → end ≡ length bytes
        → IfOk result (λ p. IsProgramText bytes (tree_view tree.now) (program_view p)) }
    ensures places { IfOk result (λ p. places_view p ≡ places (tree_view tree.now)) }
    // All that later calls ask of a program.
    ensures is_resolved { (bytes : List ℕ) → IsTreeText bytes (tree_view tree.now) → end ≡ length bytes
        → IfOk result (λ p. IsResolved (program_view p) (places_view p)) }
    ensures refused { (bytes : List ℕ) → IsTreeText bytes (tree_view tree.now) → end ≡ length bytes → IfErr result (Explains bytes) }
{
    match pat_resolver::resolve(alloc, tree, end) {
        Ok(program) => Ok(program),
        Err(refusal) => Err(of_resolver(refusal)),
    }
}

/// Whether the tree of a text that has so many bytes has a program.
pub fn check_tree(alloc: Global, tree: &Tree, end: u32) -> Result<(), FrontError>
    requires small { tree_size (tree_view tree.now) < most_number }
    ensures program { (bytes : List ℕ) → IsTreeText bytes (tree_view tree.now) → end ≡ length bytes
        → OnOk result ((p : AnyProgram) × IsProgramText bytes (tree_view tree.now) p) }
    ensures refused { (bytes : List ℕ) → IsTreeText bytes (tree_view tree.now) → end ≡ length bytes → IfErr result (Explains bytes) }
{
    match pat_resolver::examine(alloc, tree, end) {
        Ok(()) => Ok(()),
        Err(refusal) => Err(of_resolver(refusal)),
    }
}

fn of_resolver(refusal: ResolveError) -> FrontError
    ensures { (bytes : List ℕ) (t : AnyTree) (end : ℕ) → IsTreeText bytes t → end ≡ length bytes → ExplainsTree end t refusal
        → Explains bytes result }
{
    match refusal {
        ResolveError::Broken { kind, span } => FrontError::Refused(Verdict::Resolve(kind, span)),
        ResolveError::NoMemory => FrontError::NoMemory,
    }
}

fn of_lexer(refusal: LexError) -> FrontError
    ensures { (bytes : List ℕ) → length bytes ≤ limit → ExplainsText bytes refusal → Explains bytes result }
{
    match refusal {
        LexError::BadToken(offset) => FrontError::Refused(Verdict::Syntax(offset)),
        LexError::NumberTooWide(offset) => FrontError::Refused(Verdict::NumberTooWide(offset)),
        LexError::NoMemory => FrontError::NoMemory,
    }
}

fn of_parser(refusal: ParseError) -> FrontError
    ensures { (bytes : List ℕ) (tokens : List Spanned) → length bytes ≤ limit → Divides bytes tokens
        → ExplainsTokens (length bytes) tokens refusal → Explains bytes result }
{
    match refusal {
        ParseError::Unexpected(offset) => FrontError::Refused(Verdict::Syntax(offset)),
        ParseError::TooDeep(offset) => FrontError::Refused(Verdict::TooDeep(offset)),
        ParseError::NoMemory => FrontError::NoMemory,
    }
}
