// A phrase, and all of them.
ghost use Rattle.std.specs.Prelude.{◌≡◌, ◌≤◌, ◌<◌, ◌*◌, ℕ, [], map, length, Ok, Err, MatchResult, IfOk};
ghost use Rattle.pat_parser_spec.specs.Trees as trees;
ghost use Rattle.pat_parser_spec.specs.Items as items;
ghost use Rattle.pat_parser_spec.specs.Machine as m;
ghost use Rattle.pat_parser_spec.specs.Claims.{SpellsTree, IsUnexpected, IsTooDeep};
ghost use Rattle.pat_parser_laws.specs.Counts.{tree_size};
ghost use Rattle.pat_parser_laws.specs.Names.{AreSpelled, TreeNamed};
ghost use Rattle.pat_syntax.specs.Views.{kind_view, token_view};
ghost use Rattle.pat_tree.specs.Views.{span_view, decl_view, tree_view};
ghost use Rattle.pat_parser_phrases.specs.tokens.Answers.{limits, answer, after, moved, Parses};
ghost use Rattle.pat_parser.specs.states.Views.{stack_view, state_view};
ghost use Rattle.pat_parser.specs.Answers.{GivesAt, Explains};

use crate::states::{BlockFrame, Defining, Frame, Frames, State, begun};
use crate::terms::within;
use pat_parser_phrases::{ParseError, Tokens, interface, signature};
use pat_sequences::Sequence;
use pat_syntax::{Reserved, Span, Token, TokenKind};
use pat_tree::{Decl, Tree};
use std::alloc::Global;

/// The head of a function, from behind `def` up to the brace of its body.
fn function(
    alloc: Global,
    tokens: &mut Tokens,
    decls: Sequence<Decl>,
    stack: Frames,
) -> Result<State, ParseError>
    ensures read { Parses result (answer (m.state (m.WantName (m.FunctionName (map decl_view decls))) (stack_view stack) 0 0 0) tokens.old)
        (λ x. answer (state_view x) tokens.new) }
    ensures no_more { length tokens.new.0 ≤ length tokens.old.0 }
{
    let head = signature(alloc, tokens)?;
    let defining = Defining {
        decls,
        name: head.name,
        params: head.params,
    };
    let frame = Frame::Block(BlockFrame::InDef(Box::new(alloc, defining)?, head.result));
    Ok(begun(frame, stack, true, 1, 0)?)
}

/// An interface, or the head of a function.
fn declaration(
    alloc: Global,
    tokens: &mut Tokens,
    decls: Sequence<Decl>,
    stack: Frames,
    kind: TokenKind,
    span: Span,
) -> Result<State, ParseError>
    ensures read { Parses result (after (m.decl_step (stack_view stack) 0 (map decl_view decls) (kind_view kind)
        (span_view span)) span.from tokens.old) (λ x. answer (state_view x) tokens.new) }
    ensures no_more { length tokens.new.0 ≤ length tokens.old.0 }
{
    match kind {
        TokenKind::Word(Reserved::Interface) => {
            let mut decls = decls;
            decls.push(interface(alloc, tokens)?)?;
            Ok(State::Between(false, decls, stack))
        }
        TokenKind::Word(Reserved::Def) => function(alloc, tokens, decls, stack),
        _ => Err(ParseError::Unexpected(span.from)),
    }
}

/// What is read from a token on, as far as no statement nests in it.
fn phrase(
    alloc: Global,
    tokens: &mut Tokens,
    state: State,
    token: Token,
) -> Result<State, ParseError>
    ensures read { Parses result (after (moved (state_view state) (kind_view token.kind) (span_view token.span)) token.span.from tokens.old)
        (λ x. answer (state_view x) tokens.new) }
    ensures no_more { length tokens.new.0 ≤ length tokens.old.0 }
{
    let Token { kind, span } = token;
    match state {
        State::Between(_, decls, stack) => declaration(alloc, tokens, decls, stack, kind, span),
        State::Within(control, place) => within(alloc, tokens, control, place, kind, span),
    }
}

/// The state behind all tokens.
fn read(alloc: Global, tokens: &mut Tokens) -> Result<State, ParseError>
    ensures read { Parses result (answer m.begin tokens.old) (λ x. answer (state_view x) tokens.new) }
    ensures all { IfOk result (λ x. tokens.new.0 ≡ []) }
{
    let mut state = State::Between(true, Sequence::new(alloc), Frames::new(alloc));
    while let Some(token) = tokens.pop() {
        state = phrase(alloc, tokens, state, token)?;
    }
    Ok(state)
}

/// The tree, where the text may end.
fn finished(state: State, end: u32) -> Result<Tree, ParseError>
    ensures { GivesAt tree_view result (m.ended end (m.finish (state_view state))) }
{
    match state {
        State::Between(false, decls, _) => Ok(Tree { decls }),
        _ => Err(ParseError::Unexpected(end)),
    }
}

fn whole_text(alloc: Global, tokens: Vec<Token>, end: u32) -> Result<Tree, ParseError>
    ensures { GivesAt tree_view result (m.parsed limits end (map items.bound_item (map token_view tokens.items))) }
{
    let mut tokens = Tokens::new(tokens, end);
    let state = read(alloc, &mut tokens)?;
    finished(state, tokens.end())
}

/// The tree that the tokens of a text spell; the text ends at the offset `end`. Otherwise the first token that is
/// refused.
pub fn parse(alloc: Global, tokens: Vec<Token>, end: u32) -> Result<Tree, ParseError>
    // A tree is the one that the tokens spell within the limits, and an error says where they first can't.
    ensures answers { MatchResult result (λ t. SpellsTree limits (map token_view tokens.items) (tree_view t))
        (λ e. Explains end (map token_view tokens.items) e) }
    // What the tokens spell is answered, unless memory runs out.
    ensures tree { (t : trees.Tree) → SpellsTree limits (map token_view tokens.items) t → GivesAt tree_view result (Ok t) }
    // So is a token that is unexpected, and the end of the text.
    ensures unexpected { (o : ℕ) → IsUnexpected limits end (map token_view tokens.items) o
        → GivesAt tree_view result (Err (m.Unexpected, o)) }
    // So is a token that is too deep.
    ensures too_deep { (o : ℕ) → IsTooDeep limits (map token_view tokens.items) o → GivesAt tree_view result (Err (m.TooDeep, o)) }
    // For each token a tree has four parts at most, counting its terms, expressions, patterns and names.
    ensures size { IfOk result (λ t. tree_size (tree_view t) ≤ 4 * length tokens.items) }
    // Where bytes spell the tokens, every name of the tree is a name, and every string one that a string stands for.
    ensures named { AreSpelled (map token_view tokens.items) → IfOk result (λ t. TreeNamed (tree_view t)) }
{
    whole_text(alloc, tokens, end)
}
