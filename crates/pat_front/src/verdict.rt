// Verdicts on a text, and the lines that say them.
ghost use Rattle.std.specs.Prelude.{◌≡◌, ◌++◌, ◌∷◌, [], IfOk, OnOk};
ghost use Rattle.pat_front.specs.Lines.{rule_words, place_words, rejected_words, bad_checkpoint_words, verdict_text, line_of_verdict, line_with};

use crate::pieces::{push_at, push_span, push_words};
use crate::reason::{Reason, push_reason};
use pat_checkpoint_rules::CheckRule;
use pat_derivation_rules::Rule;
use pat_resolver_heads::ResolveKind;
use pat_syntax::Span;
use std::alloc::{AllocError, Global};

/// Why a text was refused. Offsets are in bytes, counted from 0.
#[derive(Clone, Copy, Debug, PartialEq, Eq)]
pub enum Verdict {
    /// It has more bytes than a program may have.
    TooLong,
    /// No token may stand at the offset, or not this one, or the text ends too early.
    Syntax(u32),
    /// At the offset stands an integer above 9223372036854775807.
    NumberTooWide(u32),
    /// The token at the offset is the 256th open bracket or operator, or the 4,096th open statement.
    TooDeep(u32),
    /// The first rule of names and kinds that is broken, and where.
    Resolve(ResolveKind, Span),
    /// No marker line, or the first line that isn't spelled begins at the offset.
    BadText(u32),
    /// The first node at which a derivation breaks a rule, and the first rule that it breaks there.
    Rejected(u32, Rule),
    /// The first entry of a history that doesn't fit.
    RefusedAt(u32),
    /// A history that replays has more entries than are brought into order.
    TooManyEntries,
    /// The first line of a checkpoint, counted from 1, that needs an inclusion for which no certificate is found.
    Unshown(u32),
    /// The first rule that a checkpoint breaks.
    BadCheckpoint(CheckRule),
    /// It is the text of a program that isn't accepted.
    Unaccepted(Reason),
}

/// The line that says a verdict.
pub fn verdict_line(alloc: Global, verdict: Verdict) -> Result<Vec<u8>, AllocError>
    ensures { IfOk result (λ text. text.items ≡ line_of_verdict verdict) }
{
    verdict_line_with(alloc, verdict, &[])
}

/// The line that says a verdict, and more words behind it.
pub fn verdict_line_with(
    alloc: Global,
    verdict: Verdict,
    more: &[u8],
) -> Result<Vec<u8>, AllocError>
    ensures { IfOk result (λ text. text.items ≡ line_with verdict more.now) }
{
    let mut text = Vec::new(alloc);
    push_verdict(&mut text, verdict)?;
    push_words(&mut text, more)?;
    text.push(b'\n')?;
    Ok(text)
}

fn push_verdict(text: &mut Vec<u8>, verdict: Verdict) -> Result<(), AllocError>
    ensures { OnOk result (text.new.items ≡ text.old.items ++ verdict_text verdict) }
{
    match verdict {
        Verdict::TooLong => push_words(text, b"too long"),
        Verdict::Syntax(offset) => push_at(text, b"syntax error at ", offset),
        Verdict::NumberTooWide(offset) => push_at(text, b"number too wide at ", offset),
        Verdict::TooDeep(offset) => push_at(text, b"too deep at ", offset),
        Verdict::Resolve(kind, span) => push_broken(text, kind, span),
        Verdict::BadText(offset) => push_at(text, b"bad text at ", offset),
        Verdict::Rejected(node, rule) => push_rejected(text, node, rule),
        Verdict::RefusedAt(entry) => push_at(text, b"refused at entry ", entry),
        Verdict::TooManyEntries => push_words(text, b"too many entries"),
        Verdict::Unshown(line) => push_at(text, b"unshown at line ", line),
        Verdict::BadCheckpoint(rule) => push_bad_checkpoint(text, rule),
        Verdict::Unaccepted(reason) => push_reason(text, reason),
    }
}

// A broken rule, and a place.
fn push_broken(text: &mut Vec<u8>, kind: ResolveKind, span: Span) -> Result<(), AllocError>
    ensures { OnOk result (text.new.items ≡ text.old.items ++ (rule_words kind ++ place_words span)) }
{
    push_words(text, words_of(kind))?;
    push_span(text, span)
}

// A node, and a broken rule of derivations.
fn push_rejected(text: &mut Vec<u8>, node: u32, rule: Rule) -> Result<(), AllocError>
    ensures { OnOk result (text.new.items ≡ text.old.items ++ rejected_words node rule) }
{
    push_at(text, b"rejected at node ", node)?;
    push_words(text, b": ")?;
    push_words(text, rule.name())
}

// A broken rule of checkpoints.
fn push_bad_checkpoint(text: &mut Vec<u8>, rule: CheckRule) -> Result<(), AllocError>
    ensures { OnOk result (text.new.items ≡ text.old.items ++ bad_checkpoint_words rule) }
{
    push_words(text, b"bad checkpoint: ")?;
    push_words(text, rule.name())
}

fn words_of(kind: ResolveKind) -> &'static [u8]
    ensures { result.now ≡ rule_words kind }
{
    match kind {
        ResolveKind::UnknownName => b"unknown name",
        ResolveKind::Twice => b"twice",
        ResolveKind::WrongArity => b"wrong arity",
        ResolveKind::WrongKind => b"wrong kind",
        ResolveKind::ForeignTag => b"foreign tag",
        ResolveKind::EmptySending => b"empty sending type",
        ResolveKind::TooManyTags => b"too many tags",
    }
}
