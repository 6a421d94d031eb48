// Why a program isn't accepted, and the words that say it.
ghost use Rattle.std.specs.Prelude.{◌≡◌, ◌++◌, OnOk};
ghost use Rattle.pat_front.specs.Lines.{typing_rule_name, untypable_words, place_words, reason_text};

use crate::pieces::{push_span, push_words};
use pat_infer_problems::Rule;
use pat_syntax::Span;
use std::alloc::AllocError;

/// Why the program of a text isn't accepted, by the first reason in this order.
#[derive(Clone, Copy, Debug, PartialEq, Eq)]
pub enum Reason {
    /// A rule of backward typing is broken at this place.
    Untypable(Span, Rule),
    /// No word is derivable for the sending type at this place, whose pattern was left out.
    Unusable(Span),
    /// The patterns of this interface, or the trees that refute one of its constraints, are too large.
    TooLarge(u32),
    /// At this place a word may arise that isn't one of the pattern that it has to be in.
    Refuted(Span),
    /// Of the constraint at this place nothing is known.
    Undecided(Span),
}

// The words that say a reason, but for names and words of the program.
pub fn push_reason(text: &mut Vec<u8>, reason: Reason) -> Result<(), AllocError>
    ensures { OnOk result (text.new.items ≡ text.old.items ++ reason_text reason) }
{
    match reason {
        Reason::Untypable(span, rule) => push_untypable(text, span, rule),
        Reason::Unusable(span) => push_place(text, b"unusable", span),
        Reason::TooLarge(_) => push_words(text, b"too large"),
        Reason::Refuted(span) => push_place(text, b"refuted", span),
        Reason::Undecided(span) => push_place(text, b"undecided", span),
    }
}

// Words, and where something stands.
fn push_place(text: &mut Vec<u8>, words: &[u8], span: Span) -> Result<(), AllocError>
    ensures { OnOk result (text.new.items ≡ text.old.items ++ (words.now ++ place_words span)) }
{
    push_words(text, words)?;
    push_span(text, span)
}

// A place, and the rule that is broken there.
fn push_untypable(text: &mut Vec<u8>, span: Span, rule: Rule) -> Result<(), AllocError>
    ensures { OnOk result (text.new.items ≡ text.old.items ++ untypable_words span rule) }
{
    push_place(text, b"untypable", span)?;
    push_words(text, b": ")?;
    push_words(text, name_of(rule))
}

fn name_of(rule: Rule) -> &'static [u8]
    ensures { result.now ≡ typing_rule_name rule }
{
    match rule {
        Rule::Alias => b"Alias",
        Rule::Order => b"Order",
        Rule::Double => b"Double",
        Rule::Branch => b"Branch",
        Rule::Payload => b"Payload",
        Rule::Covers => b"Covers",
        Rule::Unused => b"Unused",
        Rule::Polarity => b"Polarity",
        Rule::Second => b"Second",
    }
}
