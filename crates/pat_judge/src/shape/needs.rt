// What the types of the variables fulfil that a line names.
ghost use Rattle.std.specs.Prelude.{◌≡◌, ◌&&◌, true, slice_get, IsTrue};
ghost use Rattle.std.specs.List.{list_all};
ghost use Rattle.pat_words_spec.specs.Patterns.{is_inhabited, subst_of};
ghost use Rattle.pat_inclusion_spec.specs.Values.{pattern_of, is_formed as is_formed_of};
ghost use Rattle.pat_derivation_spec.specs.Same.{is_mailbox_of};
ghost use Rattle.pat_derivation_spec.specs.Derivations.{scope_of};
ghost use Rattle.pat_derivation_spec.specs.Rules.{has_a_word as has_a_word_of};
ghost use Rattle.pat_patterns.specs.Views.{pattern_view};
ghost use Rattle.pat_primitives.specs.Views.{polarity_view};
ghost use Rattle.pat_core.specs.Views.{function_view, program_view};
ghost use Rattle.pat_types.specs.Views.{needs_view};
ghost use Rattle.pat_derivations.specs.Views.{derivation_view};
ghost use Rattle.pat_certificate_values.specs.Tested.{IsTested};

use crate::shape::shape::names_mailbox;
use crate::shape::starting::both;
use crate::shape::words::has_a_word;
use pat_certificate_values::{Tests, has_word, is_formed, tag_count};
use pat_core::{Function, Program};
use pat_derivations::Derivation;
use pat_patterns::Pattern;
use pat_primitives::Polarity;
use pat_types::MailboxType;

/// What the types of the variables fulfil that a line names.
#[derive(Clone, Copy, Debug, PartialEq, Eq)]
pub struct NeedsTests {
    /// The variables name mailboxes of the interfaces of their types, with patterns of them.
    pub are_well: bool,
    /// The sending patterns have words.
    pub have_words: bool,
}

/// Tests them.
pub fn tested_needs(
    program: &Program,
    derivation: &Derivation,
    tests: &Tests,
    function: &Function,
    env: &[(u32, MailboxType)],
) -> NeedsTests
    requires { IsTested (scope_of (program_view program.now) (derivation_view derivation.now)) tests.now }
    ensures well { result.are_well ≡ list_all (λ e. is_mailbox_of e.1.interface (slice_get (function_view function.now).vars e.0)
        && is_formed_of (scope_of (program_view program.now) (derivation_view derivation.now)) e.1.interface e.1.pattern)
        (needs_view env.now) }
    ensures words { result.have_words ≡ list_all (λ e. has_a_word_of
        (scope_of (program_view program.now) (derivation_view derivation.now)) e.1.polarity e.1.pattern) (needs_view env.now) }
{
    let mut all = NeedsTests {
        are_well: true,
        have_words: true,
    };
    for (variable, of) in env {
        test_need(
            program, derivation, tests, function, *variable, of, &mut all,
        );
    }
    all
}

/// Notes what the type of one variable fulfils. Mostly all is well, and one walk along the pattern is enough.
#[inline(always)]
fn test_need(
    program: &Program,
    derivation: &Derivation,
    tests: &Tests,
    function: &Function,
    variable: u32,
    of: &MailboxType,
    all: &mut NeedsTests,
)
    requires { IsTested (scope_of (program_view program.now) (derivation_view derivation.now)) tests.now }
    ensures well { all.new.are_well ≡ (all.old.are_well
        && (is_mailbox_of of.now.interface (slice_get (function_view function.now).vars variable)
        && is_formed_of (scope_of (program_view program.now) (derivation_view derivation.now)) of.now.interface
        (pattern_view of.now.pattern))) }
    ensures words { all.new.have_words ≡ (all.old.have_words
        && has_a_word_of (scope_of (program_view program.now) (derivation_view derivation.now)) (polarity_view of.now.polarity)
        (pattern_view of.now.pattern)) }
{
    let named = names_mailbox(function.vars.as_slice(), variable, of.interface);
    if named && is_sound(program, derivation, tests, of) {
        return;
    }
    let formed = is_formed(program, derivation, of.interface, &of.pattern);
    let word = has_a_word(program, derivation, tests, of.polarity, &of.pattern);
    all.are_well = both(all.are_well, both(named, formed));
    all.have_words = both(all.have_words, word);
}

/// Whether the type's pattern is one of its interface, and has a word where it is a sending one.
fn is_sound(program: &Program, derivation: &Derivation, tests: &Tests, of: &MailboxType) -> bool
    requires { IsTested (scope_of (program_view program.now) (derivation_view derivation.now)) tests.now }
    ensures formed { IsTrue result → is_formed_of (scope_of (program_view program.now) (derivation_view derivation.now)) of.now.interface
        (pattern_view of.now.pattern) ≡ true }
    ensures word { IsTrue result → has_a_word_of (scope_of (program_view program.now) (derivation_view derivation.now))
        (polarity_view of.now.polarity) (pattern_view of.now.pattern) ≡ true }
{
    match of.polarity {
        Polarity::Sending => {
            let tags = tag_count(program, of.interface);
            is_formed_with_word(program, derivation, tests, tags, of.interface, &of.pattern)
        }
        Polarity::Receiving => is_formed(program, derivation, of.interface, &of.pattern),
    }
}

/// Whether the pattern is one of the interface, which has so many tags, and has a word. Left parts are mostly tags, which need no
/// call.
#[tactic(auto, using(crate::proofs::Sound::formed_product, crate::proofs::Sound::inhabited_product))]
fn is_formed_with_word(
    program: &Program,
    derivation: &Derivation,
    tests: &Tests,
    tags: usize,
    interface: u32,
    pattern: &Pattern,
) -> bool
    requires tests { IsTested (scope_of (program_view program.now) (derivation_view derivation.now)) tests.now }
    requires tags { (scope_of (program_view program.now) (derivation_view derivation.now)).tags interface ≡ tags }
    ensures formed { IsTrue result → is_formed_of (scope_of (program_view program.now) (derivation_view derivation.now)) interface
        (pattern_view pattern.now) ≡ true }
    ensures word { IsTrue result → is_inhabited (subst_of (pattern_of (scope_of (program_view program.now)
        (derivation_view derivation.now))) (pattern_view pattern.now)) ≡ true }
{
    match pattern {
        Pattern::Prod(left, right) => match &**left {
            Pattern::Tag(tag) => {
                (*tag as usize) < tags
                    && is_formed_with_word(program, derivation, tests, tags, interface, right)
            }
            _ => {
                is_formed_with_word(program, derivation, tests, tags, interface, left)
                    && is_formed_with_word(program, derivation, tests, tags, interface, right)
            }
        },
        _ => is_formed(program, derivation, interface, pattern) && has_word(tests, pattern),
    }
}
