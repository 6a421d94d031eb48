// Whether sending patterns have words.
ghost use Rattle.std.specs.Prelude.{◌≡◌, ◌&&◌, map, option_map, slice_get, Some};
ghost use Rattle.std.specs.List.{list_all};
ghost use Rattle.pat_semantics_spec.specs.Programs.{function_at};
ghost use Rattle.pat_derivation_spec.specs.Derivations.{scope_of};
ghost use Rattle.pat_derivation_spec.specs.Truth.{place};
ghost use Rattle.pat_derivation_spec.specs.Rules.{has_a_word as has_a_word_of, type_has_word as type_has_word_of, param_has_word as param_has_word_of, has_words as has_words_of};
ghost use Rattle.pat_primitives.specs.Views.{polarity_view};
ghost use Rattle.pat_patterns.specs.Views.{pattern_view};
ghost use Rattle.pat_core.specs.Views.{sort_view, node_view, function_view, program_view};
ghost use Rattle.pat_types.specs.Views.{type_view, result_view, needs_view};
ghost use Rattle.pat_derivations.specs.Views.{line_view, derivation_view};
ghost use Rattle.pat_obligations.specs.Views.{signature_view};
ghost use Rattle.pat_obligations.specs.of_terms.Opened.{opened_from};
ghost use Rattle.pat_certificate_values.specs.Tested.{IsTested};
ghost use Rattle.pat_judge.specs.shape.Words.{listed_have_words, signature_words, first_words};

use pat_certificate_values::{Tests, has_word};
use pat_core::{Function, Node, Program, Sort};
use pat_derivations::{Derivation, DerivedNode};
use pat_obligations::{Signature, signature_of};
use pat_patterns::Pattern;
use pat_primitives::Polarity;
use pat_types::{MailboxType, TypeOf};

/// Whether the pattern, if it is a sending one, has a word.
pub fn has_a_word(
    program: &Program,
    derivation: &Derivation,
    tests: &Tests,
    polarity: Polarity,
    pattern: &Pattern,
) -> bool
    requires { IsTested (scope_of (program_view program.now) (derivation_view derivation.now)) tests.now }
    ensures { result ≡ has_a_word_of (scope_of (program_view program.now) (derivation_view derivation.now)) (polarity_view polarity)
        (pattern_view pattern.now) }
{
    match polarity {
        Polarity::Sending => has_word(tests, pattern),
        Polarity::Receiving => true,
    }
}

fn type_has_word(program: &Program, derivation: &Derivation, tests: &Tests, of: &TypeOf) -> bool
    requires { IsTested (scope_of (program_view program.now) (derivation_view derivation.now)) tests.now }
    ensures { result ≡ type_has_word_of (scope_of (program_view program.now) (derivation_view derivation.now)) (result_view of.now) }
{
    match of {
        TypeOf::Base(_) => true,
        TypeOf::Mailbox {
            interface: _,
            polarity,
            pattern,
        } => has_a_word(program, derivation, tests, *polarity, pattern),
    }
}

fn param_has_word(
    program: &Program,
    derivation: &Derivation,
    tests: &Tests,
    of: &Option<MailboxType>,
) -> bool
    requires { IsTested (scope_of (program_view program.now) (derivation_view derivation.now)) tests.now }
    ensures { result ≡ param_has_word_of (scope_of (program_view program.now) (derivation_view derivation.now))
        (option_map type_view of.now) }
{
    match of {
        None => true,
        Some(of) => has_a_word(program, derivation, tests, of.polarity, &of.pattern),
    }
}

/// Whether each parameter has a word, whose types stand in the list.
fn params_have_words(
    program: &Program,
    derivation: &Derivation,
    tests: &Tests,
    types: &[Option<MailboxType>],
    params: &[Sort],
) -> bool
    requires { IsTested (scope_of (program_view program.now) (derivation_view derivation.now)) tests.now }
    ensures { result ≡ listed_have_words (scope_of (program_view program.now) (derivation_view derivation.now))
        (map (option_map type_view) types.now) (map sort_view params.now) }
{
    let mut rest = types;
    for _param in params {
        match rest.split_first() {
            None => return true,
            Some((of, more)) => {
                if !param_has_word(program, derivation, tests, of) {
                    return false;
                }
                rest = more;
            }
        }
    }
    true
}

/// Whether the sending patterns of the signature have words.
fn signature_has_words(
    program: &Program,
    derivation: &Derivation,
    tests: &Tests,
    signatures: &[Signature],
    number: u32,
    function: &Function,
) -> bool
    requires { IsTested (scope_of (program_view program.now) (derivation_view derivation.now)) tests.now }
    ensures { result ≡ signature_words (scope_of (program_view program.now) (derivation_view derivation.now))
        (function_view function.now).params (slice_get (map signature_view signatures.now) number) }
{
    match signature_of(signatures, number) {
        None => false,
        Some(signature) => {
            params_have_words(
                program,
                derivation,
                tests,
                signature.params.as_slice(),
                function.params.as_slice(),
            ) && type_has_word(program, derivation, tests, &signature.result)
        }
    }
}

/// Whether the sending patterns of the signature have words, where the node is the first of its function.
fn first_has_words(
    program: &Program,
    derivation: &Derivation,
    tests: &Tests,
    signatures: &[Signature],
    number: usize,
    node: &Node,
    function: &Function,
    line: &DerivedNode,
) -> bool
    requires tests { IsTested (scope_of (program_view program.now) (derivation_view derivation.now)) tests.now }
    requires signatures { map signature_view signatures.now ≡ opened_from 1 (program_view program.now).functions }
    requires function { function_at (program_view program.now) node.now.function ≡ Some (function_view function.now) }
    ensures { result ≡ first_words (program_view program.now) (derivation_view derivation.now)
        (place number (node_view node.now) (function_view function.now) (line_view line.now)) }
{
    function.body as usize != number
        || signature_has_words(
            program,
            derivation,
            tests,
            signatures,
            node.function,
            function,
        )
}

fn all_three(of: bool, needs: bool, first: bool) -> bool
    ensures { result ≡ (of && (needs && first)) }
{
    of && (needs && first)
}

/// Whether each sending pattern of the line, and at the first node of a function of its signature, has a word. The signatures are
/// those of the program's functions, and `needs_have_words` says it of the variables' patterns.
pub fn has_words(
    program: &Program,
    derivation: &Derivation,
    tests: &Tests,
    signatures: &[Signature],
    needs_have_words: bool,
    number: usize,
    node: &Node,
    function: &Function,
    line: &DerivedNode,
) -> bool
    requires tests { IsTested (scope_of (program_view program.now) (derivation_view derivation.now)) tests.now }
    requires signatures { map signature_view signatures.now ≡ opened_from 1 (program_view program.now).functions }
    requires function { function_at (program_view program.now) node.now.function ≡ Some (function_view function.now) }
    requires needs { needs_have_words ≡ list_all (λ e. has_a_word_of
        (scope_of (program_view program.now) (derivation_view derivation.now)) e.1.polarity e.1.pattern) (needs_view line.now.of.env) }
    ensures { result
        ≡ has_words_of (program_view program.now) (derivation_view derivation.now)
        (place number (node_view node.now) (function_view function.now) (line_view line.now)) }
{
    let of = type_has_word(program, derivation, tests, &line.of.result);
    let first = first_has_words(
        program, derivation, tests, signatures, number, node, function, line,
    );
    all_three(of, needs_have_words, first)
}
