// What is said of a program behind a verdict's own words.
ghost use Rattle.std.specs.Prelude.{◌≡◌, ◌≤◌, ◌<◌, ◌++◌, codes, length, map, IfOk, OnOk};
ghost use Rattle.pat_semantics_spec.specs.WellFormed.{WellFormed};
ghost use Rattle.pat_bags.specs.Views.{word_of};
ghost use Rattle.pat_core.specs.Views.{interface_view, program_view};
ghost use Rattle.pat_types.specs.Views.{right_view};
ghost use Rattle.pat_derivation_text_spec.specs.DerivationText.{interface_name, tag_names as tag_names_of};
ghost use Rattle.pat_print.specs.patterns.PatternText.{tag_names};
ghost use Rattle.pat_typecheck.specs.Words.{times_words, tags_words, word_words, right_words, refuted_words as refuted_words_of};

use pat_bags::Bag;
use pat_core::{Interface, Program, TagDecl};
use pat_infer_problems::Constraint;
use pat_print::push_pattern;
use pat_texts::push_number;
use pat_types::Right;
use std::alloc::{AllocError, Global};

/// The name of an interface that is too large.
pub fn too_large_words(
    alloc: Global,
    program: &Program,
    interface: u32,
) -> Result<Vec<u8>, AllocError>
    requires well { WellFormed (program_view program.now) }
    requires there { interface < length program.now.interfaces }
    ensures { IfOk result (λ text. text.items ≡ codes ": " ++ interface_name (program_view program.now) interface) }
{
    let mut text = b": ".to_vec(alloc)?;
    text.extend_from_slice(interface_at(program, interface).name.as_bytes())?;
    Ok(text)
}

/// The word that refutes a constraint, and the right side that it isn't one of.
pub fn refuted_words(
    alloc: Global,
    program: &Program,
    constraint: &Constraint,
    word: &Bag,
) -> Result<Vec<u8>, AllocError>
    requires well { WellFormed (program_view program.now) }
    requires there { constraint.now.interface < length program.now.interfaces }
    ensures { IfOk result (λ text. text.items
        ≡ refuted_words_of (tag_names_of (program_view program.now) constraint.now.interface) (word_of word.now)
        (right_view constraint.now.right)) }
{
    let interface = interface_at(program, constraint.interface);
    words_by(alloc, interface, word, &constraint.right)
}

#[tactic(auto, using(crate::proofs::Worded::few_tags))]
fn interface_at(program: &Program, number: u32) -> &Interface
    requires well { WellFormed (program_view program.now) }
    requires there { number < length program.now.interfaces }
    ensures few { length result.now.tags ≤ 32 }
    ensures names { tag_names (interface_view result.now) ≡ tag_names_of (program_view program.now) number }
    ensures name { result.now.name ≡ interface_name (program_view program.now) number }
{
    &program.interfaces.as_slice()[number as usize]
}

/// So by the names of an interface's tags.
fn words_by(
    alloc: Global,
    interface: &Interface,
    word: &Bag,
    right: &Right,
) -> Result<Vec<u8>, AllocError>
    requires { length interface.now.tags ≤ 32 }
    ensures { IfOk result (λ text. text.items
        ≡ refuted_words_of (tag_names (interface_view interface.now)) (word_of word.now) (right_view right.now)) }
{
    let mut text = b": word".to_vec(alloc)?;
    push_word(&mut text, interface.tags.as_slice(), word)?;
    push_right(alloc, &mut text, interface, right)?;
    Ok(text)
}

/// A word, a space before each of its tags; 1 where it has none.
#[tactic(auto, using(crate::proofs::Worded::said_one, crate::proofs::Worded::said_tags))]
fn push_word(text: &mut Vec<u8>, tags: &[TagDecl], word: &Bag) -> Result<(), AllocError>
    requires { length tags.now ≤ 32 }
    ensures { OnOk result (text.new.items ≡ text.old.items ++ word_words (map (λ t. t.name) tags.now) (word_of word.now)) }
{
    let before = text.len();
    push_tags(text, tags, word)?;
    if text.len() == before {
        text.extend_from_slice(b" 1")?;
    }
    Ok(())
}

/// The tags of a word, each as often as it occurs, with a space before it.
#[tactic(auto, using(crate::proofs::Worded::tags_step))]
fn push_tags(text: &mut Vec<u8>, tags: &[TagDecl], word: &Bag) -> Result<(), AllocError>
    requires { length tags.now ≤ 32 }
    ensures { OnOk result (text.new.items ≡ text.old.items ++ tags_words (map (λ t. t.name) tags.now) 0 (word_of word.now)) }
{
    for tag in 0..tags.len() {
        push_times(text, tags[tag].name.as_bytes(), word.get(tag as u8))?;
    }
    Ok(())
}

/// A name so many times, with a space before each.
#[tactic(auto, using(crate::proofs::Worded::times_step))]
fn push_times(text: &mut Vec<u8>, name: &[u8], times: u32) -> Result<(), AllocError>
    ensures { OnOk result (text.new.items ≡ text.old.items ++ times_words times name.now) }
{
    let mut left = times;
    while left > 0 {
        left -= 1;
        text.push(b' ')?;
        text.extend_from_slice(name)?;
    }
    Ok(())
}

/// The right side of a constraint.
fn push_right(
    alloc: Global,
    text: &mut Vec<u8>,
    interface: &Interface,
    right: &Right,
) -> Result<(), AllocError>
    ensures { OnOk result (text.new.items ≡ text.old.items
        ++ right_words (tag_names (interface_view interface.now)) (right_view right.now)) }
{
    text.extend_from_slice(b" not in ")?;
    match right {
        Right::Pattern(pattern) => push_pattern(alloc, text, pattern, interface),
        Right::Var(number) => {
            text.push(b'$')?;
            push_number(text, u64::from(*number))
        }
    }
}
