// Patterns in postfix form: the head of each part in one list, parts before the whole. Whoever goes along a
// pattern that may be many thousand levels deep goes along this list.
ghost use Rattle.std.specs.Prelude.{◌≡◌, ◌<◌, ◌∷◌, List, [], IfOk, OnOk};
ghost use Rattle.pat_patterns.specs.Views.{pattern_view};
ghost use Rattle.pat_patterns.specs.postfix_form.Postfix.{nodes, postfix_onto, postfix_all};
ghost use Rattle.pat_patterns.specs.postfix_form.Views.{pointed};

use crate::Pattern;
use pat_sequences::{Base, Stack};
use std::alloc::{AllocError, Global};

/// The head of a pattern: what it is, apart from its parts.
#[derive(Clone, Copy, Debug)]
pub enum Head {
    /// No word.
    Zero,
    /// The empty word.
    One,
    /// The word of one message with the tag.
    Tag(u8),
    /// The words of a variable.
    Var(u32),
    /// A sum of the two patterns before it.
    Sum,
    /// A product of the two patterns before it.
    Prod,
    /// A star of the pattern before it.
    Star,
}

/// The pattern in postfix form: the head that comes first is on top.
pub fn postfix(alloc: Global, p: &Pattern) -> Result<Stack<Head>, AllocError>
    ensures { IfOk result (λ heads. heads ≡ postfix_onto (pattern_view p.now) []) }
{
    let mut heads = with_room(alloc, 32)?;
    let mut waiting = with_room(alloc, 16)?;
    waiting.push(p)?;
    while let Some(next) = waiting.pop() {
        push_head(next, &mut waiting, &mut heads)?;
    }
    Ok(heads)
}

/// An empty stack with room for so many items, as most patterns need.
fn with_room<T: Drop>(alloc: Global, items: usize) -> Result<Stack<T>, AllocError>
    ensures { IfOk result (λ stack. stack ≡ []) }
{
    match Base::new(Stack::new(alloc), items) {
        Ok(base) => Ok(base.into_stack()),
        Err(_) => Err(AllocError),
    }
}

/// The pattern's head goes on top of the others; its parts wait, the right one on top.
fn push_head<'a>(
    p: &'a Pattern,
    waiting: &mut Stack<&'a Pattern>,
    heads: &mut Stack<Head>,
) -> Result<(), AllocError>
    ensures heads { OnOk result (postfix_all (pointed waiting.new) heads.new
        ≡ postfix_all (pattern_view p.now ∷ pointed waiting.old) heads.old) }
    ensures fewer { OnOk result (nodes (pointed waiting.new) < nodes (pattern_view p.now ∷ pointed waiting.old)) }
{
    match p {
        Pattern::Zero => heads.push(Head::Zero),
        Pattern::One => heads.push(Head::One),
        Pattern::Tag(tag) => heads.push(Head::Tag(*tag)),
        Pattern::Var(number) => heads.push(Head::Var(*number)),
        Pattern::Sum(left, right) => {
            heads.push(Head::Sum)?;
            waiting.push(left)?;
            waiting.push(right)
        }
        Pattern::Prod(left, right) => {
            heads.push(Head::Prod)?;
            waiting.push(left)?;
            waiting.push(right)
        }
        Pattern::Star(part) => {
            heads.push(Head::Star)?;
            waiting.push(part)
        }
    }
}
