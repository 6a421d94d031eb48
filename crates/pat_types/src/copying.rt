// Copies of types, and right sides.
ghost use Rattle.std.specs.Prelude.{◌≡◌, IfOk};
ghost use Rattle.pat_patterns.specs.Views.{pattern_view};
ghost use Rattle.pat_types.specs.Views.{type_view, result_view, needs_view, right_view, right_form};

use crate::types::{MailboxType, Right, TypeOf};
use pat_patterns::Pattern;
use pat_sequences::Sequence;
use std::alloc::{AllocError, Global};

impl MailboxType {
    /// A second type, the same.
    pub fn copy(&self) -> Result<MailboxType, AllocError>
        ensures { IfOk result (λ a. type_view a ≡ type_view self.now) }
    {
        let pattern = self.pattern.copy()?;
        Ok(MailboxType {
            interface: self.interface,
            polarity: self.polarity,
            pattern,
            usage: self.usage,
        })
    }
}

impl TypeOf {
    /// A second type, the same.
    pub fn copy(&self) -> Result<TypeOf, AllocError>
        ensures { IfOk result (λ t. result_view t ≡ result_view self.now) }
    {
        match self {
            TypeOf::Base(base) => Ok(TypeOf::Base(*base)),
            TypeOf::Mailbox {
                interface,
                polarity,
                pattern,
            } => {
                let pattern = pattern.copy()?;
                Ok(TypeOf::Mailbox {
                    interface: *interface,
                    polarity: *polarity,
                    pattern,
                })
            }
        }
    }
}

/// The same needs once more.
pub fn copy_needs(
    alloc: Global,
    needs: &[(u32, MailboxType)],
) -> Result<Sequence<(u32, MailboxType)>, AllocError>
    ensures { IfOk result (λ copy. needs_view copy ≡ needs_view needs.now) }
{
    let mut copies = Sequence::new(alloc);
    copies.items.reserve(needs.len())?;
    for (variable, of) in needs {
        let copy = of.copy()?;
        copies.push((*variable, copy))?;
    }
    Ok(copies)
}

/// The pattern as a right side.
pub fn right_of(pattern: Pattern) -> Right
    ensures { right_view result ≡ right_form (pattern_view pattern) }
{
    match pattern {
        Pattern::Var(number) => Right::Var(number),
        other => Right::Pattern(other),
    }
}
