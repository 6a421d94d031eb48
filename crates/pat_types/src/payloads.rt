// Types of payloads.
ghost use Rattle.std.specs.Prelude.{◌≡◌, map, option_map, is_some, IfOk};
ghost use Rattle.pat_type_system_spec.specs.Typings.{payload_sort};
ghost use Rattle.pat_core.specs.Views.{sort_view};
ghost use Rattle.pat_types.specs.Views.{type_view};

use crate::types::{MailboxType, Usage};
use pat_core::Sort;
use pat_sequences::Sequence;
use std::alloc::{AllocError, Global};

/// Whether a payload of the sort is a mailbox.
pub fn is_mailbox(sort: &Sort) -> bool
    ensures { result ≡ is_some (payload_sort (sort_view sort.now)) }
{
    match sort {
        Sort::Base(_) => false,
        Sort::Mailbox(mailbox) => mailbox.pattern.is_some(),
    }
}

/// The type of a payload of the sort, if it is a mailbox: second-class.
pub fn payload_type(sort: &Sort) -> Result<Option<MailboxType>, AllocError>
    ensures { IfOk result (λ o. option_map type_view o ≡ payload_sort (sort_view sort.now)) }
{
    match sort {
        Sort::Base(_) => Ok(None),
        Sort::Mailbox(mailbox) => match &mailbox.pattern {
            None => Ok(None),
            Some(pattern) => {
                let pattern = pattern.copy()?;
                Ok(Some(MailboxType {
                    interface: mailbox.interface,
                    polarity: mailbox.polarity,
                    pattern,
                    usage: Usage::Second,
                }))
            }
        },
    }
}

/// The types of payloads.
pub fn payload_types(
    alloc: Global,
    sorts: &[Sort],
) -> Result<Sequence<Option<MailboxType>>, AllocError>
    ensures { IfOk result (λ types. map (option_map type_view) types ≡ map payload_sort (map sort_view sorts.now)) }
{
    let mut types = Sequence::new(alloc);
    for sort in sorts {
        let of = payload_type(sort)?;
        types.push(of)?;
    }
    Ok(types)
}
