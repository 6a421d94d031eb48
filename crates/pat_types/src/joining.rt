// How what the two parts of a let use of one mailbox joins to one type.
ghost use Rattle.std.specs.Prelude.{◌≡◌, ◌↔◌, is_some, option_map};
ghost use Rattle.pat_type_system_spec.specs.Types as types;
ghost use Rattle.pat_type_system_spec.specs.Types.{Joins, UsageFits};
ghost use Rattle.pat_type_schemes_spec.specs.Compared.{is_second};
ghost use Rattle.pat_primitives.specs.Views.{polarity_view};
ghost use Rattle.pat_types.specs.Views.{type_view, usage_view};
ghost use Rattle.pat_types.specs.Joining.{joined_usage, case_of, combined_of, Row};

use crate::types::{MailboxType, Usage};
use pat_primitives::Polarity;

/// What the types of one mailbox in the two parts of a let come to.
#[derive(Clone, Copy, Debug, PartialEq, Eq)]
pub enum Combined {
    SendSend,
    SendReceive,
    ReceiveSend,
    /// Both receive.
    Double,
    /// The first may be given back, so nothing may follow.
    Order,
    /// They are of two interfaces.
    Interfaces,
}

/// The usage of what is used by one part and then by another: none exactly where the first may give it back.
pub fn join_usage(first: Usage, second: Usage) -> Option<Usage>
    ensures joined { option_map usage_view result ≡ joined_usage (usage_view first) (usage_view second) }
    ensures some { is_some result ≡ is_second (usage_view first) }
{
    match first {
        Usage::Second => Some(second),
        Usage::Returnable => None,
    }
}

/// The case of two types: a type joins them exactly as the case's row says.
#[tactic(auto, using(crate::proofs::Joined::joins_by_row))]
pub fn combine(first: &MailboxType, second: &MailboxType) -> Combined
    ensures case { result ≡ combined_of (type_view first.now) (type_view second.now) }
    ensures row { (a : types.MailboxType)
        → Joins (type_view first.now) (type_view second.now) a ↔ Row result (type_view first.now) (type_view second.now) a }
{
    if first.interface != second.interface {
        return Combined::Interfaces;
    }
    match join_usage(first.usage, second.usage) {
        None => Combined::Order,
        Some(_) => polarity_case(first.polarity, second.polarity),
    }
}

fn polarity_case(first: Polarity, second: Polarity) -> Combined
    ensures { result ≡ case_of (polarity_view first) (polarity_view second) }
{
    match (first, second) {
        (Polarity::Sending, Polarity::Sending) => Combined::SendSend,
        (Polarity::Sending, Polarity::Receiving) => Combined::SendReceive,
        (Polarity::Receiving, Polarity::Sending) => Combined::ReceiveSend,
        (Polarity::Receiving, Polarity::Receiving) => Combined::Double,
    }
}
