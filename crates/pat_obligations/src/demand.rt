// Demands: their data.
use pat_sequences::Sequence;
use pat_types::{MailboxType, TypeOf};

/// What a node asks of the types that it has. Those of lets are lent by the lines in which they stand.
#[derive(Drop)]
pub enum Demand<'a> {
    /// What is there, if anything, passes to what is asked, if anything.
    Pass {
        given: Option<MailboxType>,
        asked: Option<MailboxType>,
    },
    /// What is there is divided among the bound part and the body of a let.
    Divide {
        given: Option<&'a MailboxType>,
        bound: Option<&'a MailboxType>,
        body: Option<&'a MailboxType>,
    },
    /// Something is there where something is asked, whatever their types are.
    There {
        given: Option<&'a MailboxType>,
        asked: Option<&'a MailboxType>,
    },
    /// The name of a let has the bound part's type in the body, or the body does without it.
    Name {
        bound: &'a TypeOf,
        body: Option<&'a MailboxType>,
    },
}

/// The types of a function's signature: those of its parameters, in order, where they are mailboxes, and that of its result.
#[derive(Drop)]
pub struct Signature {
    pub params: Sequence<Option<MailboxType>>,
    pub result: TypeOf,
}
