// The types: their data.
use pat_patterns::Pattern;
use pat_primitives::{Base, Polarity};
use pat_sequences::Sequence;

/// Whether a mailbox may only be used, or may be given back too.
#[derive(Clone, Copy, Debug, PartialEq, Eq)]
pub enum Usage {
    Second,
    Returnable,
}

/// The type of a variable that names a mailbox: the number of its interface, and a pattern in which variables may stand.
#[derive(Drop)]
pub struct MailboxType {
    pub interface: u32,
    pub polarity: Polarity,
    // Before the pattern, where polarity leaves room: so an entry of an environment takes 40 bytes instead of 48.
    pub usage: Usage,
    pub pattern: Pattern,
}

/// The type of a term.
#[derive(Drop)]
pub enum TypeOf {
    Base(Base),
    Mailbox {
        interface: u32,
        polarity: Polarity,
        pattern: Pattern,
    },
}

/// The type of a node, and the types of the variables that it needs, in ascending order of variable.
#[derive(Drop)]
pub struct NodeType {
    pub result: TypeOf,
    pub env: Sequence<(u32, MailboxType)>,
}

/// The right side of an inclusion that is to be solved: one variable, or a pattern that is none.
#[derive(Drop)]
pub enum Right {
    Pattern(Pattern),
    Var(u32),
}
