// Types, declarations and whole trees.
use crate::pattern::{Name, TreePattern};
use crate::term::Term;
use pat_primitives::{Base, Polarity};
use pat_sequences::Sequence;
use pat_syntax::Span;

/// A type as it is written. A mailbox type may leave its pattern out.
#[derive(Drop)]
pub enum TreeType {
    Base(Base, Span),
    Mailbox {
        name: Name,
        polarity: Polarity,
        pattern: Option<TreePattern>,
        span: Span,
    },
}

/// A message of an interface: its tag, and the types of its payloads.
#[derive(Drop)]
pub struct TreeMessage {
    pub name: Name,
    pub payloads: Sequence<TreeType>,
}

/// A parameter of a function.
#[derive(Drop)]
pub struct Param {
    pub name: Name,
    pub of: TreeType,
}

/// A declaration.
#[derive(Drop)]
pub enum Decl {
    Interface {
        name: Name,
        messages: Sequence<TreeMessage>,
    },
    Def {
        name: Name,
        params: Sequence<Param>,
        result: TreeType,
        body: Term,
    },
}

/// A whole text: its declarations in order.
pub struct Tree {
    pub decls: Sequence<Decl>,
}

impl Drop for Tree {
    fn drop(self) {
        let Tree { decls: _ } = self;
    }
}
