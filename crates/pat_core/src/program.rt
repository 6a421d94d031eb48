// Programs: interfaces, functions, and the nodes of all functions in one list.
use crate::Expr;
use pat_patterns::Pattern;
use pat_primitives::{Base, Polarity};
use pat_sequences::{Sequence, Text};
use pat_syntax::Span;

/// The kind of a term or of a variable: a base type, or a mailbox of an interface, by its number.
#[derive(Clone, Copy, Debug, PartialEq, Eq)]
pub enum Kind {
    Unit,
    Bool,
    Int,
    Str,
    Mailbox(u32),
}

/// A written mailbox type: the number of its interface, its pattern if it has one, and where it stands in the text.
#[derive(Drop)]
pub struct MailboxSort {
    pub interface: u32,
    pub polarity: Polarity,
    pub pattern: Option<Pattern>,
    pub span: Span,
}

/// A written type.
#[derive(Drop)]
pub enum Sort {
    Base(Base),
    Mailbox(MailboxSort),
}

/// A tag of an interface, with the types of its payloads.
#[derive(Drop)]
pub struct TagDecl {
    pub name: Text,
    pub payloads: Sequence<Sort>,
}

/// An interface. A tag's number is its place in `tags`.
pub struct Interface {
    pub name: Text,
    pub tags: Sequence<TagDecl>,
}

impl Drop for Interface {
    fn drop(self) {
        let Interface { name: _, tags: _ } = self;
    }
}

/// A function. A variable's number is its place in `vars`; the parameters come first, in order.
pub struct Function {
    pub name: Text,
    pub params: Sequence<Sort>,
    pub result: Sort,
    pub vars: Sequence<Kind>,
    /// Where each variable's name stands in the text.
    pub spans: Sequence<Span>,
    /// The node of its body.
    pub body: u32,
}

impl Drop for Function {
    fn drop(self) {
        let Function {
            name: _,
            params: _,
            result: _,
            vars: _,
            spans: _,
            body: _,
        } = self;
    }
}

/// A receive clause of a guard: the tag, the variables of the payloads and of what is left of the mailbox, and the body.
#[derive(Drop)]
pub struct Clause {
    pub tag: u8,
    pub vars: Sequence<u32>,
    pub from: u32,
    pub body: u32,
}

/// A term, whose parts are numbers of nodes.
#[derive(Drop)]
pub enum Core {
    Value(Expr),
    /// Without a variable it is a sequence.
    Let {
        var: Option<u32>,
        bound: u32,
        body: u32,
    },
    Call {
        function: u32,
        args: Sequence<Expr>,
    },
    If {
        test: Expr,
        yes: u32,
        no: u32,
    },
    Print(Expr),
    /// A new mailbox of an interface.
    New(u32),
    Send {
        target: u32,
        tag: u8,
        args: Sequence<Expr>,
    },
    Spawn(u32),
    Guard {
        var: u32,
        pattern: Pattern,
        /// The body of the clause for an empty mailbox that nobody else can name.
        free: Option<u32>,
        receives: Sequence<Clause>,
    },
}

/// A node: a term of a function, with its kind and its place in the text.
pub struct Node {
    pub core: Core,
    pub kind: Kind,
    pub function: u32,
    pub span: Span,
}

impl Drop for Node {
    fn drop(self) {
        let Node {
            core: _,
            kind: _,
            function: _,
            span: _,
        } = self;
    }
}

/// A program. A node's number is its place in `nodes`; parts come after the node that they are parts of.
pub struct Program {
    pub interfaces: Sequence<Interface>,
    pub functions: Sequence<Function>,
    /// The number of the function that a run starts with.
    pub main: u32,
    pub nodes: Sequence<Node>,
}

impl Drop for Program {
    fn drop(self) {
        let Program {
            interfaces: _,
            functions: _,
            main: _,
            nodes: _,
        } = self;
    }
}
