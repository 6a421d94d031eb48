// Terms and the clauses of guards.
use crate::expression::TreeExpr;
use crate::pattern::{Name, TreePattern};
use pat_sequences::Sequence;
use pat_syntax::Span;

/// A term. Its span leaves out the braces of its own block; a let or a sequence runs to the end of its body.
#[cycle(term)]
pub struct Term {
    pub form: Form,
    pub span: Span,
}

// A loop over what statements stand in a row, of which there may be thousands: only braces nest as calls.
impl Drop for Term {
    #[cycle(drop_term)]
    fn drop(mut self) {
        loop {
            let Term { form, span: _ } = self;
            match form {
                Form::Let {
                    name: _,
                    bound: _,
                    body,
                } => self = Box::into_inner(body),
                _ => return,
            }
        }
    }
}

/// What a term is made of. A `Let` without a name is a sequence.
#[derive(Drop)]
#[cycle(term)]
pub enum Form {
    Let {
        name: Option<Name>,
        bound: Box<Term>,
        body: Box<Term>,
    },
    If {
        test: TreeExpr,
        yes: Box<Term>,
        no: Box<Term>,
    },
    Print(TreeExpr),
    New(Name),
    Spawn(Box<Term>),
    Free(Name),
    Guard {
        name: Name,
        pattern: TreePattern,
        clauses: Vec<TreeClause>,
    },
    Send {
        target: Name,
        tag: Name,
        args: Sequence<TreeExpr>,
    },
    Call {
        name: Name,
        args: Sequence<TreeExpr>,
    },
    Value(TreeExpr),
}

/// A clause of a guard, with the span of its first word.
#[derive(Drop)]
#[cycle(term)]
pub enum TreeClause {
    Fail(Span),
    Free(Span, Term),
    Receive {
        span: Span,
        tag: Name,
        names: Sequence<Name>,
        from: Name,
        body: Term,
    },
}
