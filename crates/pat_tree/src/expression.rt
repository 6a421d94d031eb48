// Expressions.
use pat_primitives::Op;
use pat_sequences::Text;
use pat_syntax::Span;

/// An expression. Its span leaves out the brackets round the whole of it.
#[cycle(expression)]
pub struct TreeExpr {
    pub form: ExprForm,
    pub span: Span,
}

impl Drop for TreeExpr {
    #[cycle(drop_expression)]
    fn drop(self) {
        let TreeExpr { form: _, span: _ } = self;
    }
}

/// What an expression is made of.
#[derive(Drop)]
#[cycle(expression)]
pub enum ExprForm {
    Var(Text),
    Unit,
    Bool(bool),
    Int(i64),
    Str(Text),
    Op(Op, Box<TreeExpr>, Box<TreeExpr>),
}
