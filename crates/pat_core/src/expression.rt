// Expressions over numbered variables.
use pat_primitives::Op;
use pat_sequences::Text;

/// An expression. A variable is named by its number in its function.
#[derive(Drop)]
pub enum Expr {
    Var(u32),
    Unit,
    Bool(bool),
    Int(i64),
    /// A string, by its bytes.
    Str(Text),
    Op(Op, Box<Expr>, Box<Expr>),
}
