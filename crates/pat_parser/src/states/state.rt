// What the parser is in the middle of: what nests without a bound stands on a stack of frames, and all else is read by
// functions that call one another. A state moves at each statement, so what is large stands in boxes.
use crate::states::frames::Frames;
use pat_sequences::Sequence;
use pat_syntax::Span;
use pat_tree::{Decl, Name, Param, Term, TreeClause, TreeExpr, TreePattern, TreeType};

/// A guard, the clauses read so far, how many brackets are open before its brace and inside, and how many statements.
#[derive(Drop)]
pub struct Guarding {
    pub mailbox: Name,
    pub pattern: TreePattern,
    pub from: u32,
    pub opened: u16,
    pub inside: u16,
    pub statements: u16,
    pub clauses: Vec<TreeClause>,
}

/// A receive clause, and the names read so far.
#[derive(Drop)]
pub struct ClauseHead {
    pub guard: Box<Guarding>,
    pub word: Span,
    pub tag: Name,
    pub names: Sequence<Name>,
}

/// The head of a function, behind some declarations.
#[derive(Drop)]
pub struct Defining {
    pub decls: Sequence<Decl>,
    pub name: Name,
    pub params: Sequence<Param>,
}

/// A term that is being bound, or the body that follows one.
#[derive(Drop)]
pub enum LetFrame {
    InBound(Name, u32),
    InBody(Option<Name>, Box<Term>, u32),
}

/// A term in braces.
#[derive(Drop)]
pub enum BlockFrame {
    InBlock(u32, u16, u16),
    InYes(TreeExpr, u32, u16, u16),
    InNo(TreeExpr, Box<Term>, u32, u16, u16),
    InSpawn(u32, u16, u16),
    InDef(Box<Defining>, TreeType),
}

/// The body of a clause.
#[derive(Drop)]
pub enum ClauseFrame {
    InFree(Box<Guarding>, Span),
    InReceive(Box<ClauseHead>, Name),
}

/// What is owed. Numbers in it are where a term begins, how many brackets were open before it, and how many statements.
#[derive(Drop)]
pub enum Frame {
    Let(LetFrame),
    Block(BlockFrame),
    Clause(ClauseFrame),
}

/// What may come next within a function.
#[derive(Drop)]
pub enum Control {
    /// A term, which may be a `let` if it is a whole one.
    Start(bool),
    /// What follows a term that begins there.
    Done(Box<Term>, u32),
    /// The `else` of an `if`.
    AfterYes(TreeExpr, Box<Term>, u32),
    /// A clause of a guard, the first one or not.
    AtClause(bool, Box<Guarding>),
    /// What follows the word `free` of a clause.
    AfterFree(Box<Guarding>, Span),
    /// What follows the word `receive` of a clause.
    AfterReceive(Box<Guarding>, Span),
}

/// The frames, and how many brackets and statements are open.
#[derive(Drop)]
pub struct Place {
    pub stack: Frames,
    pub opened: u16,
    pub statements: u16,
}

#[derive(Drop)]
pub enum State {
    /// Among declarations, behind these; the first one is still to come or not. There are no frames then, and nobody needs
    /// to know.
    Between(bool, Sequence<Decl>, Frames),
    /// Within a function.
    Within(Control, Place),
}
