// Where terms end: the end of a body, of a block, of a clause and of a guard.
ghost use Rattle.std.specs.Prelude.{◌≡◌, ◌∷◌, ◌++◌, [], ◌+◌, map, option_map, nat_lt, suc, Some, None, Ok, true, false};
ghost use Rattle.pat_parser_spec.specs.Trees as trees;
ghost use Rattle.pat_parser_spec.specs.Machine as m;
ghost use Rattle.pat_syntax.specs.Views.{kind_view};
ghost use Rattle.pat_tree.specs.Views.{span_view, name_view, expr_view, term_view, type_view, param_view, decl_view};
ghost use Rattle.pat_parser.specs.states.Views.{guarding_view, clause_head_view, frame_view, block_frame_view, clause_frame_view, stack_view};
ghost use Rattle.pat_parser.specs.states.Answers.{Gives, Makes};
ghost use Rattle.pat_parser.specs.ends.Answers.{standing};
ghost use Rattle.pat_limits.specs.Limits.{most_statements};

use crate::states::{
    BlockFrame, ClauseFrame, ClauseHead, Control, Defining, Fault, Frame, Frames, Guarding,
    LetFrame, Place, State, at, begun, boxed_term, done, over, refused, too_deep, top, with_clause,
    with_decl,
};
use pat_limits::MOST_STATEMENTS;
use pat_syntax::{Mark, Reserved, Span, TokenKind};
use pat_tree::{Decl, Form, Name, Term, TreeClause, TreeExpr, TreeType};
use std::alloc::Global;

fn let_term(
    alloc: Global,
    name: Option<Name>,
    bound: Box<Term>,
    body: Box<Term>,
    from: u32,
) -> Result<Box<Term>, Fault>
    ensures { Gives (λ t. term_view t.value) result
        (Ok (trees.LetTerm (option_map name_view name) (term_view bound.value) (term_view body.value)
        (trees.span from (trees.term_at (term_view body.value)).to))) }
{
    let to = body.span.to;
    boxed_term(alloc, Form::Let { name, bound, body }, from, to)
}

fn put_back(frame: Frame, below: Frames, term: Box<Term>) -> Result<(Frames, Box<Term>), Fault>
    ensures { Gives (λ p. (stack_view p.0, term_view p.1.value)) result
        (standing (frame_view frame ∷ stack_view below) (term_view term.value)) }
{
    let stack = over(frame, below)?;
    Ok((stack, term))
}

/// A term with the bodies that it ends, and what stands below them.
fn bodies(alloc: Global, stack: Frames, term: Box<Term>) -> Result<(Frames, Box<Term>), Fault>
    ensures { Gives (λ p. (stack_view p.0, term_view p.1.value)) result (Ok (m.bodies (stack_view stack) (term_view term.value))) }
{
    let mut stack = stack;
    let mut term = term;
    while let Some(frame) = stack.pop() {
        match frame {
            Frame::Let(LetFrame::InBody(name, bound, from)) => {
                term = let_term(alloc, name, bound, term, from)?;
            }
            other => return put_back(other, stack, term),
        }
    }
    Ok((stack, term))
}

fn guard_term(guard: Box<Guarding>, to: u32) -> Term
    ensures { term_view result ≡ m.guard_term (guarding_view guard.value) to }
{
    let span = Span {
        from: guard.from,
        to,
    };
    let guard = Box::into_inner(guard);
    let form = Form::Guard {
        name: guard.mailbox,
        pattern: guard.pattern,
        clauses: guard.clauses,
    };
    Term { form, span }
}

fn guard_end(
    alloc: Global,
    first: bool,
    stack: Frames,
    guard: Box<Guarding>,
    span: Span,
) -> Result<State, Fault>
    ensures { Makes result (m.guard_end first (stack_view stack) (guarding_view guard.value) (span_view span)) }
{
    if first {
        return refused((guard, stack));
    }
    let from = guard.from;
    let opened = guard.opened;
    let statements = guard.statements;
    let whole = Box::new(alloc, guard_term(guard, span.to))?;
    Ok(done(whole, from, stack, opened, statements))
}

/// Where a clause may begin, and the guard may end if this isn't its first clause.
pub fn clause(
    alloc: Global,
    first: bool,
    stack: Frames,
    guard: Box<Guarding>,
    kind: TokenKind,
    span: Span,
) -> Result<State, Fault>
    ensures { Makes result (m.clause_step first (stack_view stack) (guarding_view guard.value) (kind_view kind) (span_view span)) }
{
    let opened = guard.inside;
    let statements = guard.statements;
    match kind {
        TokenKind::Word(Reserved::Fail) => {
            let guard = with_clause(guard, TreeClause::Fail(span))?;
            Ok(at(Control::AtClause(false, guard), stack, opened, statements))
        }
        TokenKind::Word(Reserved::Free) => Ok(at(
            Control::AfterFree(guard, span),
            stack,
            opened,
            statements,
        )),
        TokenKind::Word(Reserved::Receive) => Ok(at(
            Control::AfterReceive(guard, span),
            stack,
            opened,
            statements,
        )),
        TokenKind::Mark(Mark::CurlyClose) => guard_end(alloc, first, stack, guard, span),
        _ => refused(guard),
    }
}

fn free_of(guard: Box<Guarding>, word: Span, body: Box<Term>) -> Result<Box<Guarding>, Fault>
    ensures { Gives (λ g. guarding_view g.value) result
        (Ok (m.free_of (guarding_view guard.value) (span_view word) (term_view body.value))) }
{
    with_clause(guard, TreeClause::Free(word, Box::into_inner(body)))
}

fn receive_of(head: Box<ClauseHead>, from: Name, body: Box<Term>) -> Result<Box<Guarding>, Fault>
    ensures { Gives (λ g. guarding_view g.value) result
        (Ok (m.receive_of (clause_head_view head.value) (name_view from) (term_view body.value))) }
{
    let head = Box::into_inner(head);
    let clause = TreeClause::Receive {
        span: head.word,
        tag: head.tag,
        names: head.names,
        from,
        body: Box::into_inner(body),
    };
    with_clause(head.guard, clause)
}

fn clause_then(
    alloc: Global,
    frame: ClauseFrame,
    below: Frames,
    term: Box<Term>,
    kind: TokenKind,
    span: Span,
) -> Result<State, Fault>
    ensures { Makes result (m.next_clause (m.AtGuard (clause_frame_view frame) ∷ stack_view below) (term_view term.value) (kind_view kind)
        (span_view span)) }
{
    match frame {
        ClauseFrame::InFree(guard, word) => {
            let guard = free_of(guard, word, term)?;
            clause(alloc, false, below, guard, kind, span)
        }
        ClauseFrame::InReceive(head, from) => {
            let guard = receive_of(head, from, term)?;
            clause(alloc, false, below, guard, kind, span)
        }
    }
}

fn next_clause(
    alloc: Global,
    stack: Frames,
    term: Box<Term>,
    kind: TokenKind,
    span: Span,
) -> Result<State, Fault>
    ensures { Makes result (m.next_clause (stack_view stack) (term_view term.value) (kind_view kind) (span_view span)) }
{
    match top(stack) {
        None => refused(term),
        Some((frame, below)) => match frame {
            Frame::Clause(frame) => clause_then(alloc, frame, below, term, kind, span),
            other => refused((other, below, term)),
        },
    }
}

fn function_end(
    begun: Box<Defining>,
    of: TreeType,
    body: Box<Term>,
    stack: Frames,
) -> Result<State, Fault>
    ensures { Makes result (m.Goes (m.state (m.AtDecl false
        (map decl_view begun.value.decls ++ trees.DefDecl (name_view begun.value.name) (map param_view begun.value.params) (type_view of)
        (term_view body.value) ∷ [])) (stack_view stack) 0 0 0)) }
{
    let Defining {
        decls,
        name,
        params,
    } = Box::into_inner(begun);
    let decl = Decl::Def {
        name,
        params,
        result: of,
        body: Box::into_inner(body),
    };
    let decls = with_decl(decls, decl)?;
    Ok(State::Between(false, decls, stack))
}

fn clause_end(
    alloc: Global,
    frame: ClauseFrame,
    below: Frames,
    term: Box<Term>,
    span: Span,
) -> Result<State, Fault>
    ensures { Makes result (m.block_end (m.AtGuard (clause_frame_view frame) ∷ stack_view below) (term_view term.value) (span_view span)) }
{
    match frame {
        ClauseFrame::InFree(guard, word) => {
            let guard = free_of(guard, word, term)?;
            guard_end(alloc, false, below, guard, span)
        }
        ClauseFrame::InReceive(head, from) => {
            let guard = receive_of(head, from, term)?;
            guard_end(alloc, false, below, guard, span)
        }
    }
}

fn brace(
    alloc: Global,
    frame: BlockFrame,
    below: Frames,
    term: Box<Term>,
    span: Span,
) -> Result<State, Fault>
    ensures { Makes result (m.block_end (m.AtBlock (block_frame_view frame) ∷ stack_view below) (term_view term.value) (span_view span)) }
{
    match frame {
        BlockFrame::InBlock(from, opened, statements) => Ok(done(
            term, from, below, opened, statements,
        )),
        BlockFrame::InYes(test, from, opened, statements) => {
            let control = Control::AfterYes(test, term, from);
            Ok(at(control, below, opened, statements))
        }
        BlockFrame::InNo(test, yes, from, opened, statements) => {
            let whole = branch(alloc, test, yes, term, from, span.to)?;
            Ok(done(whole, from, below, opened, statements))
        }
        BlockFrame::InSpawn(from, opened, statements) => {
            let whole = spawned(alloc, term, from, span.to)?;
            Ok(done(whole, from, below, opened, statements))
        }
        BlockFrame::InDef(begun, of) => function_end(begun, of, term, below),
    }
}

fn block_end(alloc: Global, stack: Frames, term: Box<Term>, span: Span) -> Result<State, Fault>
    ensures { Makes result (m.block_end (stack_view stack) (term_view term.value) (span_view span)) }
{
    match top(stack) {
        None => refused(term),
        Some((frame, below)) => match frame {
            Frame::Block(frame) => brace(alloc, frame, below, term, span),
            Frame::Clause(frame) => clause_end(alloc, frame, below, term, span),
            other => refused((other, below, term)),
        },
    }
}

fn branch(
    alloc: Global,
    test: TreeExpr,
    yes: Box<Term>,
    no: Box<Term>,
    from: u32,
    to: u32,
) -> Result<Box<Term>, Fault>
    ensures { Gives (λ t. term_view t.value) result
        (Ok (trees.IfTerm (expr_view test) (term_view yes.value) (term_view no.value) (trees.span from to))) }
{
    boxed_term(alloc, Form::If { test, yes, no }, from, to)
}

fn spawned(alloc: Global, body: Box<Term>, from: u32, to: u32) -> Result<Box<Term>, Fault>
    ensures { Gives (λ t. term_view t.value) result (Ok (trees.SpawnTerm (term_view body.value) (trees.span from to))) }
{
    boxed_term(alloc, Form::Spawn(body), from, to)
}

fn takes_next(stack: &Frames) -> bool
    ensures { result ≡ m.takes_next (stack_view stack.now) }
{
    match stack.top() {
        None => false,
        Some(frame) => match frame {
            Frame::Let(LetFrame::InBody(_, _, _)) => true,
            Frame::Block(_) => true,
            Frame::Clause(_) => true,
            _ => false,
        },
    }
}

/// Whether one more statement may be open.
fn has_statement_room(statements: u16) -> bool
    ensures { result ≡ nat_lt statements most_statements }
{
    u32::from(statements) < MOST_STATEMENTS
}

fn next_term(place: Place, term: Box<Term>, from: u32) -> Result<State, Fault>
    ensures { Makes result (m.then_next (m.takes_next (stack_view place.stack)) (stack_view place.stack) place.opened place.statements
        (term_view term.value) from) }
{
    if !takes_next(&place.stack) {
        return refused((place, term));
    }
    if !has_statement_room(place.statements) {
        return too_deep((place, term));
    }
    let statements = place.statements + 1;
    let frame = Frame::Let(LetFrame::InBody(None, term, from));
    Ok(begun(frame, place.stack, true, place.opened, statements)?)
}

fn let_body(name: Name, from: u32, place: Place, term: Box<Term>) -> Result<State, Fault>
    ensures { Makes result (m.Starts place.statements
        (m.state (m.Start true) (m.AtLet (m.InBody (Some (name_view name)) (term_view term.value) from)
        ∷ stack_view place.stack) place.opened 0 (suc place.statements))) }
{
    if !has_statement_room(place.statements) {
        return too_deep((name, place, term));
    }
    let statements = place.statements + 1;
    let frame = Frame::Let(LetFrame::InBody(Some(name), term, from));
    Ok(begun(frame, place.stack, true, place.opened, statements)?)
}

fn body_of_let(stack: Frames, opened: u16, statements: u16, term: Box<Term>) -> Result<State, Fault>
    ensures { Makes result (m.then_in (stack_view stack) opened statements (term_view term.value)) }
{
    match top(stack) {
        None => refused(term),
        Some((frame, below)) => match frame {
            Frame::Let(LetFrame::InBound(name, from)) => {
                let place = Place {
                    stack: below,
                    opened,
                    statements,
                };
                let_body(name, from, place, term)
            }
            other => refused((other, below, term)),
        },
    }
}

fn clause_after(
    alloc: Global,
    stack: Frames,
    term: Box<Term>,
    kind: TokenKind,
    span: Span,
) -> Result<State, Fault>
    ensures { Makes result (m.next_clause (m.bodies (stack_view stack) (term_view term.value)).0
        (m.bodies (stack_view stack) (term_view term.value)).1 (kind_view kind) (span_view span)) }
{
    let (stack, term) = bodies(alloc, stack, term)?;
    next_clause(alloc, stack, term, kind, span)
}

fn brace_after(alloc: Global, stack: Frames, term: Box<Term>, span: Span) -> Result<State, Fault>
    ensures { Makes result (m.block_end (m.bodies (stack_view stack) (term_view term.value)).0
        (m.bodies (stack_view stack) (term_view term.value)).1 (span_view span)) }
{
    let (stack, term) = bodies(alloc, stack, term)?;
    block_end(alloc, stack, term, span)
}

/// Behind a simple term.
pub fn behind_simple(
    alloc: Global,
    place: Place,
    term: Box<Term>,
    from: u32,
    kind: TokenKind,
    span: Span,
) -> Result<State, Fault>
    ensures { Makes result (m.done_step (stack_view place.stack) place.opened place.statements (term_view term.value) from
        (kind_view kind) (span_view span)) }
{
    match kind {
        TokenKind::Mark(Mark::Semicolon) => next_term(place, term, from),
        TokenKind::Word(Reserved::In) => body_of_let(
            place.stack,
            place.opened,
            place.statements,
            term,
        ),
        TokenKind::Mark(Mark::CurlyClose) => brace_after(alloc, place.stack, term, span),
        TokenKind::Word(Reserved::Fail) => clause_after(
            alloc,
            place.stack,
            term,
            TokenKind::Word(Reserved::Fail),
            span,
        ),
        TokenKind::Word(Reserved::Free) => clause_after(
            alloc,
            place.stack,
            term,
            TokenKind::Word(Reserved::Free),
            span,
        ),
        TokenKind::Word(Reserved::Receive) => clause_after(
            alloc,
            place.stack,
            term,
            TokenKind::Word(Reserved::Receive),
            span,
        ),
        _ => refused((place, term)),
    }
}
