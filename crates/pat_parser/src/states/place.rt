// States from their parts, and whether one more token may be open.
ghost use Rattle.std.specs.Prelude.{◌≡◌, ◌∷◌, suc, true, Ok, Err, IfOk};
ghost use Rattle.pat_parser_spec.specs.Machine as m;
ghost use Rattle.pat_parser_spec.specs.Trees as trees;
ghost use Rattle.pat_tree.specs.Views.{term_at, term_view};
ghost use Rattle.pat_parser.specs.states.Views.{frame_view, stack_view, control_view, state_view};
ghost use Rattle.pat_parser.specs.states.Answers.{Gives, Makes, Tops};

use crate::states::fault::Fault;
use crate::states::frames::Frames;
use crate::states::state::{Control, Frame, Place, State};
use pat_parser_phrases::has_room;
use pat_syntax::Span;
use pat_tree::{Form, Term};
use std::alloc::{AllocError, Global};

/// A state within a function, with these frames, and so many brackets and statements open.
#[inline(always)]
pub fn at(control: Control, stack: Frames, opened: u16, statements: u16) -> State
    ensures { state_view result ≡ m.state (control_view control) (stack_view stack) opened 0 statements }
{
    let place = Place {
        stack,
        opened,
        statements,
    };
    State::Within(control, place)
}

/// One frame more.
#[inline(always)]
pub fn over(frame: Frame, below: Frames) -> Result<Frames, Fault>
    ensures { Gives stack_view result (Ok (frame_view frame ∷ stack_view below)) }
{
    let mut stack = below;
    stack.push(frame)?;
    Ok(stack)
}

/// A term in a box.
pub fn boxed_term(alloc: Global, form: Form, from: u32, to: u32) -> Result<Box<Term>, Fault>
    ensures { Gives (λ t. term_view t.value) result (Ok (term_at form (trees.span from to))) }
{
    let span = Span { from, to };
    Ok(Box::new(alloc, Term { form, span })?)
}

/// The top frame, and what stands below it.
pub fn top(stack: Frames) -> Option<(Frame, Frames)>
    ensures { Tops result (stack_view stack) }
{
    let mut stack = stack;
    match stack.pop() {
        None => None,
        Some(frame) => Some((frame, stack)),
    }
}

/// A step can't be taken; what was read is dropped.
fn failed<T: Drop>(fault: Fault, _rest: T) -> Result<State, Fault>
    ensures { result ≡ Err fault }
{
    Err(fault)
}

/// The token may not stand here; what was read is dropped.
pub fn refused<T: Drop>(rest: T) -> Result<State, Fault>
    ensures { Makes result m.Refused }
{
    failed(Fault::Unexpected, rest)
}

/// The token opens more than the limits allow; what was read is dropped.
pub fn too_deep<T: Drop>(rest: T) -> Result<State, Fault>
    ensures { Gives state_view result (Err m.TooDeep) }
{
    failed(Fault::TooDeep, rest)
}

/// A state where a term begins in a frame of its own.
pub fn begun(
    frame: Frame,
    below: Frames,
    whole: bool,
    opened: u16,
    statements: u16,
) -> Result<State, AllocError>
    ensures { IfOk result (λ x. state_view x ≡ m.state (m.Start whole) (frame_view frame ∷ stack_view below) opened 0 statements) }
{
    let mut stack = below;
    stack.push(frame)?;
    Ok(at(Control::Start(whole), stack, opened, statements))
}

/// A term in a frame of its own, behind a brace that opens it.
pub fn block(place: Place, frame: Frame) -> Result<State, Fault>
    ensures { Makes result (m.Opens place.opened 0 (m.state (m.Start true) (frame_view frame ∷ stack_view place.stack)
        (suc place.opened) 0 place.statements)) }
{
    if !has_room(place.opened, 0) {
        return too_deep((place, frame));
    }
    Ok(begun(frame, place.stack, true, place.opened + 1, place.statements)?)
}

/// A state behind a term that begins there.
pub fn done(term: Box<Term>, from: u32, stack: Frames, opened: u16, statements: u16) -> State
    ensures { state_view result ≡ m.state (m.Done (term_view term.value) from) (stack_view stack) opened 0 statements }
{
    at(Control::Done(term, from), stack, opened, statements)
}
