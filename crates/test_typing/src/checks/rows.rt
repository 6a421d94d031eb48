use crate::checking::check;
use pat_command_check::answer_check;
use pat_command_derive::answer_derive;
use pat_front::{Answer, Reason, Status, Verdict};
use pat_infer_problems::Rule;
use pat_input::lex_bytes;
use pat_syntax::Span;
use std::alloc::{AllocError, Global};
use std::process::Abort;
use std::test::Fail;

fn answer(alloc: Global, derive: bool, bytes: &[u8]) -> Result<Answer, AllocError> {
    let input = lex_bytes(alloc, bytes)?;
    if derive {
        answer_derive(alloc, input)
    } else {
        answer_check(alloc, input)
    }
}

fn try_rows(
    rt: &impl Abort,
    alloc: Global,
    derive: bool,
    rows: &[(&[u8], Status, &[u8])],
) -> Result<(), Fail> {
    for (input, status, text) in rows {
        let came = answer(alloc, derive, input)?;
        check(rt, came.status == *status);
        check(rt, came.text.as_slice() == *text);
    }
    Ok(())
}

fn unaccepted(reason: Reason) -> Status {
    Status::Refused(Verdict::Unaccepted(reason))
}

fn check_rows(rt: &impl Abort, alloc: Global) -> Result<(), Fail> {
    let rows: [(&[u8], Status, &[u8]); 7] = [
        (
            b"interface Cell { Put(Int) }\ndef cell(c: Cell?): Unit { guard c : Put { receive Put(x) from c -> free(c); print(x) } }\ndef main(): Unit { let c = new[Cell] in spawn { cell(c) }; c ! Put(1); c ! Put(2) }\n",
            unaccepted(Reason::Refuted(Span { from: 37, to: 38 })),
            b"refuted at 37-38: word Put Put not in Put\n",
        ),
        (
            b"interface I { m() }\ndef main(): Unit { let a = new[I] in guard a : m + 1 { receive m() from b -> free(b) } }\n",
            unaccepted(Reason::Untypable(Span { from: 57, to: 106 }, Rule::Covers)),
            b"untypable at 57-106: Covers\n",
        ),
        (
            b"interface I { m() }\ndef pump(a: I!): Unit { a ! m(); pump(a) }\ndef drain(a: I?): Unit { guard a : *m { free -> () receive m() from b -> drain(b) } }\ndef main(): Unit { let a = new[I] in spawn { drain(a) }; pump(a) }\n",
            unaccepted(Reason::Unusable(Span { from: 32, to: 34 })),
            b"unusable at 32-34\n",
        ),
        (
            b"interface J { k() }\ninterface I { m(J!k) }\ndef f(a: I?): J!k { guard a : m { receive m(u) from b -> free(b); u } }\ndef main(): Unit { () }\n",
            unaccepted(Reason::Untypable(Span { from: 87, to: 88 }, Rule::Second)),
            b"untypable at 87-88: Second\n",
        ),
        (
            b"interface J { k() }\ninterface I { m(J!k) }\ndef f(a: I?): Unit { guard a : m { receive m(u) from b -> free(b); spawn { u ! k() } } }\ndef main(): Unit { () }\n",
            Status::Ok,
            b"accepted\n",
        ),
        (
            b"interface I { m() }\ndef f(a: I?*m): Unit { g(a) }\ndef g(a: I?*(m.m) + m.*(m.m)): Unit { g(a) }\ndef main(): Unit { () }\n",
            unaccepted(Reason::Undecided(Span { from: 26, to: 27 })),
            b"undecided at 26-27\n",
        ),
        (
            b"interface User { Reply(Int) }\ninterface F { Get(User!Reply) }\ndef f(self: F?): Unit { guard self : Get { receive Get(u) from self -> free(self) } }\ndef main(): Unit { () }\n",
            unaccepted(Reason::Refuted(Span { from: 117, to: 118 })),
            b"refuted at 117-118: word 1 not in Reply\n",
        ),
    ];
    try_rows(rt, alloc, false, &rows)
}

fn derive_rows(rt: &impl Abort, alloc: Global) -> Result<(), Fail> {
    let rows: [(&[u8], Status, &[u8]); 4] = [
        (
            b"interface I { m(), n() }\ndef f(a: I?*(m.n)): Unit { g(a) }\ndef g(a: I?*m.*n): Unit { g(a) }\ndef main(): Unit { () }\n",
            Status::Ok,
            b"%%derivation\nnode 0 Unit {v0: I?*m.*n ret} c(0:0,0;1,1)\nnode 1 Unit {v0: I?*m.*n ret}\nnode 2 Unit {}\n",
        ),
        (
            b"interface I { m() }\ndef main(): Unit { let a = new[I] in a ! m(); guard a : m { receive m() from b -> free(b) } }\n",
            Status::Ok,
            b"%%derivation\nvar 1 I 1\nnode 0 Unit {}\nnode 1 I?$1 {}\nnode 2 Unit {v0: I?$1 ret}\nnode 3 Unit {v0: I!m sec}\nnode 4 Unit {v0: I?m ret}\nnode 5 Unit {v1: I?1 ret}\nnode 6 Unit {}\n",
        ),
        (
            b"interface I { m() }\ndef f(a: I?*m): Unit { g(a) }\ndef g(a: I?1 + m.*m): Unit { g(a) }\ndef main(): Unit { () }\n",
            Status::Ok,
            b"%%derivation\nnode 0 Unit {v0: I?1 + m.*m ret} g2\nnode 1 Unit {v0: I?1 + m.*m ret}\nnode 2 Unit {}\n",
        ),
        (
            b"interface Cell { Put(Int) }\ndef cell(c: Cell?): Unit { guard c : Put { receive Put(x) from c -> free(c); print(x) } }\ndef main(): Unit { let c = new[Cell] in spawn { cell(c) }; c ! Put(1); c ! Put(2) }\n",
            unaccepted(Reason::Refuted(Span { from: 37, to: 38 })),
            b"refuted at 37-38: word Put Put not in Put\n",
        ),
    ];
    try_rows(rt, alloc, true, &rows)
}

pub fn programs_are_checked(rt: &impl Abort, alloc: Global) -> Result<(), Fail> {
    check_rows(rt, alloc)?;
    derive_rows(rt, alloc)
}
