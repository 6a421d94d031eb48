// What `verify` answers, worked out by hand.
use crate::checking::check;
use pat_command_verify::answer_verify;
use pat_derivation_rules::Rule;
use pat_front::{Status, Verdict};
use pat_resolver_heads::ResolveKind;
use pat_syntax::Span;
use std::alloc::Global;
use std::process::Abort;
use std::test::Fail;

const SHOWN: &[u8] =
    b"interface I { m(), n() }\ndef f(a: I?*(m.n)): Unit { g(a) }\ndef g(a: I?*m.*n): Unit { g(a) }\ndef main(): Unit { () }\n%%derivation\nnode 0 Unit {v0: I?*m.*n ret} c(0:0,0;1,1)\nnode 1 Unit {v0: I?*m.*n ret}\nnode 2 Unit {}\n";

// A word of the left is shown with another number.
const NOT_SHOWN: &[u8] =
    b"interface I { m(), n() }\ndef f(a: I?*(m.n)): Unit { g(a) }\ndef g(a: I?*m.*n): Unit { g(a) }\ndef main(): Unit { () }\n%%derivation\nnode 0 Unit {v0: I?*m.*n ret} c(0:0,0;1,2)\nnode 1 Unit {v0: I?*m.*n ret}\nnode 2 Unit {}\n";

fn rejected(node: u32, rule: Rule) -> Status {
    Status::Refused(Verdict::Rejected(node, rule))
}

fn bad(offset: u32) -> Status {
    Status::Refused(Verdict::BadText(offset))
}

fn inputs_of_two_parts(rt: &impl Abort, alloc: Global) -> Result<(), Fail> {
    let wrong_kind = Status::Refused(Verdict::Resolve(
        ResolveKind::WrongKind,
        Span { from: 32, to: 33 },
    ));
    let rows: [(&[u8], Status, &[u8]); 9] = [
        (SHOWN, Status::Ok, b"accepted\n"),
        (
            NOT_SHOWN,
            rejected(0, Rule::Cert),
            b"rejected at node 0: Cert\n",
        ),
        (
            b"def main(): Unit { () }\n%%derivation\nnode 0 Unit {}\n",
            Status::Ok,
            b"accepted\n",
        ),
        (
            b"def main(): Unit { () }\n%%derivation\n",
            rejected(0, Rule::Shape),
            b"rejected at node 0: Shape\n",
        ),
        // No mark, one without an end, and a bad line behind the program.
        (b"def main(): Unit { () }\n", bad(24), b"bad text at 24\n"),
        (
            b"def main(): Unit { () }\n%%derivation",
            bad(24),
            b"bad text at 24\n",
        ),
        (
            b"def main(): Unit { () }\n%%derivation\nnode 0 Unit {}\nnode x\n",
            bad(52),
            b"bad text at 52\n",
        ),
        (
            b"def main(): Unit { let x = 2 in x }\n%%derivation\n",
            wrong_kind,
            b"wrong kind at 32-33\n",
        ),
        (
            b"%%derivation\n",
            Status::Refused(Verdict::Syntax(0)),
            b"syntax error at 0\n",
        ),
    ];
    for (input, status, text) in rows {
        answers(rt, alloc, input, status, text)?;
    }
    Ok(())
}

fn a_program_before_the_mark_has_1048576_bytes_at_most(
    rt: &impl Abort,
    alloc: Global,
) -> Result<(), Fail> {
    let mut input = Vec::new(alloc);
    for _ in 0..1048553 {
        input.push(b' ')?;
    }
    input.extend_from_slice(b"def main(): Unit { () }\n%%derivation\nnode 0 Unit {}\n")?;
    answers(
        rt,
        alloc,
        input.as_slice(),
        Status::Refused(Verdict::TooLong),
        b"too long\n",
    )?;
    answers(rt, alloc, &input[1..], Status::Ok, b"accepted\n")
}

fn answers(
    rt: &impl Abort,
    alloc: Global,
    input: &[u8],
    status: Status,
    text: &[u8],
) -> Result<(), Fail> {
    let answer = answer_verify(alloc, input)?;
    check(rt, answer.status == status);
    check(rt, answer.text.as_slice() == text);
    Ok(())
}

pub fn both_parts_are_verified(rt: &impl Abort, alloc: Global) -> Result<(), Fail> {
    inputs_of_two_parts(rt, alloc)?;
    a_program_before_the_mark_has_1048576_bytes_at_most(rt, alloc)
}
