// Texts, with what each command answers. Commands that read the same refuse it alike, and each has its own rows for that.
use crate::calls::answer;
use crate::checking::check;
use crate::texts::TEXTS;
use pat_front::{Status, Verdict};
use pat_resolver_heads::ResolveKind;
use pat_syntax::Span;
use std::alloc::{AllocError, Global};
use std::process::Abort;
use std::sync::Wait;
use std::test::Fail;
use std::thread::Threads;

const FIRST: &[u8] = b"def main(): Unit { let x = 2 in print(x * 21) }\n";

const FIRST_TEXT: &[u8] = b"%%history\n0 0 2 print\n0 0 0 end\n%%output\nout 42\ndone 4\n";

// Threads 1 and 2 wait; thread 0 goes on behind a step of thread 1, and ends behind one of thread 2.
const WAITS_BETWEEN: &[u8] =
    b"interface I { m() }\ndef wait(a: I?, b: I!m): Unit { guard a : m { receive m() from c -> free(c); b ! m() } }\ndef main(): Unit { let a = new[I] in let b = new[I] in spawn { wait(a, b) }; spawn { wait(b, a) } }\n%%history\n0 0 1 new\n0 0 2 new\n0 0 2 spawn\n0 1 1 -\n0 0 1 spawn\n0 2 1 -\n0 0 0 end\n%%output\nwaiting 13 1 2\n";

const USAGE: &[u8] =
    b"usage: pat check|derive|verify|print|run|replay|order|checkpoint|resume|load|help\n";

fn bad(offset: u32) -> Status {
    Status::Refused(Verdict::BadText(offset))
}

fn refused(entry: u32) -> Status {
    Status::Refused(Verdict::RefusedAt(entry))
}

fn broken(kind: ResolveKind, from: u32, to: u32) -> Status {
    Status::Refused(Verdict::Resolve(kind, Span { from, to }))
}

pub fn run_rows<R: Abort + Threads + Wait + Sync>(rt: &R, alloc: Global) -> Result<(), Fail> {
    let rows: [(&[u8], Status, &[u8]); 17] = [
        (FIRST, Status::Ok, FIRST_TEXT),
        (
            b"def main(): Unit { () }\n",
            Status::Ok,
            b"%%history\n0 0 0 end\n%%output\ndone 1\n",
        ),
        (
            b"",
            Status::Refused(Verdict::Syntax(0)),
            b"syntax error at 0\n",
        ),
        (
            b"def main(): Unit { let x = 2 in x }",
            broken(ResolveKind::WrongKind, 32, 33),
            b"wrong kind at 32-33\n",
        ),
        (
            b"def main(): Unit { let x = () in x }",
            Status::Ok,
            b"%%history\n0 0 2 end\n%%output\ndone 3\n",
        ),
        (
            b"def main(): Unit { let x1 = 1in { print((x1)) } } // done",
            Status::Ok,
            b"%%history\n0 0 2 print\n0 0 0 end\n%%output\nout 1\ndone 4\n",
        ),
        (
            b"def main(): Unit { print(9223372036854775807 + 1) }",
            Status::Ok,
            b"%%history\n0 0 0 print\n0 0 0 end\n%%output\nout -9223372036854775808\ndone 2\n",
        ),
        (
            b"def main(): Unit { let x = 1 in let x = x + 1 in print(x - 10 * x) }",
            Status::Ok,
            b"%%history\n0 0 4 print\n0 0 0 end\n%%output\nout -18\ndone 6\n",
        ),
        (
            b"def main(): Unit { print(1); print(2) }",
            Status::Ok,
            b"%%history\n0 0 1 print\n0 0 1 print\n0 0 0 end\n%%output\nout 1\nout 2\ndone 5\n",
        ),
        (
            b"def main(): Unit { print(9223372036854775808) }",
            Status::Refused(Verdict::NumberTooWide(25)),
            b"number too wide at 25\n",
        ),
        (
            b"def main(): Unit { print(y) }",
            broken(ResolveKind::UnknownName, 25, 26),
            b"unknown name at 25-26\n",
        ),
        (
            b"def main(): Unit { \xff }",
            Status::Refused(Verdict::Syntax(19)),
            b"syntax error at 19\n",
        ),
        (
            b"interface I { m() } def main(): Unit { () }",
            Status::Ok,
            b"%%history\n0 0 0 end\n%%output\ndone 1\n",
        ),
        (
            b"def f(): Int { 1 } def main(): Unit { () }",
            Status::Ok,
            b"%%history\n0 0 0 end\n%%output\ndone 1\n",
        ),
        (
            b"def main(): Unit { spawn { () } }",
            Status::Ok,
            b"%%history\n0 0 0 spawn\n0 1 0 end\n0 0 0 end\n%%output\ndone 3\n",
        ),
        (
            b"def main(): Unit { print(\"a\") }",
            Status::Ok,
            b"%%history\n0 0 0 print\n0 0 0 end\n%%output\nout a\ndone 2\n",
        ),
        (
            b"def main(): Unit { print(1 < 2) }",
            Status::Ok,
            b"%%history\n0 0 0 print\n0 0 0 end\n%%output\nout true\ndone 2\n",
        ),
    ];
    try_rows(rt, alloc, "run", &rows)
}

pub fn print_rows<R: Abort + Threads + Wait + Sync>(rt: &R, alloc: Global) -> Result<(), Fail> {
    let rows: [(&[u8], Status, &[u8]); 12] = [
        (
            b"def main():Unit{print((1+2)*3)}",
            Status::Ok,
            b"def main(): Unit { print((1 + 2) * 3) }\n",
        ),
        (
            b"interface I{m(),n(Int,I!m)}def main():Unit{let a=new[I]in guard a:m.*n+1{free->()receive m()from b->free(b)}}",
            Status::Ok,
            b"interface I { m(), n(Int, I!m) }\ndef main(): Unit { let a = new[I] in guard a : m.*n + 1 { free -> () receive m() from b -> free(b) } }\n",
        ),
        (
            b"def main(): Unit { print(1 + true) }",
            broken(ResolveKind::WrongKind, 29, 33),
            b"wrong kind at 29-33\n",
        ),
        (
            b"def main(): Unit { f() }",
            broken(ResolveKind::UnknownName, 19, 20),
            b"unknown name at 19-20\n",
        ),
        (
            b"interface I { m(I!0) }\ndef main(): Unit { () }\n",
            broken(ResolveKind::EmptySending, 16, 19),
            b"empty sending type at 16-19\n",
        ),
        (
            b"def f(): Unit { () }",
            broken(ResolveKind::UnknownName, 20, 20),
            b"unknown name at 20-20\n",
        ),
        (
            b"def main(x: Int): Unit { () }",
            broken(ResolveKind::WrongArity, 4, 8),
            b"wrong arity at 4-8\n",
        ),
        (
            b"interface I { m(), m() } def main(): Unit { () }",
            broken(ResolveKind::Twice, 19, 20),
            b"twice at 19-20\n",
        ),
        (
            b"interface I { m() } def main(): Unit { let a = new[I] in a ! n() }",
            broken(ResolveKind::ForeignTag, 61, 62),
            b"foreign tag at 61-62\n",
        ),
        (
            b"def main(): Unit { ()",
            Status::Refused(Verdict::Syntax(21)),
            b"syntax error at 21\n",
        ),
        // What the text's characters are comes before how its tokens are ordered.
        (
            b"def def @",
            Status::Refused(Verdict::Syntax(8)),
            b"syntax error at 8\n",
        ),
        (
            b"//\xff\ndef main(): Unit { () }\n",
            Status::Refused(Verdict::Syntax(0)),
            b"syntax error at 0\n",
        ),
    ];
    try_rows(rt, alloc, "print", &rows)
}

// Each input, in pieces of 1, 2 and 4,096 bytes.
fn try_rows<R: Abort + Threads + Wait + Sync>(
    rt: &R,
    alloc: Global,
    word: &str,
    rows: &[(&[u8], Status, &[u8])],
) -> Result<(), Fail> {
    for (input, status, text) in rows {
        for piece in [1, 2, 4096] {
            let (came, taken) = answer(rt, alloc, &[word], input, (piece, piece), (0, 0))?;
            check(rt, came == *status);
            check(rt, taken.as_slice() == *text);
        }
    }
    Ok(())
}

pub fn each_rule_where_it_is_first_broken<R: Abort + Threads + Wait + Sync>(
    rt: &R,
    alloc: Global,
) -> Result<(), Fail> {
    for (input, text) in TEXTS {
        let (_, taken) = answer(rt, alloc, &["print"], input, (4096, 4096), (0, 0))?;
        check(rt, taken.as_slice() == *text);
    }
    Ok(())
}

pub fn words_that_are_no_command<R: Abort + Threads + Wait + Sync>(
    rt: &R,
    alloc: Global,
) -> Result<(), Fail> {
    let rows: [&[&str]; 35] = [
        &[],
        &["run", "run"],
        &["runs"],
        &["check", "run"],
        &["print", "run"],
        &["replay", "--steps", "1"],
        &["order", "order"],
        &["orders"],
        &["checkpoint", "resume"],
        &["checkpoint", "--workers", "2"],
        &["checkpoint", "--steps", "1000001"],
        &["resume", "--messages", "1"],
        &["resume", "--steps", "1", "--steps", "1"],
        &["run", "--steps"],
        &["run", "--steps", "1000001"],
        &["run", "--steps", "00000001"],
        &["run", "--messages", "0"],
        &["run", "--steps", "1", "--steps", "1"],
        &["run", "--steps", "1", "--messages", "1", "--steps", "1"],
        &["run", "--steps", "-1"],
        &["run", "--workers", "0"],
        &["run", "--workers", "65"],
        &["run", "--workers", "2", "--workers", "2"],
        &["check", "--workers", "2"],
        &["load"],
        &["load", "0"],
        &["load", "1001"],
        &["load", "one"],
        &["load", "00000001"],
        &["load", "--steps", "1"],
        &["load", "1", "2"],
        &["load", "1", "--steps"],
        &["load", "1", "--workers", "0"],
        &["helps"],
        &["help", "run"],
    ];
    for words in rows {
        let (came, taken) = answer(rt, alloc, words, FIRST, (8, 8), (0, 0))?;
        check(rt, came == Status::Usage);
        check(rt, taken.as_slice() == USAGE);
    }
    Ok(())
}

// Of a generated program with n workers the sum of the answers is 3 * n * (n + 1) / 2 + n, after 18 * n + 7 steps.
pub fn calls_of_several_words<R: Abort + Threads + Wait + Sync>(
    rt: &R,
    alloc: Global,
) -> Result<(), Fail> {
    let spent = Status::Budget;
    let rows: [(&[&str], Status, &[u8]); 13] = [
        (
            &["run", "--steps", "0"],
            spent,
            b"%%history\n%%output\nbudget 0\n",
        ),
        (
            &["run", "--steps", "0000003"],
            spent,
            b"%%history\n0 0 2 print\n%%output\nout 42\nbudget 3\n",
        ),
        (
            &["run", "--messages", "1", "--steps", "2"],
            spent,
            b"%%history\n0 0 2 -\n%%output\nbudget 2\n",
        ),
        (&["run", "--messages", "1000000"], Status::Ok, FIRST_TEXT),
        (
            &["run", "--steps", "1000000", "--messages", "1"],
            Status::Ok,
            FIRST_TEXT,
        ),
        (&["run", "--workers", "1"], Status::Ok, FIRST_TEXT),
        (
            &["run", "--steps", "0", "--workers", "64"],
            spent,
            b"%%history\n%%output\nbudget 0\n",
        ),
        (&["help"], Status::Ok, USAGE),
        (&["load", "1"], Status::Ok, b"out 4\ndone 25\n"),
        (&["load", "0000002"], Status::Ok, b"out 11\ndone 43\n"),
        (
            &["load", "3", "--workers", "2"],
            Status::Ok,
            b"out 21\ndone 61\n",
        ),
        (&["load", "100"], Status::Ok, b"out 15250\ndone 1807\n"),
        (&["load", "2", "--steps", "0"], spent, b"budget 0\n"),
    ];
    for (words, status, text) in rows {
        let (came, taken) = answer(rt, alloc, words, FIRST, (8, 8), (0, 0))?;
        check(rt, came == status);
        check(rt, taken.as_slice() == text);
    }
    Ok(())
}

pub fn replay_rows<R: Abort + Threads + Wait + Sync>(rt: &R, alloc: Global) -> Result<(), Fail> {
    let rows: [(&[u8], Status, &[u8]); 14] = [
        (
            b"def main(): Unit { () }\n%%history\n",
            Status::Ok,
            b"open 0\n",
        ),
        (
            b"def main(): Unit { () }\n%%history\n0 0 0 end\n",
            Status::Ok,
            b"done 1\n",
        ),
        (
            b"def main(): Unit { print(7) }\n%%history\n3 0 0 print\n%%output\nwhatever\n%%history\n",
            Status::Ok,
            b"out 7\nopen 1\n",
        ),
        (
            b"def main(): Unit { () }\n%%history\n0 0 0 end\n0 0 0 end\n",
            refused(1),
            b"refused at entry 1\n",
        ),
        (
            b"def main(): Unit { () }\n%%history\n0 1 0 end\n",
            refused(0),
            b"refused at entry 0\n",
        ),
        (
            b"def main(): Unit { () }\n%%history\n0 0 0 -\n",
            refused(0),
            b"refused at entry 0\n",
        ),
        (
            b"def main(): Unit { () }\n%%history\n0 0 1 end\n",
            refused(0),
            b"refused at entry 0\n",
        ),
        (
            b"def main(): Unit { () }\n%%history\n0 0 00 end\n",
            bad(34),
            b"bad text at 34\n",
        ),
        (
            b"def main(): Unit { () }\n%%history\n0 0 4294967296 end\n",
            bad(34),
            b"bad text at 34\n",
        ),
        (
            b"def main(): Unit { () }\n%%history\n0 0 0 local\n",
            bad(34),
            b"bad text at 34\n",
        ),
        (
            b"def main(): Unit { () }\n%%history\n0 0 0 end",
            bad(34),
            b"bad text at 34\n",
        ),
        (
            b"def main(): Unit { () }\n%%history",
            bad(24),
            b"bad text at 24\n",
        ),
        (b"def main(): Unit { () }\n", bad(24), b"bad text at 24\n"),
        (
            b"def main() Unit { () }\n%%history\nnone\n",
            Status::Refused(Verdict::Syntax(11)),
            b"syntax error at 11\n",
        ),
    ];
    try_rows(rt, alloc, "replay", &rows)
}

pub fn order_rows<R: Abort + Threads + Wait + Sync>(rt: &R, alloc: Global) -> Result<(), Fail> {
    let rows: [(&[u8], Status, &[u8]); 10] = [
        (
            WAITS_BETWEEN,
            Status::Ok,
            b"%%history\n0 0 1 new\n0 0 2 new\n0 0 2 spawn\n0 0 1 spawn\n0 0 0 end\n0 1 1 -\n0 2 1 -\n%%output\nwaiting 13 1 2\n",
        ),
        (
            b"def main(): Unit { spawn { print(1) }; print(2) }\n%%history\n0 0 1 spawn\n1 1 0 print\n0 0 1 print\n1 1 0 end\n0 0 0 end\n",
            Status::Ok,
            b"%%history\n0 0 1 spawn\n1 1 0 print\n0 0 1 print\n0 0 0 end\n1 1 0 end\n%%output\nout 1\nout 2\ndone 7\n",
        ),
        (
            b"def main(): Unit { spawn { () } }\n%%history\n0 0 0 spawn\n0 1 0 end\n",
            Status::Ok,
            b"%%history\n0 0 0 spawn\n0 1 0 end\n%%output\nopen 2\n",
        ),
        (
            b"def main(): Unit { print(7) }\n%%history\n3 0 0 print\n%%output\nwhatever\n%%history\n",
            Status::Ok,
            b"%%history\n3 0 0 print\n%%output\nout 7\nopen 1\n",
        ),
        (
            b"def main(): Unit { () }\n%%history\n",
            Status::Ok,
            b"%%history\n%%output\nopen 0\n",
        ),
        (
            b"def main(): Unit { () }\n%%history\n0 0 0 end\n0 0 0 end\n",
            refused(1),
            b"refused at entry 1\n",
        ),
        (
            b"def main(): Unit { spawn { () } }\n%%history\n0 1 0 end\n0 0 0 spawn\n",
            refused(0),
            b"refused at entry 0\n",
        ),
        (
            b"def main(): Unit { () }\n%%history\n0 0 00 end\n",
            bad(34),
            b"bad text at 34\n",
        ),
        (b"def main(): Unit { () }\n", bad(24), b"bad text at 24\n"),
        (
            b"def main() Unit { () }\n%%history\nnone\n",
            Status::Refused(Verdict::Syntax(11)),
            b"syntax error at 11\n",
        ),
    ];
    try_rows(rt, alloc, "order", &rows)
}

// A program of so many lets in a row.
fn lets(alloc: Global, count: usize) -> Result<Vec<u8>, AllocError> {
    let mut input = b"def main(): Unit { ".to_vec(alloc)?;
    for _ in 0..count {
        input.extend_from_slice(b"let a = 1 in ")?;
    }
    input.extend_from_slice(b"print(a) }")?;
    Ok(input)
}

pub fn an_entry_has_256_steps_at_most<R: Abort + Threads + Wait + Sync>(
    rt: &R,
    alloc: Global,
) -> Result<(), Fail> {
    let rows: [(usize, &[u8]); 3] = [
        (
            127,
            b"%%history\n0 0 254 print\n0 0 0 end\n%%output\nout 1\ndone 256\n",
        ),
        (
            128,
            b"%%history\n0 0 256 -\n0 0 0 print\n0 0 0 end\n%%output\nout 1\ndone 258\n",
        ),
        (
            300,
            b"%%history\n0 0 256 -\n0 0 256 -\n0 0 88 print\n0 0 0 end\n%%output\nout 1\ndone 602\n",
        ),
    ];
    for (count, text) in rows {
        let input = lets(alloc, count)?;
        let (status, taken) = answer(rt, alloc, &["run"], input.as_slice(), (4096, 4096), (0, 0))?;
        check(rt, status == Status::Ok);
        check(rt, taken.as_slice() == text);
    }
    Ok(())
}

pub fn a_program_has_1048576_bytes_at_most<R: Abort + Threads + Wait + Sync>(
    rt: &R,
    alloc: Global,
) -> Result<(), Fail> {
    let too_long = Status::Refused(Verdict::TooLong);
    for (blanks, status, text) in [
        (1_048_528, Status::Ok, FIRST_TEXT),
        (1_048_529, too_long, b"too long\n".as_slice()),
    ] {
        let mut input = FIRST.to_vec(alloc)?;
        for _ in 0..blanks {
            input.push(b' ')?;
        }
        let (came, taken) = answer(rt, alloc, &["run"], input.as_slice(), (8192, 512), (0, 0))?;
        check(rt, came == status);
        check(rt, taken.as_slice() == text);
    }
    Ok(())
}

pub fn each_read_and_each_write_fails_in_turn<R: Abort + Threads + Wait + Sync>(
    rt: &R,
    alloc: Global,
) -> Result<(), Fail> {
    // Pieces of 8: seven reads, the last of which finds the end, and seven writes.
    for call in 1..9u64 {
        let (status, taken) = answer(rt, alloc, &["run"], FIRST, (8, 8), (call, 0))?;
        let want = if call < 8 {
            Status::ReadFault
        } else {
            Status::Ok
        };
        check(rt, status == want);
        check(rt, taken.is_empty() == (call < 8));
    }
    for call in 1..9u64 {
        let (status, taken) = answer(rt, alloc, &["run"], FIRST, (8, 8), (0, call))?;
        let (want, count) = if call < 8 {
            (Status::WriteFault, call as usize * 8 - 8)
        } else {
            (Status::Ok, FIRST_TEXT.len())
        };
        check(rt, status == want);
        check(rt, taken.as_slice() == &FIRST_TEXT[..count]);
    }
    // Nothing is read for words that are no command, for help, or for a generated program.
    let (status, taken) = answer(rt, alloc, &[], FIRST, (8, 8), (1, 2))?;
    check(rt, status == Status::WriteFault);
    check(rt, taken.as_slice() == &USAGE[..8]);
    let (status, taken) = answer(rt, alloc, &["help"], FIRST, (8, 8), (1, 2))?;
    check(rt, status == Status::WriteFault);
    check(rt, taken.as_slice() == &USAGE[..8]);
    let (status, _) = answer(rt, alloc, &["load", "1"], FIRST, (8, 8), (1, 0))?;
    check(rt, status == Status::Ok);
    Ok(())
}
