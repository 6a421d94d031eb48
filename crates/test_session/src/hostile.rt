// Texts that are cut, wrong, deep, long or forged, ports that fail, and runs that are read again.
use crate::checking::check;
use crate::pieces::{answer, expect};
use std::alloc::Global;
use std::process::Abort;
use std::sync::Wait;
use std::test::Fail;
use std::thread::Threads;
use test_text::grow;

const UNIT: &[u8] = b"def main(): Unit { () }\n";

// What is cut off is refused at its end, or at its beginning where not even `def` is whole. The last byte isn't needed.
pub fn a_program_cut_at_each_byte<R: Abort + Threads + Wait + Sync>(
    rt: &R,
    alloc: Global,
) -> Result<(), Fail> {
    for end in 0..23 {
        let at = if end < 3 { 0 } else { end };
        let text = format!(in alloc; "syntax error at {at}\n")?;
        expect(rt, alloc, "check", &UNIT[..end], 1, text.as_bytes())?;
    }
    expect(rt, alloc, "check", &UNIT[..23], 0, b"accepted\n")
}

// Texts that are no program, or one that isn't accepted, with what `check` writes.
const REFUSED: &[(&[u8], &[u8])] = &[
    (b"def main(): Unit { \xff", b"syntax error at 19\n"),
    (b"//\xff\ndef main(): Unit { () }\n", b"syntax error at 0\n"),
    (b"def main(): Unit { @ }\n", b"syntax error at 19\n"),
    (
        b"def main(): Unit { print(9223372036854775808) }\n",
        b"number too wide at 25\n",
    ),
    (b"def main(): Unit { f() }\n", b"unknown name at 19-20\n"),
    (
        b"interface I { t1(), t2(), t3(), t4(), t5(), t6(), t7(), t8(), t9(), t10(), t11(), t12(), t13(), t14(), t15(), t16(), t17(), t18(), t19(), t20(), t21(), t22(), t23(), t24(), t25(), t26(), t27(), t28(), t29(), t30(), t31(), t32(), t33() }\n",
        b"too many tags at 229-232\n",
    ),
    (
        b"interface I { m() }\ndef main(): Unit { let a = new[I] in if true { free(a) } else { () } }\n",
        b"untypable at 57-88: Branch\n",
    ),
    (
        b"interface I { m(I!1) }\ndef main(): Unit { let a = new[I] in a ! m(a); free(a) }\n",
        b"untypable at 60-68: Alias\n",
    ),
    (
        b"interface I { m(), n() }\ndef f(a: I?*m.*n): Unit { g(a) }\ndef g(a: I?*(m.n)): Unit { g(a) }\ndef main(): Unit { () }\n",
        b"undecided at 31-32\n",
    ),
];

// A canonical text, which `print` leaves as it is.
const UNCOVERED: &[u8] =
    b"interface I { m() }\ndef main(): Unit { let a = new[I] in guard a : m + 1 { receive m() from b -> free(b) } }\n";

pub fn programs_that_are_refused<R: Abort + Threads + Wait + Sync>(
    rt: &R,
    alloc: Global,
) -> Result<(), Fail> {
    for (input, text) in REFUSED {
        expect(rt, alloc, "check", input, 1, text)?;
    }
    expect(rt, alloc, "print", UNCOVERED, 0, UNCOVERED)
}

// Pieces of 8: four reads, the last of which finds the end. Pieces of 3: three writes.
pub fn ports_that_fail_at_each_call<R: Abort + Threads + Wait + Sync>(
    rt: &R,
    alloc: Global,
) -> Result<(), Fail> {
    let rows: [((u64, u64), u8, &[u8]); 9] = [
        ((1, 0), 3, b""),
        ((2, 0), 3, b""),
        ((3, 0), 3, b""),
        ((4, 0), 3, b""),
        ((5, 0), 0, b"accepted\n"),
        ((0, 1), 4, b""),
        ((0, 2), 4, b"acc"),
        ((0, 3), 4, b"accept"),
        ((0, 4), 0, b"accepted\n"),
    ];
    for (failing, code, text) in rows {
        let (came, taken) = answer(rt, alloc, "check", UNIT, (8, 3), failing)?;
        check(rt, came == code);
        check(rt, taken.as_slice() == text);
    }
    Ok(())
}

// A beginning, a part so many times, a middle, another part as often, and an end.
const BLANKS: [&str; 5] = ["def main(): Unit { () }\n", " ", "", "", ""];

const STATEMENTS: [&str; 5] = ["def main(): Unit { ", "();", "() }\n", "", ""];

const BRACKETS: [&str; 5] = ["def main(): Unit { print(", "(", "5", ")", ") }\n"];

const LIMITS: &[(&str, [&str; 5], usize, u8, &[u8])] = &[
    ("print", BLANKS, 1_048_552, 0, UNIT),
    ("print", BLANKS, 1_048_553, 1, b"too long\n"),
    ("check", STATEMENTS, 4095, 0, b"accepted\n"),
    ("print", STATEMENTS, 4096, 1, b"too deep at 12306\n"),
    ("check", BRACKETS, 253, 0, b"accepted\n"),
    ("check", BRACKETS, 254, 1, b"too deep at 278\n"),
];

pub fn programs_at_a_limit_and_a_step_beyond<R: Abort + Threads + Wait + Sync>(
    rt: &R,
    alloc: Global,
) -> Result<(), Fail> {
    for (line, parts, times, code, text) in LIMITS {
        let mut input = Vec::new(alloc);
        grow(&mut input, *parts, *times)?;
        let (came, taken) = answer(rt, alloc, line, input.as_slice(), (4096, 4096), (0, 0))?;
        check(rt, came == *code);
        check(rt, taken.as_slice() == *text);
    }
    Ok(())
}

// One message, sent and received.
const ONE: &[u8] =
    b"interface I { m() }\ndef main(): Unit { let a = new[I] in a ! m(); guard a : m { receive m() from b -> free(b) } }\n";

const OF_ONE: &[u8] =
    b"%%derivation\nvar 1 I 1\nnode 0 Unit {}\nnode 1 I?$1 {}\nnode 2 Unit {v0: I?$1 ret}\nnode 3 Unit {v0: I!m sec}\nnode 4 Unit {v0: I?m ret}\nnode 5 Unit {v1: I?1 ret}\nnode 6 Unit {}\n";

// Derivations of it in which a line was added or changed.
const FORGED: &[(&[u8], &[u8])] = &[
    (
        b"%%derivation\nvar 1 I 1\nnode 0 Unit {}\nnode 1 I?$1 {}\nnode 2 Unit {v0: I?$1 ret}\nnode 3 Unit {v0: I!m sec}\nnode 4 Unit {v0: I?m ret}\nnode 5 Unit {v1: I?1 ret}\nnode 6 Unit {}\nnode 7 Unit {}\n",
        b"rejected at node 7: Shape\n",
    ),
    (
        b"%%derivation\nvar 1 I 0\nnode 0 Unit {}\nnode 1 I?$1 {}\nnode 2 Unit {v0: I?$1 ret}\nnode 3 Unit {v0: I!m sec}\nnode 4 Unit {v0: I?m ret}\nnode 5 Unit {v1: I?1 ret}\nnode 6 Unit {}\n",
        b"rejected at node 1: Cert\n",
    ),
    (
        b"%%derivation\nvar 1 I 1\nnode 0 Unit {}\nnode 1 I?$1 {}\nnode 2 Unit {v0: I?$1 ret}\nnode 3 Unit {v0: I!m sec}\nnode 4 Unit {v0: I?m sec}\nnode 5 Unit {v1: I?1 ret}\nnode 6 Unit {}\n",
        b"rejected at node 4: Use\n",
    ),
];

pub fn derivations<R: Abort + Threads + Wait + Sync>(rt: &R, alloc: Global) -> Result<(), Fail> {
    for (derivation, text) in FORGED {
        let mut input = ONE.to_vec(alloc)?;
        input.extend_from_slice(derivation)?;
        expect(rt, alloc, "verify", input.as_slice(), 1, text)?;
    }
    let mut input = ONE.to_vec(alloc)?;
    input.extend_from_slice(OF_ONE)?;
    expect(rt, alloc, "derive", ONE, 0, OF_ONE)?;
    expect(rt, alloc, "verify", input.as_slice(), 0, b"accepted\n")
}

// The message that is sent last is received first.
const SELECTIVE: &[u8] =
    b"interface I { m(), n() }\ndef main(): Unit { let a = new[I] in a ! n(); a ! m(); guard a : m.n { receive m() from b -> guard b : n { receive n() from c -> free(c) } } }\n";

// Each of two threads waits for the other.
const RING: &[u8] =
    b"interface I { m() }\ndef wait(a: I?, b: I!m): Unit { guard a : m { receive m() from c -> free(c); b ! m() } }\ndef main(): Unit { let a = new[I] in let b = new[I] in spawn { wait(a, b) }; spawn { wait(b, a) } }\n";

// Messages without end.
const PUMP: &[u8] =
    b"interface I { m() }\ndef pump(a: I!*m): Unit { a ! m(); pump(a) }\ndef drain(a: I?): Unit { guard a : *m { free -> () receive m() from b -> drain(b) } }\ndef main(): Unit { let a = new[I] in spawn { drain(a) }; pump(a) }\n";

// A future that is asked before it is filled.
const FUTURE: &[u8] =
    b"interface Future { Put(Int), Get(User!Reply) }\ninterface User { Reply(Int) }\ndef future(self: Future?): Unit { guard self : Put.*Get { receive Put(x) from self -> resolved(self, x) } }\ndef resolved(self: Future?, x: Int): Unit { guard self : *Get { free -> () receive Get(user) from self -> user ! Reply(x); resolved(self, x) } }\ndef client(): Unit { let f = new[Future] in spawn { future(f) }; let me = new[User] in spawn { f ! Put(5) }; f ! Get(me); guard me : Reply { receive Reply(x) from me -> free(me); print(x) } }\ndef main(): Unit { client() }\n";

const OF_SELECTIVE: &[u8] =
    b"%%history\n0 0 1 new\n0 0 2 send\n0 0 2 send\n0 0 1 receive 1\n0 0 0 receive 0\n0 0 0 free\n0 0 0 end\n%%output\ndone 13\n";

const OF_RING: &[u8] =
    b"%%history\n0 0 1 new\n0 0 2 new\n0 0 2 spawn\n0 1 1 -\n0 0 1 spawn\n0 2 1 -\n0 0 0 end\n%%output\nwaiting 13 1 2\n";

const OF_FUTURE: &[u8] =
    b"%%history\n0 0 2 new\n0 0 2 spawn\n0 1 1 -\n0 0 2 new\n0 0 2 spawn\n0 2 0 send\n0 0 2 send\n0 1 0 receive 0\n0 2 0 end\n0 0 1 -\n0 1 1 receive 1\n0 1 1 send\n0 0 0 receive 2\n0 1 2 free\n0 0 1 free\n0 1 0 end\n0 0 1 print\n0 0 0 end\n%%output\nout 5\ndone 34\n";

const FIVE: &[u8] = b"out 5\ndone 34\n";

const CUT_OFF: &[u8] =
    b"%%history\n0 0 2 new\n0 0 2 spawn\n0 1 1 -\n0 0 2 new\n0 0 2 spawn\n0 2 0 send\n0 0 2 send\n0 1 0 receive 0\n0 2 0 end\n0 0 1 -\n0 1 1 receive 1\n0 1 1 send\n0 0 0 receive 2\n0 1 2 free\n0 0 1 free\n0 1 0 end\n0 0 1 print\n%%output\nout 5\nbudget 33\n";

// Words, a program, the exit status, and what is written, or its end; and what `replay` says of both texts together.
const RUNS: &[(&str, &[u8], u8, &[u8], &[u8])] = &[
    ("run", SELECTIVE, 0, OF_SELECTIVE, b"done 13\n"),
    ("run", RING, 7, OF_RING, b"waiting 13 1 2\n"),
    ("run", FUTURE, 0, OF_FUTURE, FIVE),
    ("run --workers 2", FUTURE, 0, FIVE, FIVE),
    ("run --steps 33", FUTURE, 6, CUT_OFF, b"out 5\nopen 33\n"),
    ("run --steps 100", PUMP, 6, b"budget 100\n", b"open 100\n"),
];

pub fn runs<R: Abort + Threads + Wait + Sync>(rt: &R, alloc: Global) -> Result<(), Fail> {
    for (line, program, code, end, text) in RUNS {
        let (came, written) = answer(rt, alloc, line, program, (8, 8), (0, 0))?;
        check(rt, came == *code);
        check(rt, written.as_slice().ends_with(end));
        let mut input = program.to_vec(alloc)?;
        input.extend_from_slice(written.as_slice())?;
        expect(rt, alloc, "replay", input.as_slice(), 0, text)?;
    }
    Ok(())
}
