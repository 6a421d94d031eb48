// Checkpoints: where runs lead, runs that go on, and texts that are refused.
use crate::calls::answer;
use crate::checking::check;
use pat_checkpoint_rules::CheckRule;
use pat_derivation_rules::Rule;
use pat_front::{Status, Verdict};
use pat_resolver_heads::ResolveKind;
use pat_syntax::Span;
use std::alloc::{AllocError, Global};
use std::process::Abort;
use std::sync::Wait;
use std::test::Fail;
use std::thread::Threads;

// A program that sends itself a message.
pub const SENDS: &[u8] =
    b"interface I { m() }\ndef main(): Unit { let a = new[I] in a ! m(); guard a : m { receive m() from b -> free(b) } }\n";

// Its derivation.
pub const DERIVED: &[u8] =
    b"%%derivation\nvar 1 I 1\nnode 0 Unit {}\nnode 1 I?$1 {}\nnode 2 Unit {v0: I?$1 ret}\nnode 3 Unit {v0: I!m sec}\nnode 4 Unit {v0: I?m ret}\nnode 5 Unit {v1: I?1 ret}\nnode 6 Unit {}\n";

// Where five steps of it lead: the message is sent, and the guard is next.
const SENT: [&[u8]; 6] = [
    b"%%checkpoint\n",
    b"next 1 1 1\n",
    b"mailbox 0 I\n",
    b"message 0 0 m()\n",
    b"thread 0 value unit\n",
    b"frame - 4 {v0=#0}\n",
];

// That text, where the line at this place is another one.
fn sent_but(alloc: Global, place: usize, line: &[u8]) -> Result<Vec<u8>, AllocError> {
    let mut text = Vec::new(alloc);
    for (number, own) in SENT.iter().enumerate() {
        text.extend_from_slice(if number == place { line } else { own })?;
    }
    Ok(text)
}

fn bad(offset: u32) -> Status {
    Status::Refused(Verdict::BadText(offset))
}

pub fn where_runs_lead<R: Abort + Threads + Wait + Sync>(
    rt: &R,
    alloc: Global,
) -> Result<(), Fail> {
    let sent = sent_but(alloc, 0, SENT[0])?;
    let rows: [(&str, &[u8]); 3] = [
        ("0", b"%%checkpoint\nnext 1 0 0\nthread 0 node 0 {}\n"),
        ("5", sent.as_slice()),
        ("8", b"%%checkpoint\nnext 1 1 1\nthread 0 node 6 {}\n"),
    ];
    for (steps, checkpoint) in rows {
        let mut text = DERIVED.to_vec(alloc)?;
        text.extend_from_slice(checkpoint)?;
        let (came, taken) = answer(rt, alloc, &["checkpoint", "--steps", steps], &[SENDS])?;
        check(rt, came == Status::Ok);
        check(rt, taken.as_slice() == text.as_slice());
    }
    Ok(())
}

pub fn runs_that_go_on<R: Abort + Threads + Wait + Sync>(
    rt: &R,
    alloc: Global,
) -> Result<(), Fail> {
    let sent = sent_but(alloc, 0, SENT[0])?;
    let all: &[&[u8]] = &[SENDS, DERIVED, sent.as_slice()];
    let ended: &[&[u8]] = &[
        b"def main(): Unit { () }\n",
        b"%%derivation\nnode 0 Unit {}\n%%checkpoint\nnext 1 0 0\n",
    ];
    let rows: [(&[&str], &[&[u8]], Status, &[u8]); 4] = [
        (
            &["resume"],
            all,
            Status::Ok,
            b"%%history\n0 0 1 receive 0\n0 0 0 free\n0 0 0 end\n%%output\ndone 4\n",
        ),
        (
            &["resume", "--steps", "2"],
            all,
            Status::Budget,
            b"%%history\n0 0 1 receive 0\n%%output\nbudget 2\n",
        ),
        (
            &["resume", "--steps", "0"],
            all,
            Status::Budget,
            b"%%history\n%%output\nbudget 0\n",
        ),
        (
            &["resume"],
            ended,
            Status::Ok,
            b"%%history\n%%output\ndone 0\n",
        ),
    ];
    for (words, texts, status, text) in rows {
        let (came, taken) = answer(rt, alloc, words, texts)?;
        check(rt, came == status);
        check(rt, taken.as_slice() == text);
    }
    Ok(())
}

// Behind that text a history goes on from there: its first entry is taken, and the second one isn't a step.
pub fn histories_that_go_on<R: Abort + Threads + Wait + Sync>(
    rt: &R,
    alloc: Global,
) -> Result<(), Fail> {
    let sent = sent_but(alloc, 0, SENT[0])?;
    let history: &[u8] = b"%%history\n0 0 1 receive 0\n0 0 1 new\n";
    let texts = [SENDS, DERIVED, sent.as_slice(), history];
    let (came, taken) = answer(rt, alloc, &["replay"], &texts)?;
    check(rt, came == Status::Refused(Verdict::RefusedAt(1)));
    check(rt, taken.as_slice() == b"refused at entry 1\n".as_slice());
    Ok(())
}

pub fn each_rule_of_checkpoints<R: Abort + Threads + Wait + Sync>(
    rt: &R,
    alloc: Global,
) -> Result<(), Fail> {
    let rows: [(CheckRule, usize, &[u8]); 11] = [
        // A next number that is in use, and two from which no run goes on.
        (CheckRule::Numbers, 1, b"next 1 0 1\n"),
        (CheckRule::Numbers, 1, b"next 4000000001 1 1\n"),
        (CheckRule::Numbers, 1, b"next 1 1 4294967295\n"),
        // A truth value where nothing is wanted, and a certificate that is left over.
        (CheckRule::Kinds, 4, b"thread 0 value true\n"),
        (CheckRule::Kinds, 5, b"frame - 4 {v0=#0} g2\n"),
        // A message that brings the mailbox that it is in.
        (CheckRule::Distinct, 3, b"message 0 0 m(#0)\n"),
        // A guard that is control and frame.
        (CheckRule::Order, 4, b"thread 0 node 4 {v0=#0}\n"),
        // A mailbox from which nobody receives.
        (CheckRule::Holder, 5, b""),
        // A message with a payload that isn't declared.
        (CheckRule::Messages, 3, b"message 0 0 m(1)\n"),
        // A message that is lost, and a certificate that is left over.
        (CheckRule::Balance, 3, b""),
        (CheckRule::Balance, 2, b"mailbox 0 I g2\n"),
    ];
    for (rule, place, other) in rows {
        let checkpoint = sent_but(alloc, place, other)?;
        let texts = [SENDS, DERIVED, checkpoint.as_slice()];
        let (came, taken) = answer(rt, alloc, &["resume"], &texts)?;
        let mut line = b"bad checkpoint: ".to_vec(alloc)?;
        line.extend_from_slice(rule.name())?;
        line.push(b'\n')?;
        check(rt, came == Status::Refused(Verdict::BadCheckpoint(rule)));
        check(rt, taken.as_slice() == line.as_slice());
    }
    Ok(())
}

// Each bad line with the offset at which it begins.
pub fn lines_that_are_not_read<R: Abort + Threads + Wait + Sync>(
    rt: &R,
    alloc: Global,
) -> Result<(), Fail> {
    let rows: [(usize, &[u8], u32); 17] = [
        (1, b"next 1 1\n", 300),
        (1, b"next 1 1 01\n", 300),
        (1, b"next 1 1 4294967296\n", 300),
        (2, b"mailbox 0 J\n", 311),
        (2, b"mailbox 00 I\n", 311),
        (2, b"message 0 0 m()\n", 311),
        (3, b"message 0 1 m()\n", 323),
        (3, b"message 0 0 n()\n", 323),
        (3, b"message 0 0 m(,)\n", 323),
        (3, b"mailbox 0 I\n", 323),
        (4, b"thread 0 value none\n", 339),
        (4, b"thread 4294967296 value unit\n", 339),
        (4, b"thread 0 node 7 {}\n", 339),
        (5, b"frame - 7 {v0=#0}\n", 359),
        (5, b"frame v 4 {v0=#0}\n", 359),
        (5, b"frame - 4 {v0=#0}", 359),
        (5, b"mailbox 1 I\n", 359),
    ];
    for (place, other, offset) in rows {
        let checkpoint = sent_but(alloc, place, other)?;
        let texts = [SENDS, DERIVED, checkpoint.as_slice()];
        let (came, _) = answer(rt, alloc, &["resume"], &texts)?;
        check(rt, came == bad(offset));
    }
    Ok(())
}

pub fn refusals_before_a_checkpoint_is_looked_at<R: Abort + Threads + Wait + Sync>(
    rt: &R,
    alloc: Global,
) -> Result<(), Fail> {
    let unknown: &[u8] = b"def main(): Unit { let a = new[J] in free(a) }\n";
    let small: &[u8] = b"def main(): Unit { () }\n";
    let unread: &[u8] = b"%%derivation\nnode 0 Nothing {}\n";
    let rejected: &[u8] = b"%%derivation\nnode 0 Int {}\n";
    let forged: &[u8] = b"%%checkpoint\nnext 1 1 1\nmailbox 0 J\n";
    let crowded: &[u8] = b"%%checkpoint\nnext 4000000001 0 0\n";
    let rows: [(&[&[u8]], Status); 7] = [
        // Without a line that marks a text nothing is said of the program.
        (&[small], bad(24)),
        (&[unknown, DERIVED], bad(220)),
        (&[small, crowded, rejected], bad(84)),
        (
            &[unknown, DERIVED, forged],
            Status::Refused(Verdict::Resolve(ResolveKind::UnknownName, Span { from: 31, to: 32 })),
        ),
        (&[small, unread, forged], bad(37)),
        (&[small, rejected, forged], bad(75)),
        (
            &[small, rejected, crowded],
            Status::Refused(Verdict::Rejected(0, Rule::Shape)),
        ),
    ];
    for (texts, status) in rows {
        let (came, _) = answer(rt, alloc, &["resume"], texts)?;
        check(rt, came == status);
    }
    Ok(())
}
