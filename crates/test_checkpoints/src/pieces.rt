// A history in pieces: each goes on from the checkpoint behind the one before it. The answers are worked out by hand.
use crate::calls::answer;
use crate::checking::check;
use crate::checkpoints::{DERIVED, SENDS};
use pat_front::{Status, Verdict};
use std::alloc::Global;
use std::process::Abort;
use std::sync::Wait;
use std::test::Fail;
use std::thread::Threads;

// Where the program begins, where it has sent its message, where the mailbox is freed, and where its thread has ended.
const BEGUN: &[u8] = b"%%checkpoint\nnext 1 0 0\nthread 0 node 0 {}\n";

const SENT: &[u8] =
    b"%%checkpoint\nnext 1 1 1\nmailbox 0 I\nmessage 0 0 m()\nthread 0 value unit\nframe - 4 {v0=#0}\n";

const FREED: &[u8] = b"%%checkpoint\nnext 1 1 1\nthread 0 node 6 {}\n";

const ENDED: &[u8] = b"%%checkpoint\nnext 1 1 1\n";

// The entries between them.
const SENDING: &[u8] = b"0 0 1 new\n0 0 2 send\n";

const FREEING: &[u8] = b"0 0 1 receive 0\n0 0 0 free\n";

const ENDING: &[u8] = b"0 0 0 end\n";

const MARK: &[u8] = b"%%history\n";

/// The entries are taken from the one checkpoint on, end so, and lead to the other one.
fn leads<R: Abort + Threads + Wait + Sync>(
    rt: &R,
    alloc: Global,
    from: &[u8],
    entries: &[u8],
    end: &[u8],
    to: &[u8],
) -> Result<(), Fail> {
    let texts = [SENDS, DERIVED, from, MARK, entries];
    let (status, text) = answer(rt, alloc, &["replay"], &texts)?;
    check(rt, status == Status::Ok);
    check(rt, text.as_slice() == end);
    let (status, text) = answer(rt, alloc, &["checkpoint"], &texts)?;
    let mut wanted = DERIVED.to_vec(alloc)?;
    wanted.extend_from_slice(to)?;
    check(rt, status == Status::Ok);
    check(rt, text.as_slice() == wanted.as_slice());
    Ok(())
}

/// The entries aren't taken from the checkpoint on: both commands say where.
fn is_refused<R: Abort + Threads + Wait + Sync>(
    rt: &R,
    alloc: Global,
    from: &[u8],
    entries: &[u8],
    verdict: Verdict,
    line: &[u8],
) -> Result<(), Fail> {
    let texts = [SENDS, DERIVED, from, MARK, entries];
    let (status, text) = answer(rt, alloc, &["replay"], &texts)?;
    check(rt, status == Status::Refused(verdict));
    check(rt, text.as_slice() == line);
    let (status, text) = answer(rt, alloc, &["checkpoint"], &texts)?;
    check(rt, status == Status::Refused(verdict));
    check(rt, text.as_slice() == line);
    Ok(())
}

pub fn pieces_of_a_history<R: Abort + Threads + Wait + Sync>(
    rt: &R,
    alloc: Global,
) -> Result<(), Fail> {
    leads(rt, alloc, BEGUN, SENDING, b"open 5\n", SENT)?;
    leads(rt, alloc, SENT, FREEING, b"open 3\n", FREED)?;
    leads(rt, alloc, FREED, ENDING, b"done 1\n", ENDED)?;
    leads(rt, alloc, ENDED, b"", b"done 0\n", ENDED)?;
    // Joined they are the whole, which the program alone is taken through too.
    let mut whole = SENDING.to_vec(alloc)?;
    whole.extend_from_slice(FREEING)?;
    whole.extend_from_slice(ENDING)?;
    leads(rt, alloc, BEGUN, whole.as_slice(), b"done 9\n", ENDED)?;
    let (status, text) = answer(rt, alloc, &["replay"], &[SENDS, MARK, whole.as_slice()])?;
    check(rt, status == Status::Ok);
    check(rt, text.as_slice() == b"done 9\n".as_slice());
    Ok(())
}

pub fn pieces_that_are_refused<R: Abort + Threads + Wait + Sync>(
    rt: &R,
    alloc: Global,
) -> Result<(), Fail> {
    let first: &[u8] = b"refused at entry 0\n";
    // A piece once more, and one too early.
    is_refused(rt, alloc, FREED, FREEING, Verdict::RefusedAt(0), first)?;
    is_refused(rt, alloc, SENT, ENDING, Verdict::RefusedAt(0), first)?;
    // Another message than the one that lies there, and a second end.
    let other: &[u8] = b"0 0 1 receive 1\n";
    is_refused(rt, alloc, SENT, other, Verdict::RefusedAt(0), first)?;
    let twice: &[u8] = b"0 0 0 end\n0 0 0 end\n";
    let second: &[u8] = b"refused at entry 1\n";
    is_refused(rt, alloc, FREED, twice, Verdict::RefusedAt(1), second)?;
    // A line that isn't read, where an entry before it isn't taken either.
    let unread: &[u8] = b"0 0 0 free\n0 0 00 free\n";
    let line: &[u8] = b"bad text at 398\n";
    is_refused(rt, alloc, SENT, unread, Verdict::BadText(398), line)
}
