// Programs that are advanced call by call, with what each call gives, worked out by hand.
use pat_board::AdvanceRefused;
use pat_machine::Outcome;
use pat_reduce::Act;

/// What an advance gives: an entry of a thread with so many local steps and this shared act, after which the run goes on or ends; or a
/// refusal.
#[derive(Clone, Copy)]
pub enum Gives {
    Adds(u32, u32, Option<Act>),
    Ends(u32, u32, Option<Act>, Outcome),
    Refuses(AdvanceRefused),
}

/// The seat, the thread that is named, what the advance gives, and what the next seat reads then: how many threads, pending messages
/// and printed lines there are.
pub type Call = (u32, Option<u32>, Gives, (usize, usize, usize));

pub struct Case {
    pub name: &'static str,
    pub program: &'static [u8],
    pub steps: u64,
    pub messages: u32,
    pub seats: u32,
    pub calls: &'static [Call],
    /// The outcome of the machine that is closed then, and what it has printed.
    pub outcome: Option<Outcome>,
    pub printed: &'static [&'static [u8]],
}

const NOT_READY: Gives = Gives::Refuses(AdvanceRefused::NotReady);

const SPENT: Gives = Gives::Refuses(AdvanceRefused::Spent);

const END: &[u8] = b"def main(): Unit { () }";

const PRINT: &[u8] = b"def main(): Unit { let x = 2 in print(x * 21) }";

// Thread 1 waits for the message that thread 0 sends.
const CATCH: &[u8] = b"interface Ball { Hit() }
def main(): Unit { let b = new[Ball] in spawn { catch(b) }; b ! Hit() }
def catch(b: Ball?): Unit { guard b : Hit { receive Hit() from c -> free(c) } }";

// Thread 0 sends two messages, and thread 1 takes one after the other.
const TAKE_TWO: &[u8] = b"interface Pair { One(), Two() }
def main(): Unit { let p = new[Pair] in spawn { take(p) }; p ! One(); p ! Two() }
def take(p: Pair?): Unit { guard p : One.Two { receive One() from q -> two(q) } }
def two(q: Pair?): Unit { guard q : Two { receive Two() from r -> free(r) } }";

// The only thread sends both before it takes one.
const SEND_TWO: &[u8] = b"interface Pair { One(), Two() }
def main(): Unit { let p = new[Pair] in p ! One(); p ! Two(); take(p) }
def take(p: Pair?): Unit { guard p : One.Two { receive One() from q -> two(q) } }
def two(q: Pair?): Unit { guard q : Two { receive Two() from r -> free(r) } }";

// Two threads wait for one another.
const CROSSED: &[u8] = b"interface Ball { Hit() }
def main(): Unit { let a = new[Ball] in let b = new[Ball] in spawn { pass(a, b) }; spawn { pass(b, a) } }
def pass(a: Ball?, b: Ball!Hit): Unit { guard a : Hit { receive Hit() from c -> free(c); b ! Hit() } }";

pub const CASES: &[Case] = &[
    Case {
        name: "the only step is the end",
        program: END,
        steps: 10,
        messages: 1,
        seats: 2,
        calls: &[
            (
                0,
                None,
                Gives::Ends(0, 0, Some(Act::End), Outcome::Done),
                (0, 0, 0),
            ),
            (1, None, NOT_READY, (0, 0, 0)),
            (0, Some(0), NOT_READY, (0, 0, 0)),
        ],
        outcome: Some(Outcome::Done),
        printed: &[],
    },
    Case {
        name: "the steps are spent while the end is open",
        program: PRINT,
        steps: 3,
        messages: 1,
        seats: 2,
        calls: &[
            (
                1,
                Some(0),
                Gives::Ends(0, 2, Some(Act::Print), Outcome::Budget),
                (1, 0, 1),
            ),
            (0, Some(0), SPENT, (1, 0, 1)),
            (0, None, SPENT, (1, 0, 1)),
            (0, Some(5), NOT_READY, (1, 0, 1)),
        ],
        outcome: Some(Outcome::Budget),
        printed: &[b"42"],
    },
    Case {
        name: "local steps spend them",
        program: PRINT,
        steps: 2,
        messages: 1,
        seats: 1,
        calls: &[
            (0, None, Gives::Ends(0, 2, None, Outcome::Budget), (1, 0, 0)),
            (0, None, SPENT, (1, 0, 0)),
            (0, Some(0), SPENT, (1, 0, 0)),
        ],
        outcome: Some(Outcome::Budget),
        printed: &[],
    },
    Case {
        name: "there are no steps",
        program: PRINT,
        steps: 0,
        messages: 1,
        seats: 1,
        calls: &[
            (0, None, SPENT, (1, 0, 0)),
            (0, Some(0), SPENT, (1, 0, 0)),
            (0, Some(1), NOT_READY, (1, 0, 0)),
        ],
        outcome: Some(Outcome::Budget),
        printed: &[],
    },
    Case {
        name: "threads that aren't there yet, sleep at a guard, or have ended",
        program: CATCH,
        steps: 1_000_000,
        messages: 1_000_000,
        seats: 3,
        calls: &[
            (0, Some(1), NOT_READY, (1, 0, 0)),
            (1, None, Gives::Adds(0, 1, Some(Act::New)), (1, 0, 0)),
            (2, Some(0), Gives::Adds(0, 2, Some(Act::Spawn)), (2, 0, 0)),
            (0, Some(1), Gives::Adds(1, 1, None), (2, 0, 0)),
            (1, Some(1), NOT_READY, (2, 0, 0)),
            (2, None, Gives::Adds(0, 1, Some(Act::Send)), (2, 1, 0)),
            (
                0,
                Some(1),
                Gives::Adds(1, 0, Some(Act::Receive(0))),
                (2, 0, 0),
            ),
            (1, Some(0), Gives::Adds(0, 0, Some(Act::End)), (1, 0, 0)),
            (1, Some(0), NOT_READY, (1, 0, 0)),
            (2, Some(u32::MAX), NOT_READY, (1, 0, 0)),
            (0, None, Gives::Adds(1, 0, Some(Act::Free)), (1, 0, 0)),
            (
                0,
                None,
                Gives::Ends(1, 0, Some(Act::End), Outcome::Done),
                (0, 0, 0),
            ),
            (2, None, NOT_READY, (0, 0, 0)),
        ],
        outcome: Some(Outcome::Done),
        printed: &[],
    },
    Case {
        name: "a send is held back until the message before it is taken",
        program: TAKE_TWO,
        steps: 100,
        messages: 1,
        seats: 2,
        calls: &[
            (0, None, Gives::Adds(0, 1, Some(Act::New)), (1, 0, 0)),
            (1, None, Gives::Adds(0, 2, Some(Act::Spawn)), (2, 0, 0)),
            (0, Some(0), Gives::Adds(0, 2, Some(Act::Send)), (2, 1, 0)),
            (1, Some(0), Gives::Adds(0, 1, None), (2, 1, 0)),
            (0, Some(0), NOT_READY, (2, 1, 0)),
            (1, Some(0), NOT_READY, (2, 1, 0)),
            (1, None, Gives::Adds(1, 1, Some(Act::Receive(0))), (2, 0, 0)),
            (0, Some(0), Gives::Adds(0, 0, Some(Act::Send)), (2, 1, 0)),
            (
                0,
                Some(1),
                Gives::Adds(1, 1, Some(Act::Receive(1))),
                (2, 0, 0),
            ),
            (1, Some(1), Gives::Adds(1, 0, Some(Act::Free)), (2, 0, 0)),
            (0, Some(0), Gives::Adds(0, 0, Some(Act::End)), (1, 0, 0)),
            (
                1,
                None,
                Gives::Ends(1, 0, Some(Act::End), Outcome::Done),
                (0, 0, 0),
            ),
        ],
        outcome: Some(Outcome::Done),
        printed: &[],
    },
    Case {
        name: "the only step is a send that is held back",
        program: SEND_TWO,
        steps: 100,
        messages: 1,
        seats: 2,
        calls: &[
            (0, None, Gives::Adds(0, 1, Some(Act::New)), (1, 0, 0)),
            (1, None, Gives::Adds(0, 2, Some(Act::Send)), (1, 1, 0)),
            (0, None, Gives::Ends(0, 2, None, Outcome::Full), (1, 1, 0)),
            (1, None, NOT_READY, (1, 1, 0)),
            (1, Some(0), NOT_READY, (1, 1, 0)),
        ],
        outcome: Some(Outcome::Full),
        printed: &[],
    },
    Case {
        name: "64 seats, and threads that wait for one another when the steps are just spent",
        program: CROSSED,
        steps: 13,
        messages: 1,
        seats: 64,
        calls: &[
            (63, None, Gives::Adds(0, 1, Some(Act::New)), (1, 0, 0)),
            (0, None, Gives::Adds(0, 2, Some(Act::New)), (1, 0, 0)),
            (5, None, Gives::Adds(0, 2, Some(Act::Spawn)), (2, 0, 0)),
            (5, Some(1), Gives::Adds(1, 1, None), (2, 0, 0)),
            (62, None, Gives::Adds(0, 1, Some(Act::Spawn)), (3, 0, 0)),
            (63, Some(2), Gives::Adds(2, 1, None), (3, 0, 0)),
            (
                63,
                None,
                Gives::Ends(0, 0, Some(Act::End), Outcome::Waiting),
                (2, 0, 0),
            ),
            (1, None, NOT_READY, (2, 0, 0)),
            (63, Some(1), NOT_READY, (2, 0, 0)),
        ],
        outcome: Some(Outcome::Waiting),
        printed: &[],
    },
];
