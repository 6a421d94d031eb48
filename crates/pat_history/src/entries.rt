// An entry from its line.
ghost use Rattle.std.specs.Prelude.{◌≡◌, option_map};
ghost use Rattle.pat_reduce.specs.Views.{entry_view};
ghost use Rattle.pat_history_spec.specs.EntryReading as reading;
ghost use Rattle.pat_history.specs.Answers.{shared_view};

use pat_reduce::{Act, Entry};
use pat_texts::{behind, cut, read_number};

/// The entry that a line spells, without its newline.
pub fn read_entry(line: &[u8]) -> Option<Entry>
    ensures { option_map entry_view result ≡ reading.read_entry line.now }
{
    match cut(line, b' ') {
        Some((worker, more)) => read_worker(worker, more),
        None => None,
    }
}

fn read_worker(own: &[u8], more: &[u8]) -> Option<Entry>
    ensures { option_map entry_view result ≡ reading.read_worker (own.now, more.now) }
{
    match read_number(own) {
        Some(worker) => match cut(more, b' ') {
            Some((thread, more)) => read_thread(worker, thread, more),
            None => None,
        },
        None => None,
    }
}

fn read_thread(worker: u32, own: &[u8], more: &[u8]) -> Option<Entry>
    ensures { option_map entry_view result ≡ reading.read_thread worker (own.now, more.now) }
{
    match read_number(own) {
        Some(thread) => match cut(more, b' ') {
            Some((local, word)) => read_steps(worker, thread, local, word),
            None => None,
        },
        None => None,
    }
}

fn read_steps(worker: u32, thread: u32, own: &[u8], word: &[u8]) -> Option<Entry>
    ensures { option_map entry_view result ≡ reading.read_steps worker thread (own.now, word.now) }
{
    match read_number(own) {
        Some(local) => match read_shared(word) {
            Some(shared) => Some(Entry {
                worker,
                thread,
                local,
                shared,
            }),
            None => None,
        },
        None => None,
    }
}

/// A shared act, or none. No word is a local step.
fn read_shared(word: &[u8]) -> Option<Option<Act>>
    ensures { shared_view result ≡ reading.read_shared word.now }
{
    if word == b"-".as_slice() {
        Some(None)
    } else if word == b"new".as_slice() {
        Some(Some(Act::New))
    } else if word == b"send".as_slice() {
        Some(Some(Act::Send))
    } else if word == b"spawn".as_slice() {
        Some(Some(Act::Spawn))
    } else if word == b"print".as_slice() {
        Some(Some(Act::Print))
    } else if word == b"end".as_slice() {
        Some(Some(Act::End))
    } else if word == b"free".as_slice() {
        Some(Some(Act::Free))
    } else {
        read_receive(word)
    }
}

fn read_receive(word: &[u8]) -> Option<Option<Act>>
    ensures { shared_view result ≡ reading.read_receive word.now }
{
    match behind(word, b"receive ") {
        Some(own) => match read_number(own) {
            Some(message) => Some(Some(Act::Receive(message))),
            None => None,
        },
        None => None,
    }
}
