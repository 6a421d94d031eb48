// The entry of a commit.
ghost use Rattle.std.specs.Prelude.{◌≡◌, ◌<◌, ◌≤◌, length, option_map, vec_len, vec_capacity};
ghost use Rattle.pat_semantics_spec.specs.Runs.{entry_steps};
ghost use Rattle.pat_reduce.specs.Views.{act_view, entry_view};
ghost use Rattle.pat_machine_spec.specs.Lendings.{committed_out};
ghost use Rattle.pat_machine.specs.Shown.{noted_in, place_of};

use pat_reduce::{Act, Entry};

/// The number of steps of an entry.
pub fn steps_of(entry: &Entry) -> u64
    ensures { result ≡ length (entry_steps (entry_view entry.now)) }
{
    match entry.shared {
        Some(_) => entry.local as u64 + 1,
        None => entry.local as u64,
    }
}

/// Takes a thread back, and makes an entry for the thread that it spawned, if it did.
pub fn take_back(out: &mut Vec<Option<u32>>, thread: u32, shared: Option<Act>)
    requires there { thread < length out.old.items }
    requires room { vec_len out.old < vec_capacity out.old }
    ensures { out.new.items ≡ committed_out out.old.items thread (option_map act_view shared) }
{
    out[thread as usize] = None;
    match shared {
        Some(Act::Spawn) => out.push_reserved(None),
        _ => {}
    }
}

/// Notes the entry at the end of the history, if it has a step, and says where.
pub fn note(history: &mut Vec<Entry>, entry: Entry) -> Option<u64>
    requires { vec_len history.old < vec_capacity history.old }
    ensures history { history.new.items ≡ noted_in history.old.items entry }
    ensures place { result ≡ place_of history.old.items entry }
{
    if steps_of(&entry) == 0 {
        return None;
    }
    let place = history.len() as u64;
    history.push_reserved(entry);
    Some(place)
}
