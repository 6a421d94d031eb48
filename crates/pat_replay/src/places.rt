// Where a thread stands: threads ascend by number, so it is looked for by halves.
ghost use Rattle.std.specs.Prelude.{◌≡◌, ◌<◌, ◌≤◌, nat_eq, None, Some, slice_get, IfSome, IfNone};
ghost use Rattle.std.specs.Map.{keys_of, lookup};
ghost use Rattle.pat_semantics_spec.specs.Orders.{AscendsFrom};
ghost use Rattle.pat_reduce.specs.Views.{threads_view};
ghost use Rattle.pat_reduce.specs.Places.{IsPlace};

use pat_reduce::ThreadState;

/// The place of the thread with this number.
pub fn place_among(threads: &[(u32, ThreadState)], thread: u32) -> Option<usize>
    requires { AscendsFrom 0 (keys_of (threads_view threads.now)) }
    ensures found { IfSome result (IsPlace threads.now thread) }
    ensures none { IfNone result (lookup (nat_eq thread) (threads_view threads.now) ≡ None) }
{
    let mut low = 0;
    let mut high = threads.len();
    while low < high {
        let middle = middle_of(low, high);
        let own = threads[middle].0;
        if own == thread {
            return Some(middle);
        }
        if thread > own {
            low = middle + 1;
        } else {
            high = middle;
        }
    }
    None
}

/// The thread at its place.
pub fn state_at(threads: &[(u32, ThreadState)], thread: u32, place: usize) -> &ThreadState
    requires { IsPlace threads.now thread place }
    ensures { slice_get threads.now place ≡ Some (thread, result.now) }
{
    &threads[place].1
}

fn middle_of(low: usize, high: usize) -> usize
    requires { low < high }
    ensures low { low ≤ result }
    ensures high { result < high }
{
    low + (high - low) / 2
}
