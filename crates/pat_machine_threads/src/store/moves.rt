// A thread's state, moved out of the table and back.
ghost use Rattle.std.specs.Prelude.{◌≡◌, ℕ, ◌+◌, ◌<◌, ◌≤◌, [], ◌∷◌, ◌++◌, Some, length, nat_eq, IfSome, OnOk, OnErr};
ghost use Rattle.std.specs.Map.{lookup, set_value};
ghost use Rattle.pat_semantics_spec.specs.Configs.{Thread as ThreadOf};
ghost use Rattle.pat_reduce.specs.declared.threads.state.ThreadState.{ThreadState as StateOf};
ghost use Rattle.pat_reduce.specs.threads.ThreadViews.{thread_view};
ghost use Rattle.pat_reduce.specs.Views.{threads_view};
ghost use Rattle.pat_machine_laws.specs.thread_frames.Alone.{put_back, AreLeft};
ghost use Rattle.pat_machine_threads.specs.store.ThreadStore.{hollow, in_list};
ghost use Rattle.pat_limits.specs.Limits.{most_number};

use crate::table::Table;
use pat_reduce::{Control, ThreadState};
use pat_reduce_values::Value;
use pat_sequences::{Sequence, Stack, let_go};
use std::alloc::{AllocError, Global};

/// Moves the state of a thread out of the table. An error changes nothing.
pub(crate) fn set_apart(
    alloc: Global,
    threads: &mut Sequence<(u32, ThreadState)>,
    table: &mut Table,
    thread: u32,
) -> Result<(), AllocError>
    requires there { (s : ThreadOf) × (lookup (nat_eq thread) (threads_view table.old.entries) ≡ Some s) }
    ensures made { table.new.made ≡ table.old.made }
    ensures spare { table.new.spare ≡ table.old.spare }
    ensures own { OnOk result ((own : StateOf) × (threads.new ≡ threads.old ++ (thread, own) ∷ []) × (lookup (nat_eq thread) (threads_view table.old.entries) ≡ Some (thread_view own))) }
    ensures others { OnOk result (threads_view table.new.entries ≡ set_value (nat_eq thread) (threads_view table.old.entries) hollow) }
    ensures err { OnErr result ((threads.new ≡ threads.old) × (table.new ≡ table.old)) }
{
    threads.items.reserve(1)?;
    let own = table.swap(thread, hollow(alloc));
    threads.items.push_reserved((thread, own));
    Ok(())
}

// What stands in the place of a thread meanwhile. It takes no memory.
fn hollow(alloc: Global) -> ThreadState
    ensures { thread_view result ≡ hollow }
{
    let control = Control::Returned(Value::Unit);
    let frames = Stack::new(alloc);
    ThreadState { control, frames }
}

/// Puts what is left of a thread in its place, and who came behind the others. It takes no memory.
pub(crate) fn put_back(threads: &mut Sequence<(u32, ThreadState)>, table: &mut Table, thread: u32)
    requires left { (made : ℕ) × AreLeft thread table.old.made (threads_view threads.old) made }
    requires there { (s : ThreadOf) × (lookup (nat_eq thread) (threads_view table.old.entries) ≡ Some s) }
    requires number { table.old.made < most_number }
    requires room { 0 < table.old.spare }
    ensures none { threads.new ≡ [] }
    ensures made { (made : ℕ) → AreLeft thread table.old.made (threads_view threads.old) made → table.new.made ≡ made }
    ensures entries { threads_view table.new.entries ≡ put_back thread (threads_view table.old.entries) (threads_view threads.old) }
{
    let came = newcomer(threads);
    put_own(threads, table, thread);
    match came {
        Some((_, state)) => table.add(state),
        None => {}
    }
}

// Takes out the one that came behind the thread, if one did.
fn newcomer(threads: &mut Sequence<(u32, ThreadState)>) -> Option<(u32, ThreadState)>
    requires { length threads.old ≤ 2 }
    ensures all { threads.old ≡ threads.new ++ in_list result }
    ensures few { length threads.new ≤ 1 }
    ensures came { IfSome result (λ e. length threads.new ≡ 1) }
{
    if threads.len() > 1 {
        threads.pop()
    } else {
        None
    }
}

// Puts the thread in its place, or takes it out where nothing is left of it.
fn put_own(threads: &mut Sequence<(u32, ThreadState)>, table: &mut Table, thread: u32)
    requires few { length threads.old ≤ 1 }
    requires there { (s : ThreadOf) × (lookup (nat_eq thread) (threads_view table.old.entries) ≡ Some s) }
    ensures none { threads.new ≡ [] }
    ensures made { table.new.made ≡ table.old.made }
    ensures spare { table.new.spare ≡ table.old.spare }
    ensures entries { threads_view table.new.entries ≡ put_back thread (threads_view table.old.entries) (threads_view threads.old) }
{
    match threads.pop() {
        Some((_, state)) => let_go(table.swap(thread, state)),
        None => let_go(table.remove(thread)),
    }
}
