// What counts say of the mailbox that a thread may free.
ghost use Rattle.std.specs.Prelude.{◌≡◌};
ghost use Rattle.pat_reduce.specs.threads.ThreadViews.{control_view};
ghost use Rattle.pat_reduce_values.specs.ValueViews.{env_view};
ghost use Rattle.pat_machine_laws.specs.refcounts.Naming.{times_in_control, times_in_env};
ghost use Rattle.pat_machine_laws.specs.refcounts.Counting.{count_at};
ghost use Rattle.pat_machine_indexes.specs.refcounts.Telling.{names_alone};

use crate::refcounts::RefCounts;
use pat_reduce::Control;
use pat_reduce_values::Value;

/// Counts that tell whether nothing but a thread reaches the mailbox that it may free.
#[derive(Clone, Copy)]
pub enum Counted<'a> {
    /// Each name is counted.
    All(&'a RefCounts),
    /// All but those of the thread's top are.
    Others(&'a RefCounts),
}

impl Counted<'_> {
    /// Whether nothing but the thread with this control names the mailbox.
    pub fn names_alone(&self, control: &Control, mailbox: u32) -> bool
        ensures { result ≡ names_alone self.now (control_view control.now) mailbox }
    {
        match self {
            Counted::All(names) => names.at(mailbox) == times_in_control(control, mailbox),
            Counted::Others(names) => names.at(mailbox) == 0,
        }
    }
}

impl RefCounts {
    // How often the mailbox is named.
    fn at(&self, mailbox: u32) -> u64
        ensures { result ≡ count_at self.now.times.items mailbox }
    {
        match self.times.get(mailbox as usize) {
            Some(times) => u64::from(*times),
            None => 0,
        }
    }
}

fn times_in_control(control: &Control, mailbox: u32) -> u64
    ensures { result ≡ times_in_control mailbox (control_view control.now) }
{
    match control {
        Control::Node { env, .. } => times_in_env(env.as_slice(), mailbox),
        Control::Returned(value) => u64::from(value.is_mailbox(mailbox)),
    }
}

fn times_in_env(env: &[(u32, Value)], mailbox: u32) -> u64
    ensures { result ≡ times_in_env mailbox (env_view env.now) }
{
    let mut times = 0;
    for entry in env {
        if entry.1.is_mailbox(mailbox) {
            times += 1;
        }
    }
    times
}
