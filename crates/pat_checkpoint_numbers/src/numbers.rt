// The first rule: numbers ascend and are below the next ones, and what is referred to is live.
ghost use Rattle.std.specs.Prelude.{◌≡◌, map, IsTrue};
ghost use Rattle.std.specs.List.{list_all};
ghost use Rattle.std.specs.Map.{keys_of};
ghost use Rattle.pat_reduce_values.specs.ValueViews.{value_view, env_view};
ghost use Rattle.pat_reduce.specs.Views.{config_view, threads_view};
ghost use Rattle.pat_reduce.specs.threads.ThreadViews.{control_view, frame_view, message_view, thread_view};
ghost use Rattle.pat_checkpoint_spec.specs.Numbers.{ascends, is_in_order as is_in_order_by, refers_to_live as refers_to_live_by, numbers_hold as numbers_hold_by, control_ascends as control_ascends_by, thread_ascends as thread_ascends_by, value_lives as value_lives_by, env_lives as env_lives_by, control_lives as control_lives_by, thread_lives as thread_lives_by, message_lives as message_lives_by};
ghost use Rattle.std.specs.Prelude.{nat_lt};

use crate::live::is_live;
use pat_reduce::{Config, Control, Frame, Message, ThreadState, Value};

/// Whether numbers and variables ascend, numbers are below the next ones, and what is referred to is live.
pub fn numbers_hold(config: &Config) -> bool
    ensures { result ≡ numbers_hold_by (config_view config.now) }
{
    is_in_order(config) && refers_to_live(config)
}

fn is_in_order(config: &Config) -> bool
    ensures { result ≡ is_in_order_by (config_view config.now) }
{
    let threads = config.threads.as_slice();
    let messages = config.messages.as_slice();
    let live = config.live.as_slice();
    threads_ascend(threads)
        && (messages_ascend(messages)
            && (ascend(live)
                && (threads_are_below(threads, config.next_thread)
                    && (messages_are_below(messages, config.next_message)
                        && (are_below(live, config.next_mailbox) && variables_ascend(threads))))))
}

fn ascend(numbers: &[u32]) -> bool
    ensures { result ≡ ascends 0 numbers.now }
{
    let mut least: u64 = 0;
    for number in numbers {
        if least > u64::from(*number) {
            return false;
        }
        least = u64::from(*number) + 1;
    }
    true
}

fn threads_ascend(threads: &[(u32, ThreadState)]) -> bool
    ensures { result ≡ ascends 0 (keys_of (threads_view threads.now)) }
{
    let mut least: u64 = 0;
    for (number, _) in threads {
        if least > u64::from(*number) {
            return false;
        }
        least = u64::from(*number) + 1;
    }
    true
}

fn messages_ascend(messages: &[Message]) -> bool
    ensures { result ≡ ascends 0 (map (λ m. m.number) (map message_view messages.now)) }
{
    let mut least: u64 = 0;
    for message in messages {
        if least > u64::from(message.number) {
            return false;
        }
        least = u64::from(message.number) + 1;
    }
    true
}

fn env_ascends(env: &[(u32, Value)]) -> bool
    ensures { result ≡ ascends 0 (keys_of (env_view env.now)) }
{
    let mut least: u64 = 0;
    for (variable, _) in env {
        if least > u64::from(*variable) {
            return false;
        }
        least = u64::from(*variable) + 1;
    }
    true
}

fn are_below(numbers: &[u32], next: u32) -> bool
    ensures { result ≡ list_all (λ a. nat_lt a next) numbers.now }
{
    for number in numbers {
        if *number >= next {
            return false;
        }
    }
    true
}

fn threads_are_below(threads: &[(u32, ThreadState)], next: u32) -> bool
    ensures { result ≡ list_all (λ e. nat_lt e.0 next) (threads_view threads.now) }
{
    for (number, _) in threads {
        if *number >= next {
            return false;
        }
    }
    true
}

fn messages_are_below(messages: &[Message], next: u32) -> bool
    ensures { result ≡ list_all (λ m. nat_lt m.number next) (map message_view messages.now) }
{
    for message in messages {
        if message.number >= next {
            return false;
        }
    }
    true
}

/// Whether the variables of each environment ascend.
fn variables_ascend(threads: &[(u32, ThreadState)]) -> bool
    ensures { result ≡ list_all (λ e. thread_ascends_by e.1) (threads_view threads.now) }
{
    for (_, state) in threads {
        if !thread_ascends(state) {
            return false;
        }
    }
    true
}

fn thread_ascends(state: &ThreadState) -> bool
    ensures { result ≡ thread_ascends_by (thread_view state.now) }
{
    control_ascends(&state.control) && frames_ascend(state.frames.as_slice())
}

fn control_ascends(control: &Control) -> bool
    ensures { result ≡ control_ascends_by (control_view control.now) }
{
    match control {
        Control::Node { env, .. } => env_ascends(env.as_slice()),
        Control::Returned(_) => true,
    }
}

fn frames_ascend(frames: &[Frame]) -> bool
    ensures { result ≡ list_all (λ f. ascends 0 (keys_of f.env)) (map frame_view frames.now) }
{
    for frame in frames {
        if !env_ascends(frame.env.as_slice()) {
            return false;
        }
    }
    true
}

/// Whether what is referred to, or has a message, is live.
fn refers_to_live(config: &Config) -> bool
    requires { IsTrue (is_in_order_by (config_view config.now)) }
    ensures { result ≡ refers_to_live_by (config_view config.now) }
{
    let live = config.live.as_slice();
    threads_live(live, config.threads.as_slice()) && messages_live(live, config.messages.as_slice())
}

fn threads_live(live: &[u32], threads: &[(u32, ThreadState)]) -> bool
    requires { IsTrue (ascends 0 live.now) }
    ensures { result ≡ list_all (λ e. thread_lives_by live.now e.1) (threads_view threads.now) }
{
    for (_, state) in threads {
        if !thread_lives(live, state) {
            return false;
        }
    }
    true
}

fn thread_lives(live: &[u32], state: &ThreadState) -> bool
    requires { IsTrue (ascends 0 live.now) }
    ensures { result ≡ thread_lives_by live.now (thread_view state.now) }
{
    control_lives(live, &state.control) && frames_live(live, state.frames.as_slice())
}

fn control_lives(live: &[u32], control: &Control) -> bool
    requires { IsTrue (ascends 0 live.now) }
    ensures { result ≡ control_lives_by live.now (control_view control.now) }
{
    match control {
        Control::Node { env, .. } => env_lives(live, env.as_slice()),
        Control::Returned(value) => value_lives(live, value),
    }
}

fn frames_live(live: &[u32], frames: &[Frame]) -> bool
    requires { IsTrue (ascends 0 live.now) }
    ensures { result ≡ list_all (λ f. env_lives_by live.now f.env) (map frame_view frames.now) }
{
    for frame in frames {
        if !env_lives(live, frame.env.as_slice()) {
            return false;
        }
    }
    true
}

fn env_lives(live: &[u32], env: &[(u32, Value)]) -> bool
    requires { IsTrue (ascends 0 live.now) }
    ensures { result ≡ env_lives_by live.now (env_view env.now) }
{
    for (_, value) in env {
        if !value_lives(live, value) {
            return false;
        }
    }
    true
}

fn value_lives(live: &[u32], value: &Value) -> bool
    requires { IsTrue (ascends 0 live.now) }
    ensures { result ≡ value_lives_by live.now (value_view value.now) }
{
    match value {
        Value::Mailbox(mailbox) => is_live(live, *mailbox),
        _ => true,
    }
}

fn messages_live(live: &[u32], messages: &[Message]) -> bool
    requires { IsTrue (ascends 0 live.now) }
    ensures { result ≡ list_all (message_lives_by live.now) (map message_view messages.now) }
{
    for message in messages {
        if !message_lives(live, message) {
            return false;
        }
    }
    true
}

fn message_lives(live: &[u32], message: &Message) -> bool
    requires { IsTrue (ascends 0 live.now) }
    ensures { result ≡ message_lives_by live.now (message_view message.now) }
{
    is_live(live, message.mailbox) && values_live(live, message.values.as_slice())
}

fn values_live(live: &[u32], values: &[Value]) -> bool
    requires { IsTrue (ascends 0 live.now) }
    ensures { result ≡ list_all (value_lives_by live.now) (map value_view values.now) }
{
    for value in values {
        if !value_lives(live, value) {
            return false;
        }
    }
    true
}
