// Options, two words each.
ghost use Rattle.std.specs.Prelude.{◌≡◌, ◌≤◌, map, string_bytes, IfSome};
ghost use Rattle.pat_run.specs.options.Options as chosen;
ghost use Rattle.pat_limits.specs.Limits.{most_steps};

use pat_limits::{MOST_MESSAGES, MOST_STEPS, MOST_WORKERS};
use pat_texts::read_digits;

/// How many workers a run has, how many steps it may take, and how many messages may be pending in it.
#[derive(Clone, Copy, Debug, PartialEq, Eq)]
pub struct RunOptions {
    /// From 1 to 64.
    pub workers: u32,
    /// From 0 to 1,000,000.
    pub steps: u32,
    /// From 1 to 1,000,000.
    pub messages: u32,
}

// What the words before chose.
#[derive(Clone, Copy)]
struct Choice {
    workers: Option<u32>,
    steps: Option<u32>,
    messages: Option<u32>,
}

/// The options that the words choose: `--workers`, `--steps` and `--messages`, each with a number and at most once, in any order. None
/// where the words are no options.
pub fn options_of(words: &[String]) -> Option<RunOptions>
    ensures chosen { result ≡ chosen.options_of (map string_bytes words.now) }
    ensures within { IfSome result chosen.IsWithin }
{
    let nothing = Choice {
        workers: None,
        steps: None,
        messages: None,
    };
    match choices(words, nothing) {
        Some(choice) => Some(with_defaults(choice)),
        None => None,
    }
}

/// The number of steps that the words choose: `--steps` with a number, or no words at all. None where they are anything else.
pub fn steps_of(words: &[String]) -> Option<u32>
    ensures chosen { result ≡ chosen.steps_of (map string_bytes words.now) }
    ensures within { IfSome result (λ steps. steps ≤ most_steps) }
{
    let nothing = Choice {
        workers: None,
        steps: None,
        messages: None,
    };
    match choices(words, nothing) {
        Some(choice) => steps_alone(choice),
        None => None,
    }
}

fn steps_alone(choice: Choice) -> Option<u32>
    requires { chosen.ChosenWithin choice }
    ensures chosen { result ≡ chosen.steps_alone choice }
    ensures within { IfSome result (λ steps. steps ≤ most_steps) }
{
    if choice.workers.is_none() && choice.messages.is_none() {
        Some(with_defaults(choice).steps)
    } else {
        None
    }
}

fn choices(words: &[String], choice: Choice) -> Option<Choice>
    requires { chosen.ChosenWithin choice }
    ensures chosen { result ≡ chosen.choices choice (map string_bytes words.now) }
    ensures within { IfSome result chosen.ChosenWithin }
{
    match words {
        [] => Some(choice),
        [_] => None,
        [name, number, rest @ ..] => {
            match with_option(choice, name.as_bytes(), number.as_bytes()) {
                Some(more) => choices(rest, more),
                None => None,
            }
        }
    }
}

fn with_option(choice: Choice, name: &[u8], number: &[u8]) -> Option<Choice>
    requires { chosen.ChosenWithin choice }
    ensures chosen { result ≡ chosen.with_option choice name.now number.now }
    ensures within { IfSome result chosen.ChosenWithin }
{
    if name == b"--workers".as_slice() {
        with_workers(choice, number_of(number))
    } else if name == b"--steps".as_slice() {
        with_steps(choice, number_of(number))
    } else if name == b"--messages".as_slice() {
        with_messages(choice, number_of(number))
    } else {
        None
    }
}

fn with_workers(choice: Choice, number: Option<u32>) -> Option<Choice>
    requires { chosen.ChosenWithin choice }
    ensures chosen { result ≡ chosen.with_workers choice number }
    ensures within { IfSome result chosen.ChosenWithin }
{
    match number {
        Some(workers) => {
            if choice.workers.is_none() && (1 <= workers && workers <= MOST_WORKERS) {
                Some(Choice {
                    workers: Some(workers),
                    steps: choice.steps,
                    messages: choice.messages,
                })
            } else {
                None
            }
        }
        None => None,
    }
}

fn with_steps(choice: Choice, number: Option<u32>) -> Option<Choice>
    requires { chosen.ChosenWithin choice }
    ensures chosen { result ≡ chosen.with_steps choice number }
    ensures within { IfSome result chosen.ChosenWithin }
{
    match number {
        Some(steps) => {
            if choice.steps.is_none() && steps <= MOST_STEPS {
                Some(Choice {
                    workers: choice.workers,
                    steps: Some(steps),
                    messages: choice.messages,
                })
            } else {
                None
            }
        }
        None => None,
    }
}

fn with_messages(choice: Choice, number: Option<u32>) -> Option<Choice>
    requires { chosen.ChosenWithin choice }
    ensures chosen { result ≡ chosen.with_messages choice number }
    ensures within { IfSome result chosen.ChosenWithin }
{
    match number {
        Some(messages) => {
            if choice.messages.is_none() && (1 <= messages && messages <= MOST_MESSAGES) {
                Some(Choice {
                    workers: choice.workers,
                    steps: choice.steps,
                    messages: Some(messages),
                })
            } else {
                None
            }
        }
        None => None,
    }
}

/// The number that one to seven decimal digits spell. None where the word is no such number.
pub fn number_of(word: &[u8]) -> Option<u32>
    ensures { result ≡ chosen.number_of word.now }
{
    if 1 <= word.len() && word.len() <= 7 {
        read_digits(word)
    } else {
        None
    }
}

fn with_defaults(choice: Choice) -> RunOptions
    requires { chosen.ChosenWithin choice }
    ensures chosen { result ≡ chosen.with_defaults choice }
    ensures within { chosen.IsWithin result }
{
    let workers = match choice.workers {
        Some(workers) => workers,
        None => 1,
    };
    let steps = match choice.steps {
        Some(steps) => steps,
        None => 100_000,
    };
    let messages = match choice.messages {
        Some(messages) => messages,
        None => MOST_MESSAGES,
    };
    RunOptions {
        workers,
        steps,
        messages,
    }
}
