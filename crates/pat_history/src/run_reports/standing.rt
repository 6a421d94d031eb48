// The line that says how a run ended, or how a replay stands.
ghost use Rattle.std.specs.Prelude.{◌≡◌, ◌++◌, length, option_map, OnOk};
ghost use Rattle.std.specs.Fmt.{decimal};
ghost use Rattle.pat_machine.specs.Gives.{outcome_view};
ghost use Rattle.pat_history_spec.specs.HistoryText.{line};
ghost use Rattle.pat_history.specs.run_reports.RunText.{left_text, numbers_text, standing_text};

use pat_machine::{Outcome, Remains};
use pat_texts::push_number;
use std::alloc::AllocError;

/// The outcome after so many steps, or `open` where there is none, with a newline.
pub fn push_standing(
    text: &mut Vec<u8>,
    standing: Option<Outcome>,
    steps: u64,
    remains: &Remains,
) -> Result<(), AllocError>
    ensures { OnOk result (text.new.items
        ≡ text.old.items ++ line (standing_text (option_map outcome_view standing) steps remains.now.threads remains.now.live)) }
{
    push_words(text, standing, steps, remains)?;
    text.push(b'\n')?;
    Ok(())
}

fn push_words(
    text: &mut Vec<u8>,
    standing: Option<Outcome>,
    steps: u64,
    remains: &Remains,
) -> Result<(), AllocError>
    ensures { OnOk result (text.new.items ≡ text.old.items
        ++ standing_text (option_map outcome_view standing) steps remains.now.threads remains.now.live) }
{
    match standing {
        Some(Outcome::Done) => {
            push_count(text, b"done ", steps)?;
            push_left(text, remains.live)
        }
        Some(Outcome::Waiting) => {
            push_count(text, b"waiting ", steps)?;
            push_threads(text, remains.threads.as_slice())
        }
        Some(Outcome::Full) => push_count(text, b"full ", steps),
        Some(Outcome::Budget) => push_count(text, b"budget ", steps),
        None => push_count(text, b"open ", steps),
    }
}

// A word and a number.
fn push_count(text: &mut Vec<u8>, word: &[u8], count: u64) -> Result<(), AllocError>
    ensures { OnOk result (text.new.items ≡ text.old.items ++ (word.now ++ decimal count)) }
{
    text.extend_from_slice(word)?;
    push_number(text, count)
}

// How many mailboxes are left, if some are.
fn push_left(text: &mut Vec<u8>, count: usize) -> Result<(), AllocError>
    ensures { OnOk result (text.new.items ≡ text.old.items ++ left_text count) }
{
    if count == 0 {
        return Ok(());
    }
    push_count(text, b" left ", count as u64)
}

// The numbers of the threads, each after a space.
fn push_threads(text: &mut Vec<u8>, threads: &[u32]) -> Result<(), AllocError>
    ensures { OnOk result (text.new.items ≡ text.old.items ++ numbers_text threads.now) }
{
    for thread in threads {
        text.push(b' ')?;
        push_number(text, *thread as u64)?;
    }
    Ok(())
}
