// The text of a run, and that of a replay.
ghost use Rattle.std.specs.Prelude.{◌≡◌, ◌<◌, ◌++◌, length, map, option_map, IfOk, OnOk};
ghost use Rattle.std.specs.List.{flat_map};
ghost use Rattle.pat_semantics_spec.specs.Configs.{Config};
ghost use Rattle.pat_semantics_spec.specs.Runs.{IsHistory};
ghost use Rattle.pat_reduce.specs.Views.{entry_view};
ghost use Rattle.pat_machine.specs.Gives.{outcome_view};
ghost use Rattle.pat_machine.specs.Remains.{remains_of};
ghost use Rattle.pat_history.specs.run_reports.RunText.{output_line, output_text, run_text, replay_text, order_text};
ghost use Rattle.pat_limits.specs.Limits.{number_count};

use crate::run_reports::counting::count_steps;
use crate::run_reports::standing::push_standing;
use pat_machine::{Outcome, Remains};
use pat_reduce::Entry;
use pat_sequences::Text;
use std::alloc::{AllocError, Global};

/// The history, the lines printed, and the outcome, of a run to a configuration of which this is left.
pub fn text_of(
    alloc: Global,
    entries: &[Entry],
    printed: &[Text],
    remains: &Remains,
    outcome: Outcome,
) -> Result<Vec<u8>, AllocError>
    requires history { IsHistory (map entry_view entries.now) }
    requires few { length entries.now < number_count }
    ensures { (c : Config) → c.printed ≡ printed.now → remains_of c ≡ remains.now
        → IfOk result (λ t. t.items ≡ run_text (map entry_view entries.now) c (outcome_view outcome)) }
{
    let mut text = crate::writing::write(alloc, entries)?;
    push_output(&mut text, printed)?;
    push_standing(&mut text, Some(outcome), count_steps(entries), remains)?;
    Ok(text)
}

/// The lines printed, and how a history stands that was replayed: its outcome, or none where a thread can go on.
pub fn replay_text_of(
    alloc: Global,
    entries: &[Entry],
    printed: &[Text],
    remains: &Remains,
    standing: Option<Outcome>,
) -> Result<Vec<u8>, AllocError>
    requires { length entries.now < number_count }
    ensures { (c : Config) → c.printed ≡ printed.now → remains_of c ≡ remains.now
        → IfOk result (λ t. t.items ≡ replay_text (map entry_view entries.now) c (option_map outcome_view standing)) }
{
    let mut text = Vec::new(alloc);
    push_lines(&mut text, printed)?;
    push_standing(&mut text, standing, count_steps(entries), remains)?;
    Ok(text)
}

/// The history, the lines printed, and how it stands: its outcome, or none where a thread can go on.
pub fn order_text_of(
    alloc: Global,
    entries: &[Entry],
    printed: &[Text],
    remains: &Remains,
    standing: Option<Outcome>,
) -> Result<Vec<u8>, AllocError>
    requires history { IsHistory (map entry_view entries.now) }
    requires few { length entries.now < number_count }
    ensures { (c : Config) → c.printed ≡ printed.now → remains_of c ≡ remains.now
        → IfOk result (λ t. t.items ≡ order_text (map entry_view entries.now) c (option_map outcome_view standing)) }
{
    let mut text = crate::writing::write(alloc, entries)?;
    push_output(&mut text, printed)?;
    push_standing(&mut text, standing, count_steps(entries), remains)?;
    Ok(text)
}

fn push_output(text: &mut Vec<u8>, printed: &[Text]) -> Result<(), AllocError>
    ensures { OnOk result (text.new.items ≡ text.old.items ++ output_text printed.now) }
{
    text.extend_from_slice(b"%%output\n")?;
    push_lines(text, printed)
}

fn push_lines(text: &mut Vec<u8>, printed: &[Text]) -> Result<(), AllocError>
    ensures { OnOk result (text.new.items ≡ text.old.items ++ flat_map output_line printed.now) }
{
    for line in printed {
        push_line(text, line)?;
    }
    Ok(())
}

fn push_line(text: &mut Vec<u8>, line: &Text) -> Result<(), AllocError>
    ensures { OnOk result (text.new.items ≡ text.old.items ++ output_line line.now) }
{
    text.extend_from_slice(b"out ")?;
    text.extend_from_slice(line.as_bytes())?;
    text.push(b'\n')?;
    Ok(())
}
