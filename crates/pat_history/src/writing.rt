// Entries as lines.
ghost use Rattle.std.specs.Prelude.{◌≡◌, ◌++◌, ◌∷◌, [], Some, map, option_map, IfOk, OnOk};
ghost use Rattle.std.specs.Fmt.{decimal};
ghost use Rattle.pat_semantics_spec.specs.Runs.{IsShared, IsSharedOrNone, IsHistory};
ghost use Rattle.pat_reduce.specs.Views.{act_view, entry_view};
ghost use Rattle.pat_history_spec.specs.HistoryText.{act_word, entry_line, history_text, NamesNoMessage};

use pat_reduce::{Act, Entry};
use pat_texts::push_number;
use std::alloc::{AllocError, Global};

/// The text of a history. No entry has a local step as its shared act: no text of a history has one.
pub fn write(alloc: Global, entries: &[Entry]) -> Result<Vec<u8>, AllocError>
    requires { IsHistory (map entry_view entries.now) }
    ensures { IfOk result (λ t. t.items ≡ history_text (map entry_view entries.now)) }
{
    let mut text = b"%%history\n".to_vec(alloc)?;
    for entry in entries {
        push_entry(&mut text, entry)?;
    }
    Ok(text)
}

fn push_entry(text: &mut Vec<u8>, entry: &Entry) -> Result<(), AllocError>
    requires { IsSharedOrNone (option_map act_view entry.now.shared) }
    ensures { OnOk result (text.new.items ≡ text.old.items ++ entry_line (entry_view entry.now)) }
{
    push_field(text, entry.worker)?;
    push_field(text, entry.thread)?;
    push_field(text, entry.local)?;
    push_act(text, entry.shared)?;
    text.push(b'\n')?;
    Ok(())
}

// A number and a space.
fn push_field(text: &mut Vec<u8>, n: u32) -> Result<(), AllocError>
    ensures { OnOk result (text.new.items ≡ text.old.items ++ (decimal n ++ 32 ∷ [])) }
{
    push_number(text, n as u64)?;
    text.push(b' ')?;
    Ok(())
}

fn push_act(text: &mut Vec<u8>, shared: Option<Act>) -> Result<(), AllocError>
    requires { IsSharedOrNone (option_map act_view shared) }
    ensures { OnOk result (text.new.items ≡ text.old.items ++ act_word (option_map act_view shared)) }
{
    match shared {
        Some(Act::Receive(number)) => {
            text.extend_from_slice(b"receive ")?;
            push_number(text, number as u64)
        }
        Some(act) => {
            text.extend_from_slice(word_of(act))?;
            Ok(())
        }
        None => {
            text.push(b'-')?;
            Ok(())
        }
    }
}

fn word_of(act: Act) -> &'static [u8]
    requires shared { IsShared (act_view act) }
    requires whole { NamesNoMessage (act_view act) }
    ensures { result.now ≡ act_word (Some (act_view act)) }
{
    match act {
        Act::New => b"new",
        Act::Send => b"send",
        Act::Spawn => b"spawn",
        Act::Print => b"print",
        Act::End => b"end",
        Act::Free => b"free",
        Act::Local => unreachable!(),
        Act::Receive(_) => unreachable!(),
    }
}
