// The text of the program with so many workers.
ghost use Rattle.std.specs.Prelude.{◌≡◌, ◌++◌, ◌<◌, IfOk, OnOk};
ghost use Rattle.pat_load.specs.LoadText.{each_from, group_text, load_text, main_text, numbered, worker_text};
ghost use Rattle.pat_limits.specs.Limits.{most_number};

use pat_texts::push_number;
use std::alloc::{AllocError, Global};

/// The text of a program that sends each of so many workers a number and a mailbox for its answer, and prints the sum of the answers:
/// of n workers `3 * n * (n + 1) / 2 + n`.
pub fn program_text(alloc: Global, workers: u32) -> Result<Vec<u8>, AllocError>
    requires { workers < most_number }
    ensures { IfOk result (λ t. t.items ≡ load_text workers) }
{
    let mut text = Vec::new(alloc);
    text.extend_from_slice(b"interface Sum { Part(Int) } interface Work { Job(Int, Sum!Part) } ")?;
    push_workers(&mut text, workers)?;
    text.extend_from_slice(
        b"def gather(self: Sum?, sum: Int): Unit { guard self : *Part { free -> print(sum) receive Part(x) from self -> gather(self, sum + x) } } ",
    )?;
    push_main(&mut text, workers)?;
    Ok(text)
}

fn push_main(text: &mut Vec<u8>, workers: u32) -> Result<(), AllocError>
    requires { workers < most_number }
    ensures { OnOk result (text.new.items ≡ text.old.items ++ main_text workers) }
{
    text.extend_from_slice(b"def main(): Unit { let all = new[Sum] in ")?;
    push_groups(text, workers)?;
    text.extend_from_slice(b"gather(all, 0) }\n")?;
    Ok(())
}

fn push_workers(text: &mut Vec<u8>, workers: u32) -> Result<(), AllocError>
    requires { workers < most_number }
    ensures { OnOk result (text.new.items ≡ text.old.items ++ each_from worker_text 1 workers) }
{
    for number in 0..workers {
        push_worker(text, (number + 1) as u64)?;
    }
    Ok(())
}

fn push_worker(text: &mut Vec<u8>, number: u64) -> Result<(), AllocError>
    ensures { OnOk result (text.new.items ≡ text.old.items ++ worker_text number) }
{
    push_numbered(text, b"def w", number)?;
    text.extend_from_slice(
        b"(self: Work?): Unit { guard self : Job { receive Job(x, to) from self -> free(self); to ! Part(x * 3 + 1) } } ",
    )?;
    Ok(())
}

fn push_groups(text: &mut Vec<u8>, workers: u32) -> Result<(), AllocError>
    requires { workers < most_number }
    ensures { OnOk result (text.new.items ≡ text.old.items ++ each_from group_text 1 workers) }
{
    for number in 0..workers {
        push_group(text, (number + 1) as u64)?;
    }
    Ok(())
}

fn push_group(text: &mut Vec<u8>, number: u64) -> Result<(), AllocError>
    ensures { OnOk result (text.new.items ≡ text.old.items ++ group_text number) }
{
    push_numbered(text, b"let b", number)?;
    push_numbered(text, b" = new[Work] in spawn { w", number)?;
    push_numbered(text, b"(b", number)?;
    push_numbered(text, b") }; b", number)?;
    push_numbered(text, b" ! Job(", number)?;
    text.extend_from_slice(b", all); ")?;
    Ok(())
}

// Words, and a number behind them.
fn push_numbered(text: &mut Vec<u8>, words: &[u8], number: u64) -> Result<(), AllocError>
    ensures { OnOk result (text.new.items ≡ text.old.items ++ numbered words.now number) }
{
    text.extend_from_slice(words)?;
    push_number(text, number)
}
