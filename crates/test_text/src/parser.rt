// Texts of programs, through the lexer and the parser.

#[cfg(test)]
pub mod tests;

use crate::lexer::tokens_of;
use pat_parser::{ParseError, parse};
use std::alloc::{AllocError, Global};

/// An ordinary program: names of some length, words, marks, numbers, strings and a comment.
pub const CELL: &str = "// A cell that keeps one number, and whoever asks for it.
interface Future { Put(Int), Get(User!Reply) }
interface User { Reply(Int) }
def future(self: Future?): Unit {
  guard self : Put.*Get {
    receive Put(value) from self -> resolved(self, value)
  }
}
def resolved(self: Future?, value: Int): Unit {
  guard self : *Get {
    free -> ()
    receive Get(user) from self -> user ! Reply(value); resolved(self, value)
  }
}
def client(): Unit {
  let future_cell = new[Future] in
  spawn { future(future_cell) };
  let me = new[User] in
  spawn { future_cell ! Put(5) };
  future_cell ! Get(me);
  guard me : Reply {
    receive Reply(answer) from me -> free(me); print(answer * 42 + 1000); print(\"answered\")
  }
}
def main(): Unit { client() }
";

/// Puts a beginning behind a text, a part so many times, a middle, another part as often, and an end.
pub fn grow(text: &mut Vec<u8>, parts: [&str; 5], times: usize) -> Result<(), AllocError> {
    let [begin, part, middle, closing, end] = parts;
    append(text, begin, 1)?;
    append(text, part, times)?;
    append(text, middle, 1)?;
    append(text, closing, times)?;
    append(text, end, 1)
}

/// Puts a part behind a text, so many times over.
pub fn append(text: &mut Vec<u8>, part: &str, times: usize) -> Result<(), AllocError> {
    for _ in 0..times {
        text.extend_from_slice(part.as_bytes())?;
    }
    Ok(())
}

/// How many declarations the tree of a text has, or where and why the text is refused. Texts above 100 MB aren't read.
pub fn outcome(alloc: Global, text: &[u8]) -> Result<String, AllocError> {
    if text.len() > 100_000_000 {
        return String::from_str(alloc, "too long");
    }
    match tokens_of(alloc, text, 65536) {
        Err(_) => String::from_str(alloc, "no tokens"),
        Ok(tokens) => match parse(alloc, tokens, text.len() as u32) {
            Ok(tree) => format!(in alloc; "tree of {}", tree.decls.len()),
            Err(ParseError::Unexpected(at)) => format!(in alloc; "unexpected {at}"),
            Err(ParseError::TooDeep(at)) => format!(in alloc; "too deep {at}"),
            Err(ParseError::NoMemory) => String::from_str(alloc, "memory"),
        },
    }
}
