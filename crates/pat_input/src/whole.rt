// Reading a source to its end as one list of bytes, or past the limit; and tokens of bytes that are there.
ghost use Rattle.std.specs.Prelude.{◌≡◌, ◌+◌, ◌≤◌, ◌++◌, ℕ, Bool, nat_eq, List, IfOk, length};
ghost use Rattle.std.specs.Io.KnownBytes.{Consumes, IsAtEnd};
ghost use Rattle.pat_ports.specs.Ends.{ReachesBy, EndsOnce, EndsThere};
ghost use Rattle.pat_lexer.specs.Lexed.{HasRead};
ghost use Rattle.pat_input.specs.Inputs.{IsInputWithin, IsRead, FaultsAfter, whole_limit};

use crate::reading::{Input, InputError, LIMIT, finished};
use pat_lexer::{LexError, Lexer};
use pat_ports::Source;
use std::alloc::{AllocError, Global};

/// The most bytes of a program with a text behind it.
pub const WHOLE_LIMIT: usize = 67_108_864;

// The most bytes that one read asks for.
const PIECE: usize = 8192;

/// Reads a source to its end, or past the limit of a program with a text behind it.
pub fn read_bytes<S: Source>(alloc: Global, source: &mut S) -> Result<Vec<u8>, InputError>
    ensures ok { IfOk result (λ bytes. IsInputWithin whole_limit (S.rest source.old) (S.rest source.new) bytes.items) }
    ensures faults { FaultsAfter (S.faults source.old) (S.faults source.new) result }
    ensures end { IfOk result (λ bytes. length bytes.items ≤ whole_limit → EndsThere (S.reach source.old) (S.reach source.new)) }
    ensures one_end { EndsOnce (S.reach source.old) (S.reach source.new) }
{
    let mut bytes = Vec::new(alloc);
    let mut total = 0;
    while total <= WHOLE_LIMIT {
        let count = read_more(source, &mut bytes, total)?;
        if count == 0 {
            return Ok(bytes);
        }
        total += count;
    }
    Ok(bytes)
}

// Reads one piece more, or nothing at the end. How many bytes it has.
fn read_more<S: Source>(
    source: &mut S,
    bytes: &mut Vec<u8>,
    total: usize,
) -> Result<usize, InputError>
    requires small { total ≤ whole_limit }
    ensures count { IfOk result (λ count. (piece : List ℕ) × Consumes (S.rest source.old) (S.rest source.new) piece
        × (bytes.new.items ≡ bytes.old.items ++ piece) × (length piece ≡ count)) }
    ensures end { IfOk result (λ count. count ≡ 0 → IsAtEnd (S.rest source.new)) }
    ensures room { IfOk result (λ count. total + count ≤ 67108865) }
    ensures faults { FaultsAfter (S.faults source.old) (S.faults source.new) result }
    ensures reach { (end : Bool) × ReachesBy (S.reach source.old) (S.reach source.new) end × IfOk result (λ count. end ≡ nat_eq count 0) }
{
    let mut buffer = [0u8; PIECE];
    let room = (WHOLE_LIMIT + 1 - total).min(PIECE);
    let piece = &mut buffer[..room];
    let count = source.read(piece)?;
    match bytes.extend_from_slice(&piece[..count]) {
        Err(_) => Err(InputError::NoMemory),
        Ok(()) => Ok(count),
    }
}

/// The tokens of the bytes, as they are read of a source that gives them.
pub fn lex_bytes(alloc: Global, bytes: &[u8]) -> Result<Input, AllocError>
    ensures { IfOk result (IsRead bytes.now) }
{
    if bytes.len() > LIMIT {
        return Ok(Input::TooLong);
    }
    let mut lexer = Lexer::new(alloc);
    match lexer.feed(bytes) {
        Err(LexError::NoMemory) => Err(AllocError),
        _ => lexed(lexer, bytes.len() as u32),
    }
}

// The tokens of all that was fed, or its refusal, where memory doesn't run out.
fn lexed(lexer: Lexer, end: u32) -> Result<Input, AllocError>
    ensures { (bytes : List ℕ) → HasRead bytes lexer → length bytes ≡ end → length bytes ≤ 1048576 → IfOk result (IsRead bytes) }
{
    match finished(lexer, end) {
        Ok(input) => Ok(input),
        Err(_) => Err(AllocError),
    }
}
