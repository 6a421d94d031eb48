// Reading a source to its end, or past the limit. Each piece that a read gives is fed to the lexer at once.
ghost use Rattle.std.specs.Prelude.{◌≡◌, ◌+◌, ◌<◌, ◌≤◌, ◌++◌, ◌≢◌, ◌^◌, ℕ, Bool, nat_eq, List, IfOk, OnOk, IsErrOf, length, None};
ghost use Rattle.std.specs.Io.KnownBytes.{Consumes, IsAtEnd};
ghost use Rattle.pat_ports.specs.Ends.{ReachesBy, EndsOnce, EndsThere};
ghost use Rattle.pat_lexer.specs.Lexed.{HasRead};
ghost use Rattle.pat_input.specs.declared.reading.InputError.TheVariants.{Failed as ReadFailed};
ghost use Rattle.pat_input.specs.Inputs.{IsInput, IsRead, Fed, FaultsAfter};

use pat_lexer::{LexError, Lexer};
use pat_ports::{Failed, Source};
use pat_syntax::Token;
use std::alloc::Global;

/// What a source gave.
#[derive(Drop)]
pub enum Input {
    /// More bytes than a program may have.
    TooLong,
    /// Bytes that don't divide into tokens.
    Refused(LexError),
    /// The tokens, and the number of bytes.
    Tokens(Vec<Token>, u32),
}

/// Why there is no input.
#[derive(Clone, Copy, Debug, PartialEq, Eq)]
pub enum InputError {
    /// The source failed.
    Failed,
    NoMemory,
}

impl From<Failed> for InputError {
    ghost from_gives = { λ _ e. e ≡ ReadFailed };

    fn from(_: Failed) -> Self {
        InputError::Failed
    }
}

/// The most bytes of a program.
pub const LIMIT: usize = 1_048_576;

// The most bytes that one read asks for.
const PIECE: usize = 8192;

/// Reads a source to its end, or past the limit.
pub fn read_tokens<S: Source>(alloc: Global, source: &mut S) -> Result<Input, InputError>
    ensures ok { IfOk result (λ input. (bytes : List ℕ) × IsInput (S.rest source.old) (S.rest source.new) bytes × IsRead bytes input) }
    ensures faults { FaultsAfter (S.faults source.old) (S.faults source.new) result }
    ensures end { IfOk result (λ input. input ≢ Input.TooLong → EndsThere (S.reach source.old) (S.reach source.new)) }
    ensures one_end { EndsOnce (S.reach source.old) (S.reach source.new) }
{
    let mut lexer = Lexer::new(alloc);
    let mut total = 0;
    while total <= LIMIT {
        let count = read_piece(source, &mut lexer, total)?;
        if count == 0 {
            return finished(lexer, total as u32);
        }
        total += count;
    }
    Ok(Input::TooLong)
}

// The tokens of all that was fed, or its refusal.
pub fn finished(lexer: Lexer, end: u32) -> Result<Input, InputError>
    ensures read { (bytes : List ℕ) → HasRead bytes lexer → length bytes ≡ end → length bytes ≤ 1048576 → IfOk result (IsRead bytes) }
    ensures no_fault { IsErrOf result InputError.Failed → ⊥ }
{
    match lexer.finish() {
        Ok(tokens) => Ok(Input::Tokens(tokens, end)),
        Err(LexError::NoMemory) => Err(InputError::NoMemory),
        Err(refusal) => Ok(Input::Refused(refusal)),
    }
}

// Feeds one piece more, or nothing at the end. How many bytes it has.
fn read_piece<S: Source>(
    source: &mut S,
    lexer: &mut Lexer,
    total: usize,
) -> Result<usize, InputError>
    requires small { total ≤ 1048576 }
    requires counted { lexer.old.refusal ≡ None → lexer.old.progress.position ≤ total }
    ensures count { IfOk result (λ count. (piece : List ℕ) × Consumes (S.rest source.old) (S.rest source.new) piece
        × Fed lexer.old lexer.new piece × (length piece ≡ count)) }
    ensures end { IfOk result (λ count. count ≡ 0 → IsAtEnd (S.rest source.new)) }
    ensures room { IfOk result (λ count. total + count ≤ 1048577) }
    ensures faults { FaultsAfter (S.faults source.old) (S.faults source.new) result }
    ensures reach { (end : Bool) × ReachesBy (S.reach source.old) (S.reach source.new) end × IfOk result (λ count. end ≡ nat_eq count 0) }
{
    let mut buffer = [0u8; PIECE];
    let room = (LIMIT + 1 - total).min(PIECE);
    let piece = &mut buffer[..room];
    let count = source.read(piece)?;
    match lexer.feed(&piece[..count]) {
        Err(LexError::NoMemory) => Err(InputError::NoMemory),
        // After a refusal the source is still read to its end.
        _ => Ok(count),
    }
}
