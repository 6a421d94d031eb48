// The program of what is in front of a mark.
ghost use Rattle.std.specs.Prelude.{◌≤◌, ◌<◌, ℕ, List, length, take, drop, IfOk, IfErr};
ghost use Rattle.pat_core.specs.Views.{program_view};
ghost use Rattle.pat_resolver_spec.specs.Resolved.{IsResolved};
ghost use Rattle.pat_resolver_heads.specs.results.Views.{places_view};
ghost use Rattle.pat_input_split.specs.Marked.{IsUnmarked};
ghost use Rattle.pat_input.specs.Inputs.{IsRead, whole_limit};
ghost use Rattle.pat_front.specs.Texts.{Explains as ExplainsText};
ghost use Rattle.pat_input_split.specs.program_with_text.MarkedPrograms.{HasTree, HasProgram, RefusesBytes, Explains};
ghost use Rattle.pat_limits.specs.Limits.{number_count};

use crate::place_of_mark;
use pat_core::Program;
use pat_front::{FrontError, Verdict, program_of, tree_of};
use pat_input::{Input, LIMIT, WHOLE_LIMIT, lex_bytes};
use std::alloc::Global;

/// The program in front of the first line that is the mark, and the offset of this line.
pub fn program_before(
    alloc: Global,
    bytes: &[u8],
    mark: &[u8],
) -> Result<(Program, usize), FrontError>
    ensures program { IfOk result (λ r. HasProgram mark.now bytes.now (take r.1 bytes.now) (drop r.1 bytes.now) (program_view r.0)) }
    ensures is_resolved { IfOk result (λ r. IsResolved (program_view r.0) (places_view r.0)) }
    ensures interfaces { IfOk result (λ r. length r.0.interfaces < number_count) }
    ensures within { IfOk result (λ r. r.1 ≤ length bytes.now) }
    ensures small { IfOk result (λ r. length bytes.now ≤ whole_limit) }
    ensures refused { IfErr result (Explains mark.now bytes.now) }
{
    if bytes.len() > WHOLE_LIMIT {
        return Err(FrontError::Refused(Verdict::TooLong));
    }
    match place_of_mark(bytes, mark) {
        Some(at) => match program_in(alloc, &bytes[..at]) {
            Ok(program) => Ok((program, at)),
            Err(error) => Err(error),
        },
        None => Err(FrontError::Refused(without_mark(bytes))),
    }
}

// Without a mark all of the bytes are the program's, and the text begins at their end.
fn without_mark(bytes: &[u8]) -> Verdict
    requires { length bytes.now ≤ whole_limit }
    ensures { (mark : List ℕ) → IsUnmarked mark bytes.now → RefusesBytes mark bytes.now result }
{
    if bytes.len() > LIMIT {
        Verdict::TooLong
    } else {
        Verdict::BadText(bytes.len() as u32)
    }
}

// The program of what is in front.
fn program_in(alloc: Global, front: &[u8]) -> Result<Program, FrontError>
    ensures program { IfOk result (λ p. HasTree front.now (program_view p)) }
    ensures is_resolved { IfOk result (λ p. IsResolved (program_view p) (places_view p)) }
    ensures interfaces { IfOk result (λ p. length p.interfaces < number_count) }
    ensures refused { IfErr result (ExplainsText front.now) }
{
    match lex_bytes(alloc, front) {
        Ok(input) => program_of_input(alloc, input),
        Err(_) => Err(FrontError::NoMemory),
    }
}

fn program_of_input(alloc: Global, input: Input) -> Result<Program, FrontError>
    requires { (bytes : List ℕ) × IsRead bytes input }
    ensures program { (bytes : List ℕ) → IsRead bytes input → IfOk result (λ p. HasTree bytes (program_view p)) }
    ensures is_resolved { IfOk result (λ p. IsResolved (program_view p) (places_view p)) }
    ensures interfaces { IfOk result (λ p. length p.interfaces < number_count) }
    ensures refused { (bytes : List ℕ) → IsRead bytes input → IfErr result (ExplainsText bytes) }
{
    match tree_of(alloc, input) {
        Ok((tree, end)) => match program_of(alloc, &tree, end) {
            Ok(program) => Ok(program),
            Err(error) => Err(error),
        },
        Err(error) => Err(error),
    }
}
