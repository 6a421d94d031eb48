// Why a step can't be taken.
ghost use Rattle.std.specs.Prelude.{◌≡◌, ℕ};
ghost use Rattle.pat_parser_spec.specs.Machine as m;
ghost use Rattle.pat_parser_phrases.specs.tokens.Answers.{Rest, after, answer, Parses};
ghost use Rattle.pat_parser.specs.states.Views.{state_view};
ghost use Rattle.pat_parser.specs.states.Answers.{Makes};
ghost use Rattle.pat_parser.specs.declared.states.fault.Fault.TheVariants.{NoMemory};

use crate::states::state::State;
use pat_parser_phrases::ParseError;
use std::alloc::{AllocError, AllocFailed};

/// Why a step can't be taken.
#[derive(Debug, Drop)]
pub enum Fault {
    Unexpected,
    TooDeep,
    NoMemory,
}

impl From<AllocError> for Fault {
    ghost from_gives = { λ _ e. e ≡ NoMemory };

    fn from(_e: AllocError) -> Fault {
        Fault::NoMemory
    }
}

impl<T: Drop> From<AllocFailed<T>> for Fault {
    ghost from_gives = { λ _ e. e ≡ NoMemory };

    fn from(_e: AllocFailed<T>) -> Fault {
        Fault::NoMemory
    }
}

/// What is answered at a token at the offset `from` where its step gives this.
pub fn placed(step: Result<State, Fault>, from: u32) -> Result<State, ParseError>
    ensures { (move : m.Move) (rest : Rest) → Makes step move → Parses result (after move from rest) (λ x. answer (state_view x) rest) }
{
    match step {
        Ok(state) => Ok(state),
        Err(Fault::Unexpected) => Err(ParseError::Unexpected(from)),
        Err(Fault::TooDeep) => Err(ParseError::TooDeep(from)),
        Err(Fault::NoMemory) => Err(ParseError::NoMemory),
    }
}
