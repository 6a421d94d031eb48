// The words of a call.
ghost use Rattle.std.specs.Prelude.{◌≡◌, ◌≤◌, ◌∷◌, [], map, string_bytes, IfSome, IfNone, codes};
ghost use Rattle.pat_session.specs.Allowed as allowed;
ghost use Rattle.pat_session.specs.Allowed.{IsCommand, HasCommand, HasBounds};

use pat_run::{RunOptions, number_of, options_of, steps_of};

/// What a call is asked to do.
#[derive(Clone, Copy, Debug, PartialEq, Eq)]
pub enum Command {
    /// Check a program.
    Check,
    /// Write a derivation of a program.
    Derive,
    /// Print the canonical text of a program.
    Print,
    /// Run a program.
    Run(RunOptions),
    /// Replay a history of a program.
    Replay,
    /// Bring a history of a program into order.
    Order,
    /// Judge a derivation of a program.
    Verify,
    /// Write where a history behind a checkpoint leads, or else a run of a program for so many steps.
    Checkpoint(u32),
    /// Go on from a checkpoint of a program for so many steps.
    Resume(u32),
    /// Run the generated program of this size.
    Load(u32, RunOptions),
    /// Say how a call is written.
    Help,
}

/// The command that the words ask for, if they are one.
pub fn command_of(words: &[String]) -> Option<Command>
    ensures some { IfSome result (λ c. IsCommand c (map string_bytes words.now)) }
    ensures bounds { IfSome result HasBounds }
    ensures none { IfNone result (HasCommand (map string_bytes words.now) → ⊥) }
{
    match words {
        [] => None,
        [word, rest @ ..] => command_with(word.as_bytes(), rest),
    }
}

// A word, and those behind it.
#[tactic(auto, using(crate::proofs::NoCommands::no_options_here))]
fn command_with(word: &[u8], rest: &[String]) -> Option<Command>
    ensures some { IfSome result (λ c. IsCommand c (word.now ∷ map string_bytes rest.now)) }
    ensures bounds { IfSome result HasBounds }
    ensures none { IfNone result (HasCommand (word.now ∷ map string_bytes rest.now) → ⊥) }
{
    if word == b"run".as_slice() {
        return run_with(rest);
    }
    if word == b"load".as_slice() {
        return load_with(rest);
    }
    if word == b"checkpoint".as_slice() {
        return checkpoint_with(rest);
    }
    if word == b"resume".as_slice() {
        return resume_with(rest);
    }
    if rest.is_empty() {
        return command_alone(word);
    }
    None
}

// A run with these options.
#[tactic(auto, using(crate::proofs::NoCommands::no_such_options))]
fn run_with(rest: &[String]) -> Option<Command>
    ensures some { IfSome result (λ c. IsCommand c (codes "run" ∷ map string_bytes rest.now)) }
    ensures bounds { IfSome result HasBounds }
    ensures none { IfNone result (HasCommand (codes "run" ∷ map string_bytes rest.now) → ⊥) }
{
    match options_of(rest) {
        Some(options) => Some(Command::Run(options)),
        None => None,
    }
}

// A checkpoint behind so many steps.
#[tactic(auto, using(crate::proofs::NoCommands::no_checkpoint_steps))]
fn checkpoint_with(rest: &[String]) -> Option<Command>
    ensures some { IfSome result (λ c. IsCommand c (codes "checkpoint" ∷ map string_bytes rest.now)) }
    ensures bounds { IfSome result HasBounds }
    ensures none { IfNone result (HasCommand (codes "checkpoint" ∷ map string_bytes rest.now) → ⊥) }
{
    match steps_of(rest) {
        Some(steps) => Some(Command::Checkpoint(steps)),
        None => None,
    }
}

// A run of so many steps that goes on.
#[tactic(auto, using(crate::proofs::NoCommands::no_resume_steps))]
fn resume_with(rest: &[String]) -> Option<Command>
    ensures some { IfSome result (λ c. IsCommand c (codes "resume" ∷ map string_bytes rest.now)) }
    ensures bounds { IfSome result HasBounds }
    ensures none { IfNone result (HasCommand (codes "resume" ∷ map string_bytes rest.now) → ⊥) }
{
    match steps_of(rest) {
        Some(steps) => Some(Command::Resume(steps)),
        None => None,
    }
}

// A load with a size and options.
fn load_with(rest: &[String]) -> Option<Command>
    ensures some { IfSome result (λ c. IsCommand c (codes "load" ∷ map string_bytes rest.now)) }
    ensures bounds { IfSome result HasBounds }
    ensures none { IfNone result (HasCommand (codes "load" ∷ map string_bytes rest.now) → ⊥) }
{
    match rest {
        [] => None,
        [number, options @ ..] => load_of(number.as_bytes(), options),
    }
}

#[tactic(auto, using(crate::proofs::NoCommands::no_size, crate::proofs::NoCommands::no_load_options))]
fn load_of(number: &[u8], rest: &[String]) -> Option<Command>
    ensures some { IfSome result (λ c. IsCommand c (codes "load" ∷ number.now ∷ map string_bytes rest.now)) }
    ensures bounds { IfSome result HasBounds }
    ensures none { IfNone result (HasCommand (codes "load" ∷ number.now ∷ map string_bytes rest.now) → ⊥) }
{
    match size_of(number) {
        Some(size) => match options_of(rest) {
            Some(options) => Some(Command::Load(size, options)),
            None => None,
        },
        None => None,
    }
}

// The size that a word spells, from 1 to 1,000.
fn size_of(word: &[u8]) -> Option<u32>
    ensures spelled { result ≡ allowed.size_of word.now }
    ensures few { IfSome result (λ size. size ≤ 1000) }
{
    match number_of(word) {
        Some(size) => {
            if 1 <= size && size <= 1000 {
                Some(size)
            } else {
                None
            }
        }
        None => None,
    }
}

// A word alone.
#[tactic(auto, using(crate::proofs::NoCommands::no_such_word))]
fn command_alone(word: &[u8]) -> Option<Command>
    requires run { word.now ≡ codes "run" → ⊥ }
    requires load { word.now ≡ codes "load" → ⊥ }
    requires checkpoint { word.now ≡ codes "checkpoint" → ⊥ }
    requires resume { word.now ≡ codes "resume" → ⊥ }
    ensures some { IfSome result (λ c. IsCommand c (word.now ∷ [])) }
    ensures bounds { IfSome result HasBounds }
    ensures none { IfNone result (HasCommand (word.now ∷ []) → ⊥) }
{
    if word == b"check".as_slice() {
        return Some(Command::Check);
    }
    if word == b"derive".as_slice() {
        return Some(Command::Derive);
    }
    if word == b"print".as_slice() {
        return Some(Command::Print);
    }
    if word == b"replay".as_slice() {
        return Some(Command::Replay);
    }
    if word == b"order".as_slice() {
        return Some(Command::Order);
    }
    if word == b"verify".as_slice() {
        return Some(Command::Verify);
    }
    if word == b"help".as_slice() {
        return Some(Command::Help);
    }
    None
}
