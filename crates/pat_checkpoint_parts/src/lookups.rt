// A program with the types that its derivation gives.
ghost use Rattle.std.specs.Prelude.{◌≡◌, map, reverse, option_copied, option_map, List, [], ◌∷◌, IfOk, IfSome, IfNone};
ghost use Rattle.pat_semantics_spec.specs.WellFormed.{WellFormed};
ghost use Rattle.pat_type_system_spec.specs.Holdings.{wanted as wanted_by};
ghost use Rattle.pat_type_schemes_spec.specs.NodeTypes.{need_of};
ghost use Rattle.pat_core.specs.Views.{program_view};
ghost use Rattle.pat_types.specs.Views.{needs_view};
ghost use Rattle.pat_reduce.specs.declared.threads.state.Frame.{Frame as CodeFrame};
ghost use Rattle.pat_reduce.specs.threads.ThreadViews.{frame_view};
ghost use Rattle.pat_checkpoint_spec.specs.Kinds.{let_with};
ghost use Rattle.pat_checkpoint_parts.specs.Tables.{binding_view, type_or_unit};
ghost use Rattle.pat_checkpoint_parts.specs.Typed.{program_in, typing_in};

use crate::lets::{Binding, lets_of};
use crate::typing::Typing;
use pat_core::Program;
use pat_derivations::Derivation;
use pat_reduce::Frame;
use pat_types::{MailboxType, TypeOf};
use std::alloc::{AllocError, Global};

impl<'a> Typing<'a> {
    /// Finds the lets.
    pub fn new(
        alloc: Global,
        program: &'a Program,
        derivation: &'a Derivation,
    ) -> Result<Self, AllocError>
        requires { WellFormed (program_view program.now) }
        ensures program { IfOk result (λ typing. typing.program.now ≡ program.now) }
        ensures derivation { IfOk result (λ typing. typing.derivation.now ≡ derivation.now) }
    {
        let lets = lets_of(alloc, program)?;
        Ok(Typing {
            program,
            derivation,
            lets,
        })
    }

    /// The type of the node, if it has a line; otherwise it has that of `()`.
    pub fn type_of(&self, node: u32) -> Option<&'a TypeOf>
        ensures { type_or_unit (option_copied result) ≡ (typing_in self.now).results node }
    {
        match self.derivation.nodes.as_slice().get(node as usize) {
            None => None,
            Some(line) => Some(&line.of.result),
        }
    }

    /// The types of the variables that the node needs, if it has a line.
    pub fn needs_of(&self, node: u32) -> &'a [(u32, MailboxType)]
        ensures { need_of (needs_view result.now) ≡ (typing_in self.now).envs node }
    {
        match self.derivation.nodes.as_slice().get(node as usize) {
            None => &[],
            Some(line) => line.of.env.as_slice(),
        }
    }

    /// The binding of the `let` whose body this is, if it is that of one.
    pub fn let_of(&self, body: u32) -> Option<Binding>
        ensures { option_map binding_view result ≡ let_with (program_in self.now).nodes body }
    {
        match self.lets.as_slice().get(body as usize) {
            None => None,
            Some(binding) => *binding,
        }
    }

    /// What the frames, from the last one up, want of what is above them: the type of what the uppermost one's `let` binds.
    pub fn wanted(&self, frames: &[Frame]) -> Option<&'a TypeOf>
        ensures { type_or_unit (option_copied result)
            ≡ wanted_by (program_in self.now) (typing_in self.now) (map frame_view (reverse frames.now)) }
    {
        match top_of(frames) {
            None => None,
            Some(frame) => match self.let_of(frame.body) {
                None => None,
                Some(binding) => self.type_of(binding.bound),
            },
        }
    }
}

/// The uppermost of the frames, which stand from the last one up.
fn top_of(frames: &[Frame]) -> Option<&Frame>
    ensures some { IfSome result (λ frame. (rest : List CodeFrame) × (reverse frames.now ≡ frame.now ∷ rest)) }
    ensures none { IfNone result (frames.now ≡ []) }
{
    frames.last()
}
