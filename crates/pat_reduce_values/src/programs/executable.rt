// Programs with the free variables of their nodes.
ghost use Rattle.std.specs.Prelude.{◌≡◌, ◌<◌, ℕ, IsTrue, IfOk};
ghost use Rattle.pat_semantics_laws.specs.Programs.{core_at, is_among, is_free, option_uses};
ghost use Rattle.pat_semantics_laws.specs.WellFormed.{WellFormed};
ghost use Rattle.pat_core.specs.Views.{program_view};
ghost use Rattle.pat_reduce_values.specs.programs.FreeVariables.{is_listed};
ghost use Rattle.pat_limits.specs.Limits.{number_count};

use crate::programs::free_variables::list_free;
use crate::programs::{AtHand, Variables};
use pat_core::Program;
use pat_sequences::Sequence;
use std::alloc::{AllocError, Global};

/// A program with the free variables of its nodes, each once, which each step looks up.
#[derive(Drop)]
pub struct Executable {
    pub program: Program,
    free: Sequence<Variables>,
    ghost listed: { (x n : ℕ) → is_listed free n x ≡ is_free (program_view program) x n },
    ghost parts: { (x n : ℕ) → is_free (program_view program) x n ≡ option_uses (λ k. is_free (program_view program) x k) x (core_at (program_view program) n) },
    ghost small: { (x n : ℕ) → IsTrue (is_free (program_view program) x n) → x < number_count },
}

impl Executable {
    /// Lists the free variables of each node.
    pub fn new(alloc: Global, program: Program) -> Result<Self, AllocError>
        requires { WellFormed (program_view program) }
        ensures { IfOk result (λ x. x.program ≡ program) }
    {
        let free = list_free(alloc, &program)?;
        Ok(Executable { program, free })
    }

    /// Whether the variable is free in the node. A number past the last node has no free variable.
    pub fn is_free(&self, variable: u32, node: u32) -> bool
        ensures { result ≡ is_free (program_view self.now.program) variable node }
    {
        self.free_in(node).contains(variable)
    }

    /// The variables that are free in the node.
    pub(crate) fn free_in(&self, node: u32) -> AtHand<'_>
        ensures { (x : ℕ) → is_among x result.listed.now ≡ is_free (program_view self.now.program) x node }
    {
        match self.free.as_slice().get(node as usize) {
            Some(variables) => variables.at_hand(),
            None => AtHand::none(),
        }
    }
}
