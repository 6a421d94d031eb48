// Programs that may run.
ghost use Rattle.std.specs.Prelude.{◌≡◌};
ghost use Rattle.pat_semantics_spec.specs.WellFormed.{WellFormed};
ghost use Rattle.pat_type_system_spec.specs.Typings.{IsTypable};
ghost use Rattle.pat_core.specs.Views.{program_view};

use pat_core::Program;
use std::marker::Model;

/// A well-formed program that can be typed.
#[derive(Drop)]
pub struct Accepted {
    program: Program,
}

impl Model for Accepted {
    ghost use Rattle.pat_core.specs.declared.program.Program.{Program};
    ghost use Rattle.pat_semantics_spec.specs.WellFormed.{WellFormed};
    ghost use Rattle.pat_type_system_spec.specs.Typings.{IsTypable};
    ghost use Rattle.pat_core.specs.Views.{program_view};
    ghost use Rattle.std.specs.Coded.{codes};
    ghost use Rattle.pat_patterns.specs.contracts.pattern.Pattern as the_pattern;
    ghost use Rattle.pat_core.specs.contracts.expression.Expr as the_expression;

    ghost Value = { Program };

    ghost coded = { Prim.hlevel (codes, the_pattern.the_row.coded, the_expression.the_row.coded) };

    ghost view = { λ a. a.program };

    ghost invariant = { λ a. WellFormed (program_view a.program) × IsTypable (program_view a.program) };
}

impl Accepted {
    /// A program that can be typed. It takes no memory.
    pub fn of(program: Program) -> Accepted
        requires well { WellFormed (program_view program) }
        requires typable { IsTypable (program_view program) }
        ensures { result ≡ program }
    {
        Accepted { program }
    }

    /// The program.
    pub fn program(&self) -> &Program
        ensures { result.now ≡ self.now }
    {
        &self.program
    }

    /// The program. It takes no memory.
    pub fn into_program(self) -> Program
        ensures program { result ≡ self }
        ensures well { WellFormed (program_view self) }
        ensures typable { IsTypable (program_view self) }
    {
        self.program
    }
}
