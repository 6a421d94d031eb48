// What certificates are found with.
use pat_core::Program;
use pat_derivations::Derivation;
use pat_patterns::Pattern;

/// A program and a derivation, and what is made of them once for all lines.
#[derive(Clone, Copy)]
pub struct Search<'a> {
    pub program: &'a Program,
    pub derivation: &'a Derivation,
    /// For each number of a variable, from 0: its value where that is a pattern, and otherwise the variable.
    pub plain: &'a [Pattern],
    /// For each interface the bound of its grids, if it is in bounds.
    pub bounds: &'a [Option<u32>],
    /// For each node the bound part of the first `let` whose body it is, if there is one.
    pub lets: &'a [Option<u32>],
}
