// What certificates are made with.
use pat_core::Program;
use pat_derivations::Derivation;
use pat_patterns::Pattern;

/// A program with values of its variables, and what is made of these once for all inclusions.
#[derive(Clone, Copy)]
pub struct Solved<'a> {
    pub program: &'a Program,
    /// It has the values.
    pub derivation: &'a Derivation,
    /// For each interface the bound of the grids that are its values, or none where these are patterns.
    pub bounds: &'a [Option<u32>],
    /// For each number of a variable, from 0: its value where that is a pattern, and otherwise the variable.
    pub plain: &'a [Pattern],
}
