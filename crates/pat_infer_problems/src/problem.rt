// A problem: the constraints of a program, what their variables are, and the types of nodes in which these stand.
ghost use Rattle.std.specs.Prelude.{◌≡◌};

use pat_patterns::Pattern;
use pat_primitives::Polarity;
use pat_sequences::Sequence;
use pat_syntax::Span;
use pat_types::{NodeType, Right};

/// A variable of patterns: the number of its interface, its polarity, and where it arises: at a written type without a
/// pattern, or at a term.
#[derive(Clone, Copy, Debug)]
pub struct VarDecl {
    pub interface: u32,
    pub polarity: Polarity,
    pub span: Span,
}

/// An inclusion that is to hold: each word of the left pattern is one of the right side. Both are of one interface.
#[derive(Drop)]
pub struct Constraint {
    pub interface: u32,
    pub left: Pattern,
    pub right: Right,
    pub span: Span,
}

/// The variables of patterns, numbered from 1; the constraints in order; and the type of each node, in order of number.
pub struct Problem {
    pub vars: Sequence<VarDecl>,
    pub constraints: Sequence<Constraint>,
    pub nodes: Sequence<NodeType>,
}

impl Problem {
    /// The types of the nodes alone.
    pub fn into_nodes(self) -> Sequence<NodeType>
        ensures { result ≡ self.nodes }
    {
        let Problem {
            vars: _,
            constraints: _,
            nodes,
        } = self;
        nodes
    }
}

impl Drop for Problem {
    fn drop(self) {
        let Problem {
            vars: _,
            constraints: _,
            nodes: _,
        } = self;
    }
}
