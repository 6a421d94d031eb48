// Derivations: their data.
ghost use Rattle.std.specs.Prelude.{◌≡◌};

use pat_bags::Bag;
use pat_cover_certificates::CoverEntry;
use pat_patterns::Pattern;
use pat_sequences::Sequence;
use pat_types::NodeType;

/// What shows an inclusion: a direct cover of closed forms, or the bound of a grid.
#[derive(Drop)]
pub enum Cert {
    Cover(Sequence<CoverEntry>),
    Grid(u32),
}

/// The value of a pattern variable: a pattern without variables, or the words that are cut at `k` to one of the points.
#[derive(Drop)]
pub enum VarValue {
    Pattern(Pattern),
    Grid { k: u32, points: Sequence<Bag> },
}

/// What stands at a node: its type, those of the variables that it names, and the certificates of the inclusions that it needs.
#[derive(Drop)]
pub struct DerivedNode {
    pub of: NodeType,
    pub certs: Sequence<Cert>,
}

/// A derivation of a program: an interface and a value for each pattern variable, the variables of signatures first, numbered
/// from 1; and what stands at each node, numbered from 0.
pub struct Derivation {
    pub vars: Sequence<(u32, VarValue)>,
    pub nodes: Sequence<DerivedNode>,
}

impl Derivation {
    /// The values and what stands at the nodes.
    pub fn into_parts(self) -> (Sequence<(u32, VarValue)>, Sequence<DerivedNode>)
        ensures vars { result.0 ≡ self.vars }
        ensures nodes { result.1 ≡ self.nodes }
    {
        let Derivation { vars, nodes } = self;
        (vars, nodes)
    }
}

impl Drop for Derivation {
    fn drop(self) {
        let Derivation { vars: _, nodes: _ } = self;
    }
}
