//! The rules that a derivation may break, and their names.
#![tactic(auto)]

ghost use Rattle.std.specs.Prelude.{◌≡◌};
ghost use Rattle.pat_derivation_rules.specs.Names.{rule_name};

// Rules of checkpoints are an enumeration of their own: each text breaks the one or the other.
/// A rule of derivations. `Shape` is looked at first, and `Cert` last.
#[derive(Clone, Copy, Debug, PartialEq, Eq)]
pub enum Rule {
    Shape,
    Empty,
    Alias,
    Use,
    Drop,
    Payload,
    Covers,
    Cert,
}

impl Rule {
    /// The rule's name.
    pub fn name(&self) -> &'static [u8]
        ensures { result.now ≡ rule_name self.now }
    {
        match self {
            Rule::Shape => b"Shape",
            Rule::Empty => b"Empty",
            Rule::Alias => b"Alias",
            Rule::Use => b"Use",
            Rule::Drop => b"Drop",
            Rule::Payload => b"Payload",
            Rule::Covers => b"Covers",
            Rule::Cert => b"Cert",
        }
    }
}
