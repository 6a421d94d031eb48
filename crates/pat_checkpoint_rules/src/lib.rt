//! The rules that a checkpoint may break, and their names.
#![tactic(auto)]

ghost use Rattle.std.specs.Prelude.{◌≡◌};
ghost use Rattle.pat_checkpoint_rules.specs.Names.{rule_name};

/// A rule of checkpoints. `Numbers` is looked at first, and `Balance` last.
#[derive(Clone, Copy, Debug, PartialEq, Eq)]
pub enum CheckRule {
    /// Numbers ascend, and what is referred to is live.
    Numbers,
    /// Each part has the values that its node needs, and gives what the next one wants.
    Kinds,
    /// Different names are different mailboxes.
    Distinct,
    /// What may be returned is in no later part.
    Order,
    /// One place receives from each mailbox.
    Holder,
    /// Messages are as they are declared.
    Messages,
    /// What is pending with what may be sent is in what is expected.
    Balance,
}

impl CheckRule {
    /// The rule's name.
    pub fn name(&self) -> &'static [u8]
        ensures { result.now ≡ rule_name self.now }
    {
        match self {
            CheckRule::Numbers => b"Numbers",
            CheckRule::Kinds => b"Kinds",
            CheckRule::Distinct => b"Distinct",
            CheckRule::Order => b"Order",
            CheckRule::Holder => b"Holder",
            CheckRule::Messages => b"Messages",
            CheckRule::Balance => b"Balance",
        }
    }
}
