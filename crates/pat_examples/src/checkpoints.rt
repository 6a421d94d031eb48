// Checkpoints that break no rule, and for each rule one that breaks it first. No code of the product.
ghost use Rattle.std.specs.Prelude.{◌≡◌, [], ◌∷◌, Some, None};
ghost use Rattle.pat_semantics_spec.specs.Configs.{start};
ghost use Rattle.pat_semantics_spec.specs.Runs.{EndDone, replay_from, outcome};
ghost use Rattle.pat_inclusion_spec.specs.Certificates.{CoverCert, GridCert};
ghost use Rattle.pat_examples.specs.safety.Safe.{one_message};
ghost use Rattle.pat_examples.specs.derivations.Derivations.{one_message_derived};
ghost use Rattle.pat_checkpoint_spec.specs.Checked.{NumbersRule, KindsRule, DistinctRule, OrderRule, HolderRule, MessagesRule, BalanceRule, broken_check};
ghost use Rattle.pat_checkpoint_spec.specs.Turns.{turns};
ghost use Rattle.pat_examples.specs.checkpoints.Checkpoints.{sent, low_number, other_kind, left_over, left_over_balance, in_itself, twice_there, no_receiver, foreign_tag, lost, ended, then_received};

/// The first rule that is broken.
pub fn checkpoints_examined()
    ensures sent { broken_check one_message one_message_derived sent ≡ None }
    ensures ended { broken_check one_message one_message_derived ended ≡ None }
    ensures numbers { broken_check one_message one_message_derived low_number ≡ Some NumbersRule }
    ensures kinds { broken_check one_message one_message_derived other_kind ≡ Some KindsRule }
    ensures certificate { broken_check one_message one_message_derived (left_over (GridCert 2)) ≡ Some KindsRule }
    ensures distinct { broken_check one_message one_message_derived in_itself ≡ Some DistinctRule }
    ensures order { broken_check one_message one_message_derived twice_there ≡ Some OrderRule }
    ensures holder { broken_check one_message one_message_derived no_receiver ≡ Some HolderRule }
    ensures messages { broken_check one_message one_message_derived foreign_tag ≡ Some MessagesRule }
    ensures balance { broken_check one_message one_message_derived lost ≡ Some BalanceRule }
    ensures trivial { broken_check one_message one_message_derived (left_over_balance (GridCert 2)) ≡ Some BalanceRule }
{}

/// What one worker does from a checkpoint, and that it is where the program comes to.
pub fn turns_taken()
    ensures on { turns one_message sent.config 100 ≡ then_received }
    ensures there { replay_from one_message (start one_message) (turns one_message (start one_message) 5) ≡ Some sent.config }
    ensures none { turns one_message ended.config 100 ≡ [] }
    ensures done { outcome one_message ended.config 0 100 None ≡ Some EndDone }
{}
