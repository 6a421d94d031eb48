// Checkpoints: their data.
ghost use Rattle.std.specs.Prelude.{◌≡◌};

use crate::part_certs::PartCerts;
use pat_derivations::Cert;
use pat_reduce::Config;
use pat_sequences::Sequence;

/// A configuration with evidence that it is typed: in its order the interface of each live mailbox, a certificate for each balance
/// that needs one, and for each thread those of its parts.
pub struct Checkpoint {
    pub config: Config,
    pub interfaces: Sequence<u32>,
    pub mailbox_certs: Sequence<Option<Cert>>,
    pub part_certs: Sequence<PartCerts>,
}

impl Checkpoint {
    /// The configuration, the interfaces of its mailboxes, and the certificates of mailboxes and of threads.
    pub fn into_parts(
        self,
    ) -> (
        Config,
        Sequence<u32>,
        Sequence<Option<Cert>>,
        Sequence<PartCerts>,
    )
        ensures config { result.0 ≡ self.config }
        ensures interfaces { result.1 ≡ self.interfaces }
        ensures mailbox_certs { result.2 ≡ self.mailbox_certs }
        ensures part_certs { result.3 ≡ self.part_certs }
    {
        let Checkpoint {
            config,
            interfaces,
            mailbox_certs,
            part_certs,
        } = self;
        (config, interfaces, mailbox_certs, part_certs)
    }
}

// By hand, field by field: a derived drop is proved anew in each crate that may drop the value.
impl Drop for Checkpoint {
    fn drop(self) {
        let Checkpoint {
            config: _,
            interfaces: _,
            mailbox_certs: _,
            part_certs: _,
        } = self;
    }
}
