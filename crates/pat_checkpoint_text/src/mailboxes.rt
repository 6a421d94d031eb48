// Lines of mailboxes, and the interfaces of those that have one.
ghost use Rattle.std.specs.Prelude.{◌≡◌, ◌<◌, length};
ghost use Rattle.pat_checkpoint_data.specs.Views.{end_view};
ghost use Rattle.pat_checkpoint_spec.specs.text.CheckpointText.{interface_in};
ghost use Rattle.pat_checkpoint_spec.specs.text.LineReading as reading;
ghost use Rattle.pat_checkpoint_spec.specs.text.Lines.{Lines};
ghost use Rattle.pat_checkpoint_text.specs.Gathered.{Gathers};
ghost use Rattle.pat_checkpoint_text.specs.Views.{mailbox_view};
ghost use Rattle.pat_core.specs.Views.{program_view};
ghost use Rattle.pat_derivation_lines.specs.patterns.Answers.{Gives};
ghost use Rattle.pat_limits.specs.Limits.{number_count};

use crate::heads::with_cert;
use pat_checkpoint_data::Checkpoint;
use pat_core::Program;
use pat_derivation_lines::{Unread, find_interface, number_of};
use pat_derivations::Cert;
use pat_texts::cut;
use std::alloc::Global;

/// A live mailbox with its interface, and the certificate of its balance.
#[derive(Drop)]
pub struct MailboxLine {
    pub number: u32,
    pub interface: u32,
    pub cert: Option<Cert>,
}

/// The mailbox of this number, by the name of its interface, with its certificate.
fn mailbox_named(
    program: &Program,
    number: u32,
    name: &[u8],
    cert: Option<Cert>,
) -> Result<MailboxLine, Unread>
    requires { length program.now.interfaces < number_count }
    ensures { Gives mailbox_view (reading.mailbox_named (program_view program.now) number (name.now, end_view cert)) result }
{
    match find_interface(program, name) {
        Some((interface, _)) => Ok(MailboxLine {
            number,
            interface,
            cert,
        }),
        None => Err(Unread::NotSpelled),
    }
}

/// A mailbox, behind its word.
pub fn read_mailbox(alloc: Global, program: &Program, text: &[u8]) -> Result<MailboxLine, Unread>
    requires { length program.now.interfaces < number_count }
    ensures { Gives mailbox_view (reading.read_mailbox (program_view program.now) text.now) result }
{
    match cut(text, b' ') {
        Some((own, more)) => {
            let number = number_of(own)?;
            let (name, cert) = with_cert(alloc, more, cut(more, b' '))?;
            mailbox_named(program, number, name, cert)
        }
        None => Err(Unread::NotSpelled),
    }
}

/// The interface of a mailbox that has a line, found by halving.
pub fn interface_of(x: &Checkpoint, mailbox: u32) -> Option<u32>
    ensures { (lines : Lines) → Gathers lines x.now → result ≡ interface_in lines.mailboxes mailbox }
{
    match x.config.live.as_slice().binary_search(&mailbox) {
        Ok(place) => match x.interfaces.as_slice().get(place) {
            Some(interface) => Some(*interface),
            None => None,
        },
        Err(_) => None,
    }
}
