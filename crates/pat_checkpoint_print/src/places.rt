// Names of interfaces and of tags.
ghost use Rattle.std.specs.Prelude.{◌≡◌, [], List, Option, Some, length, map, slice_index_or};
ghost use Rattle.pat_core.specs.Views.{program_view};
ghost use Rattle.pat_inclusion_spec.specs.Certificates.{Cert};
ghost use Rattle.pat_semantics_spec.specs.Orders.{AscendsFrom};
ghost use Rattle.pat_derivation_text_spec.specs.DerivationText.{interface_name};
ghost use Rattle.pat_checkpoint_spec.specs.text.Lines.{mailbox_lines};
ghost use Rattle.pat_checkpoint_spec.specs.text.CheckpointText.{interface_in, tag_name};

use pat_core::{Interface, Program};

/// The name of an interface, and nothing where there is none.
pub fn name_of_interface(program: &Program, interface: u32) -> &[u8]
    ensures { result.now ≡ interface_name (program_view program.now) interface }
{
    match program.interfaces.as_slice().get(interface as usize) {
        Some(own) => own.name.as_bytes(),
        None => b"",
    }
}

fn name_within(interface: &Interface, tag: u8) -> &[u8]
    ensures { result.now ≡ slice_index_or (map (λ t. t.name) interface.now.tags) tag [] }
{
    match interface.tags.as_slice().get(usize::from(tag)) {
        Some(own) => own.name.as_bytes(),
        None => b"",
    }
}

/// The name of a tag of an interface, and nothing where there is none.
fn name_of_tag(program: &Program, interface: u32, tag: u8) -> &[u8]
    ensures { result.now ≡ tag_name (program_view program.now) (Some interface) tag }
{
    let interfaces = program.interfaces.as_slice();
    let place = interface as usize;
    if place < interfaces.len() {
        name_within(&interfaces[place], tag)
    } else {
        b""
    }
}

/// The interface of a mailbox among those that are live, which ascend, so it is looked for by halves.
fn interface_of(live: &[u32], interfaces: &[u32], mailbox: u32) -> Option<u32>
    requires order { AscendsFrom 0 live.now }
    requires as_many { length interfaces.now ≡ length live.now }
    ensures { (certs : List (Option Cert)) → length certs ≡ length live.now
        → result ≡ interface_in (mailbox_lines live.now interfaces.now certs) mailbox }
{
    match live.binary_search(&mailbox) {
        Ok(place) => Some(interfaces[place]),
        Err(_) => None,
    }
}

/// The name of a tag of a mailbox's interface.
pub fn tag_in<'a>(
    program: &'a Program,
    live: &[u32],
    interfaces: &[u32],
    mailbox: u32,
    tag: u8,
) -> &'a [u8]
    requires order { AscendsFrom 0 live.now }
    requires as_many { length interfaces.now ≡ length live.now }
    ensures { (certs : List (Option Cert)) → length certs ≡ length live.now
        → result.now ≡ tag_name (program_view program.now) (interface_in (mailbox_lines live.now interfaces.now certs) mailbox) tag }
{
    match interface_of(live, interfaces, mailbox) {
        Some(interface) => name_of_tag(program, interface, tag),
        None => b"",
    }
}
