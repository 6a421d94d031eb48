// Walks along links.
ghost use Rattle.std.specs.Prelude.{◌≡◌, ℕ, ◌<◌, length, slice_index};
ghost use Rattle.pat_mailboxes.specs.queues.Nodes.{path, AreBelow};

/// The node at a place of the chain that begins with `first` and has `len` nodes.
pub(crate) fn node_at(links: &[u32], first: u32, len: u32, place: u32) -> u32
    requires there { place < len }
    requires below { AreBelow (length links.now) (path links.now len first) }
    ensures { result ≡ slice_index (path links.now len first) place }
{
    let mut node = first;
    for _ in 0..place {
        node = links[node as usize];
    }
    node
}
