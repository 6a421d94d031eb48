// How far a source was read.
ghost use Rattle.std.specs.Prelude.{◌≡◌};
ghost use Rattle.pat_ports.specs.Ends.{reach_after};

/// Whether a source was read to its end, or past it.
#[derive(Clone, Copy, Debug, PartialEq, Eq)]
pub enum Reach {
    /// No read was answered the end so far.
    Before,
    /// The last read was the first that was answered the end.
    AtEnd,
    /// There were reads after the end.
    Past,
}

impl Reach {
    /// After one read more, which was answered the end or not.
    pub fn after(self, is_end: bool) -> Reach
        ensures { result ≡ reach_after self is_end }
    {
        match self {
            Reach::Before if is_end => Reach::AtEnd,
            Reach::Before => Reach::Before,
            Reach::AtEnd | Reach::Past => Reach::Past,
        }
    }
}
