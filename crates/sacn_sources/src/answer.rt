//! What became of a packet.

ghost use Rattle.std.specs.Prelude.{◌≡◌};
ghost use Rattle.sacn_sources.specs.Rows.{renews};

/// What became of a packet (E1.31, 6.7; the rows of the profile's source table).
#[derive(Clone, Copy, PartialEq, Eq)]
pub enum Taken {
    /// A live packet of a known source, or of a new one with room for it. It is shown, and its source renewed.
    Held,
    /// A preview or another start code of a known source. Its number alone counts: nothing is shown, nothing renewed.
    Observed,
    /// A termination of a known source. The source is renewed, and shows nothing.
    EndedNow,
    /// A known source's packet that is out of sequence (E1.31, 6.7.2). Nothing changes.
    OutOfSequence,
    /// A live packet of a new source while the table is full (E1.31, 6.2.3.3). Nothing changes.
    SourcesExceeded,
    /// A termination, a preview or another start code of a source that is not held. Nothing changes.
    UnknownIgnored,
}

impl Taken {
    /// Whether the packet renewed its source: a live packet that is held, or a termination.
    pub fn renews(self) -> bool
        ensures { result ≡ renews self }
    {
        match self {
            Taken::Held => true,
            Taken::EndedNow => true,
            Taken::Observed => false,
            Taken::OutOfSequence => false,
            Taken::SourcesExceeded => false,
            Taken::UnknownIgnored => false,
        }
    }
}
