//! Where the records of a recording come from.

ghost use Rattle.std.specs.Prelude.{◌≡◌, None, Option, IfSome};
ghost use Rattle.std.specs.Option.{option_map};
ghost use Rattle.sacn_replay.specs.Reels.{Reel, next_moment, next_octets, passed, at_first};

/// A recording that is read record by record.
pub trait RecordReader {
    /// What it holds, and what of it is left, where it tells that. A file of the machine tells nothing.
    ghost told: { Self → Option Reel } = { λ _. None };

    /// The moment of the next record, in milliseconds since the recording's first; the same one until `pass` or `rewind`. None where
    /// there is no further one.
    fn moment(&mut self) -> Option<u64>
        ensures told { told self.new ≡ told self.old }
        ensures next { IfSome (told self.old) (λ reel. result ≡ next_moment reel.left) };

    /// The octets of that record's datagram, as they are to go out; empty where there is no further one.
    fn octets(&self) -> &[u8]
        ensures next { IfSome (told self.now) (λ reel. result.now ≡ next_octets reel.left) };

    /// The one behind it is next.
    fn pass(&mut self)
        ensures told { told self.new ≡ option_map passed (told self.old) };

    /// The first record is next.
    fn rewind(&mut self)
        ensures told { told self.new ≡ option_map at_first (told self.old) };
}
