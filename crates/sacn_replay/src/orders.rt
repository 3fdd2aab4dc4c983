//! Where the orders of a player come from.

ghost use Rattle.std.specs.Prelude.{List, [], ◌∷◌, None, Option};
ghost use Rattle.sacn_edge.specs.Additions.{Extends};
ghost use Rattle.sacn_replay.specs.Talks.{Talk, Waited, Rested, Asked, Looked, EndAsked};

use crate::replay::ReplayCore;
use crate::speed::Speed;

/// What a player is told to do.
#[derive(Clone, Copy, Debug, PartialEq, Eq)]
pub enum PlayOrder {
    /// The playback stays at the moment that is played.
    Pause,
    /// It goes on.
    Go,
    /// It goes on at this speed.
    SetSpeed(Speed),
    /// It plays this moment of the recording, in milliseconds since its first record.
    Seek(u64),
}

/// Where a player's orders come from.
pub trait PlayOrders {
    /// What was asked and said so far, where it tells that. A device of the machine tells nothing.
    ghost told: { Self → Option (List Talk) } = { λ _. None };

    /// Waits until an order may be there, or until its clock reads this moment, whichever comes first. It may come back before.
    fn wait(&mut self, until: u64)
        ensures told { Extends (told self.old) (told self.new) (Waited until ∷ []) };

    /// Waits until its clock reads this moment, whatever orders are there. It may come back before.
    fn rest(&mut self, until: u64)
        ensures told { Extends (told self.old) (told self.new) (Rested until ∷ []) };

    /// The next order that is there at this reading, without waiting.
    fn next(&mut self, now: u64) -> Option<PlayOrder>
        ensures told { Extends (told self.old) (told self.new) (Asked now result ∷ []) };

    /// Looks at the player once a round has sent what was due.
    fn look(&mut self, core: &ReplayCore)
        ensures told { Extends (told self.old) (told self.new) (Looked core.now ∷ []) };

    /// Whether no order will come any more, so that the playback ends.
    fn has_ended(&mut self) -> bool
        ensures told { Extends (told self.old) (told self.new) (EndAsked result ∷ []) };
}
