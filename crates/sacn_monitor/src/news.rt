//! What a datagram tells that is new.

ghost use Rattle.std.specs.Prelude.{◌≡◌};
ghost use Rattle.sacn_monitor.specs.Accounts.{quiet};

use sacn_packets::PacketFault;

/// What a packet says of its source on its universe.
#[derive(Clone, Copy, Debug, PartialEq, Eq)]
pub enum StreamEvent {
    /// It goes on; or it ends a stream that isn't there, since none began, or that had ended or was lost: nothing is new.
    GoesOn,
    /// None but ends of streams were heard of it there before.
    Appeared,
    /// It had ended, or was lost, and sends again.
    CameBack,
    /// It sends, and says that it ends its stream (E1.31, 6.2.6).
    Ended,
    /// The packet comes out of sequence, and is discarded (E1.31, 6.7.2).
    OutOfSequence,
    /// The packet has the number of the latest one that was taken, and is discarded (E1.31, 6.7.2).
    Repeated,
}

/// A priority in place of another (E1.31, 6.2.3).
#[derive(Clone, Copy, Debug, PartialEq, Eq)]
pub struct Change {
    pub from: u8,
    pub to: u8,
}

/// All that a data packet tells that is new. A discarded packet tells its event alone.
#[derive(Clone, Copy, Debug, PartialEq, Eq)]
pub struct News {
    pub event: StreamEvent,
    /// The sequence numbers that were skipped: so many packets are missing. One that the source is known to leave out isn't counted.
    pub skipped: u8,
    /// The sequence numbers go back, by twenty or more or where a node holds nothing of the source: they begin anew (E1.31, 6.7.2).
    pub began_anew: bool,
    /// The number that the source leaves out at each turn of its numbers, where it is known to from this packet on.
    pub leaves_out: Option<u8>,
    pub priority: Option<Change>,
    /// The source has another name than before (E1.31, 6.2.2).
    pub renamed: bool,
    /// The packet comes from another address or port than the one before.
    pub moved: bool,
    /// The source lights the universe from now on, lights it at another priority, or lights it no more; or that was so between the
    /// packet before and this one.
    pub relit: bool,
}

impl News {
    /// The news of a packet that tells its event alone.
    pub(crate) fn quiet(event: StreamEvent) -> Self
        ensures { result ≡ quiet event }
    {
        News {
            event,
            skipped: 0,
            began_anew: false,
            leaves_out: None,
            priority: None,
            renamed: false,
            moved: false,
            relit: false,
        }
    }
}

/// What was noted of a datagram.
#[derive(Clone, Copy, Debug, PartialEq, Eq)]
pub enum Noted {
    /// It is no packet of the standard.
    Refused(PacketFault),
    /// A page of universe discovery (E1.31, 8).
    Page,
    /// A synchronization packet (E1.31, 6.3), whose content isn't looked at.
    Sync,
    /// A data packet of a pair for which there is no room.
    Untracked,
    /// A data packet of the stream at this place.
    Heard(usize, News),
}
