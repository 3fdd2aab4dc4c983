//! By which numbers the packets of a source come, over all its universes.

ghost use Rattle.std.specs.Prelude.{◌≡◌};
ghost use Rattle.sacn_audit.specs.Counters.{counts_on, first_numbers, has_one_counter, numbers_after};

use crate::limits::COUNTED_ON;
use crate::number_habits::number_after;
use sacn_packets::DataView;

/// By which numbers the packets of a source come, over all its universes.
#[derive(Clone, Copy, PartialEq, Eq)]
pub struct SourceNumbers {
    /// The universe of the latest packet, 1 to 63999 (E1.31, 6.2.7).
    pub universe: u16,
    /// Its sequence number (E1.31, 6.2.5).
    pub number: u8,
    /// So many packets in a row are each on another universe than the packet before it and have the number after that one's: 8 for
    /// eight or more.
    pub counted_on: u8,
}

impl SourceNumbers {
    /// Those of a first packet.
    pub(crate) fn first(packet: &DataView<'_>) -> Self
        ensures { result ≡ first_numbers packet.now }
    {
        SourceNumbers {
            universe: packet.universe(),
            number: packet.number(),
            counted_on: 0,
        }
    }

    /// Those of a packet more, after those before it, where there are any.
    pub(crate) fn after(earlier: Option<Self>, packet: &DataView<'_>) -> Self
        ensures { result ≡ numbers_after packet.now earlier }
    {
        let Some(earlier) = earlier else {
            return SourceNumbers::first(packet);
        };
        let counted_on = if earlier.counts_on(packet) {
            earlier.counted_on.saturating_add(1).min(COUNTED_ON)
        } else {
            0
        };
        SourceNumbers {
            universe: packet.universe(),
            number: packet.number(),
            counted_on,
        }
    }

    /// Whether so many packets in a row count on that the universes have one counter.
    pub(crate) fn has_one_counter(self) -> bool
        ensures { result ≡ has_one_counter self }
    {
        self.counted_on == COUNTED_ON
    }

    // Whether a packet is on another universe than the latest one, and has the number after that one's.
    fn counts_on(self, packet: &DataView<'_>) -> bool
        ensures { result ≡ counts_on packet.now self }
    {
        (packet.universe() != self.universe) & (packet.number() == number_after(self.number))
    }
}
