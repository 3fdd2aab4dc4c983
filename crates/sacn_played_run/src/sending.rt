//! What is due by the machine's clock.

ghost use Rattle.std.specs.Prelude.{◌≡◌, ◌≤◌, ◌<◌, ◌∷◌, [], ℕ, length, take, Some, None, is_some};
ghost use Rattle.sacn_packets.specs.PacketReading.{reading_packet};
ghost use Rattle.sacn_source.specs.Source.{due, at};
ghost use Rattle.sacn_played_source.specs.Played.{after_poll};
ghost use Rattle.sacn_edge.specs.Hearings.{Hands};
ghost use Rattle.sacn_edge.specs.ConsoleSends.{Handed, datagrams, handed_of};
ghost use Rattle.sacn_desk.specs.Groups.{universe_read};
ghost use Rattle.sacn_desk.specs.declared.limits.TheConstants.{MAX_POLLS};
ghost use Rattle.sacn_played_run.specs.Calls.{after, given_by, polled, polls};

use sacn_console::DueDatagram;
use sacn_console::limits::MAX_DATAGRAM;
use sacn_desk::limits::MAX_POLLS;
use sacn_desk::{DeskDatagram, DeskLink};
use sacn_played_source::PlayedSource;

/// Hands over the front of these octets.
fn hand<L: DeskLink>(link: &mut L, octets: &[u8; MAX_DATAGRAM], given: DueDatagram) -> bool
    requires len { given.len ≤ MAX_DATAGRAM }
    requires read { universe_read (reading_packet (take given.len octets.now))
        ≡ Some given.universe }
    ensures { Hands (L.told link.old) (L.told link.new)
        ((take given.len octets.now, result) ∷ []) }
{
    link.hand_over(&DeskDatagram::new(&octets[..given.len], given.universe))
}

/// Sends the datagram that is due. Returns whether the link took it; None where nothing is due.
fn send<L: DeskLink>(
    link: &mut L,
    source: &mut PlayedSource,
    now: u64,
    octets: &mut [u8; MAX_DATAGRAM],
) -> Option<bool>
    ensures due { is_some result ≡ is_some (due (at now source.old.source)) }
    ensures link { Hands (L.told link.old) (L.told link.new)
        (handed_of (polled now source.old) result) }
    ensures source { source.new ≡ after_poll now source.old }
{
    match source.poll(now, octets) {
        Some(given) => Some(hand(link, octets, given)),
        None => None,
    }
}

/// Sends what is due at a reading of the clock, until nothing is. It polls at least once.
pub(crate) fn send_due<L: DeskLink>(link: &mut L, source: &mut PlayedSource, now: u64)
    ensures { (n : ℕ) × (handed : Handed)
        × (0 < n) × (n ≤ MAX_POLLS)
        × Hands (L.told link.old) (L.told link.new) handed
        × (datagrams handed ≡ given_by (polls now n) source.old)
        × (source.new ≡ after (polls now n) source.old)
        × (n < MAX_POLLS → due source.new.source ≡ None) }
{
    let mut octets = [0; MAX_DATAGRAM];
    for _count in 0..MAX_POLLS {
        let sent = send(link, source, now, &mut octets);
        if sent.is_none() {
            return;
        }
    }
}
