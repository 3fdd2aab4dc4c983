//! What is known of one source on one universe.

ghost use Rattle.std.specs.Prelude.{◌≡◌, ◌≤◌, not, length, if◌then◌else◌};
ghost use Rattle.std.specs.Str.{bytes_eq};
ghost use Rattle.sacn_packets.specs.Naming.{padded};
ghost use Rattle.sacn_monitor.specs.declared.news.StreamEvent.TheVariants.{Appeared, CameBack};
ghost use Rattle.sacn_monitor.specs.Accounts.{same_sender, is_fresh, is_discarded, begins_apart, begins_life, lost_at, missing_at, after_found, numbering_at, renumbered, number_news, begins_anew, changed, first_event, has_begun, is_away, taken_event, discarded_event, fitted, name_of, IsFitted, taken_news, news_of, after_packet, after_taken, after_discarded, first_account};

use crate::holding::{Holding, lasts};
use crate::kinds::Kinds;
use crate::news::{Change, News, StreamEvent};
use crate::numbering::{
    NumberNews, Numbering, OPENING_STEP, digit, further, goes_back, is_missing,
};
use crate::rate::Rate;
use sacn_packets::{DataView, put};
use sacn_sources::{in_sequence, kind_of, signed_step};

/// Where a datagram came from.
#[derive(Clone, Copy, PartialEq, Eq)]
pub struct Endpoint {
    /// The IPv4 address.
    pub address: [u8; 4],
    /// The UDP port.
    pub port: u16,
}

/// What is known of one source on one universe. Moments are in milliseconds; each count stops at 2^64 - 1.
///
/// A packet is taken where it is in sequence after the latest taken one (E1.31, 6.7.2), where that was 2500 ms ago or
/// more (E1.31, 6.7.1), or where it has levels and a node holds nothing of its source; the others are discarded.
#[derive(Clone, Copy, PartialEq, Eq)]
pub struct Account {
    /// The sender of the latest taken packet.
    pub sender: Endpoint,
    /// The source's name in the latest taken packet (E1.31, 6.2.2): its octets, and NUL to the end.
    pub name: [u8; 64],
    /// The priority of the latest taken packet, 0 to 200.
    pub priority: u8,
    /// The moment of the first packet.
    pub first: u64,
    /// The moment of the latest taken packet.
    pub latest: u64,
    /// The sequence number of the latest taken packet.
    pub sequence_number: u8,
    /// Whether the latest taken packet ended the stream.
    pub ended: bool,
    /// The taken packets, by kind.
    pub kinds: Kinds,
    /// What a node holds of the source on the universe.
    pub holding: Holding,
    /// How the source numbers its packets.
    pub numbering: Numbering,
    /// The sequence numbers that taken packets skipped, and that didn't come late: packets lost on the way.
    pub skipped: u64,
    /// Which numbers behind the latest taken one were skipped and didn't come since: bit k is for the number k behind it.
    pub missing: u32,
    /// Discarded packets, out of sequence.
    pub late: u64,
    /// Discarded packets that had the number of the latest taken one.
    pub repeats: u64,
    /// The greatest time between a taken packet and the next one.
    pub greatest_gap: u64,
    /// The taken packets of the latest second with one, and of the one before it.
    pub rate: Rate,
}

impl Account {
    /// The account of a source whose first packet this is.
    #[tactic(auto, unfolding(crate::specs::Accounts::first_account))]
    pub(crate) fn begin(moment: u64, sender: Endpoint, packet: &DataView<'_>) -> Self
        ensures { result ≡ first_account moment sender packet.now }
    {
        let mut kinds = Kinds::none();
        let kind = kind_of(packet);
        kinds.count(kind);
        Account {
            sender,
            name: fitted(packet.name()),
            priority: packet.priority(),
            first: moment,
            latest: moment,
            sequence_number: packet.number(),
            ended: packet.terminated(),
            kinds,
            holding: Holding::Nothing.after(moment, kind, packet.priority()),
            numbering: Numbering::first(),
            skipped: 0,
            missing: 0,
            late: 0,
            repeats: 0,
            greatest_gap: 0,
            rate: Rate::begin(moment),
        }
    }

    /// A packet more. Returns what it tells that is new: one decision and one look at its name serve both.
    pub(crate) fn hear(&mut self, moment: u64, sender: Endpoint, packet: &DataView<'_>) -> News
        requires { IsFitted self.old.name }
        ensures news { result ≡ news_of moment sender packet.now self.old }
        ensures account { self.new ≡ after_packet moment sender packet.now self.old }
    {
        if self.discards(moment, packet) {
            return News::quiet(self.discard(packet.number()));
        }
        self.take(moment, sender, packet)
    }

    /// Whether the latest taken packet still counts: it came less than 2500 ms ago.
    pub(crate) fn is_fresh(&self, moment: u64) -> bool
        ensures { result ≡ is_fresh moment self.now }
    {
        lasts(moment, self.latest)
    }

    // Whether a packet is out of sequence, and a node holds nothing anew by it. Most packets are in sequence, and nothing more is asked
    // of these.
    fn discards(&self, moment: u64, packet: &DataView<'_>) -> bool
        ensures { result ≡ is_discarded moment packet.now self.now }
    {
        !in_sequence(self.sequence_number, packet.number())
            && self.is_fresh(moment)
            && !self.holding.is_begun_by(moment, kind_of(packet))
    }

    // The event of a taken packet. One that ends a stream that isn't there tells nothing.
    fn taken_event(&self, moment: u64, terminated: bool) -> StreamEvent
        ensures { result ≡ taken_event moment terminated self.now }
    {
        match (self.is_away(moment), terminated) {
            (true, true) => StreamEvent::GoesOn,
            (true, false) => self.arrival(),
            (false, true) => StreamEvent::Ended,
            (false, false) => StreamEvent::GoesOn,
        }
    }

    // Whether there is no stream of it: it has ended, or is lost.
    fn is_away(&self, moment: u64) -> bool
        ensures { result ≡ is_away moment self.now }
    {
        self.ended | !self.is_fresh(moment)
    }

    // The event of a packet that brings a stream where there is none.
    fn arrival(&self) -> StreamEvent
        ensures { result ≡ (if has_begun self.now then CameBack else Appeared) }
    {
        if self.has_begun() {
            StreamEvent::CameBack
        } else {
            StreamEvent::Appeared
        }
    }

    // Whether a packet was taken of it that isn't an end.
    fn has_begun(&self) -> bool
        ensures { result ≡ has_begun self.now }
    {
        (self.kinds.live > 0) | (self.kinds.previews > 0) | (self.kinds.others > 0)
    }

    // Whether a taken packet is the first of a stream: the one before was lost, or had ended.
    fn begins_life(&self, moment: u64, terminated: bool) -> bool
        ensures { result ≡ begins_life moment terminated self.now }
    {
        !self.is_fresh(moment) | (self.ended & !terminated)
    }

    // Whether a taken packet doesn't go on from the number before: that was lost, or ended a stream and lies so far behind that
    // another one more likely begins its numbers.
    fn begins_apart(&self, moment: u64, terminated: bool, arrived: u8) -> bool
        ensures { result ≡ begins_apart moment terminated arrived self.now }
    {
        let ahead = arrived.wrapping_sub(self.sequence_number);
        !self.is_fresh(moment) | (self.ended & !terminated & (ahead >= OPENING_STEP))
    }

    // The packets that were lost before a taken one.
    fn lost(&self, moment: u64, terminated: bool, arrived: u8) -> u8
        ensures { result ≡ lost_at moment terminated arrived self.now }
    {
        if self.begins_apart(moment, terminated, arrived) {
            0
        } else {
            self.numbering.lost(self.sequence_number, arrived)
        }
    }

    // What is missing behind a taken packet.
    fn missing_at(&self, moment: u64, terminated: bool, arrived: u8) -> u32
        ensures { result ≡ missing_at moment terminated arrived self.now }
    {
        if self.begins_apart(moment, terminated, arrived)
            || goes_back(self.sequence_number, arrived)
        {
            return 0;
        }
        let lost = self.lost(moment, terminated, arrived) > 0;
        further(
            lost,
            arrived.wrapping_sub(self.sequence_number),
            self.missing,
        )
    }

    // How the source numbers its packets, as far as a taken one tells.
    fn numbering_at(&self, begins: bool, arrived: u8) -> Numbering
        ensures { result ≡ numbering_at begins arrived self.now }
    {
        if begins {
            Numbering::first()
        } else {
            self.numbering.after(self.sequence_number, arrived)
        }
    }

    // Whether a taken packet begins the numbers anew.
    fn begins_anew(&self, moment: u64, arrived: u8) -> bool
        ensures { result ≡ begins_anew moment arrived self.now }
    {
        self.is_fresh(moment) & (signed_step(self.sequence_number, arrived) < 0)
    }

    // What a taken packet's number tells.
    fn note_number(&mut self, moment: u64, terminated: bool, arrived: u8) -> NumberNews
        ensures news { result ≡ number_news moment terminated arrived self.old }
        ensures account { self.new ≡ renumbered moment terminated arrived self.old }
    {
        let begins = self.begins_life(moment, terminated);
        let numbering = self.numbering_at(begins, arrived);
        let news = NumberNews {
            skipped: self.lost(moment, terminated, arrived),
            began_anew: self.begins_anew(moment, arrived),
            leaves_out: self.numbering.omission(numbering),
        };
        self.numbering = numbering;
        news
    }

    // A packet that is discarded. Returns its event.
    fn discard(&mut self, arrived: u8) -> StreamEvent
        ensures event { result ≡ discarded_event arrived self.old }
        ensures account { self.new ≡ after_discarded arrived self.old }
    {
        if arrived == self.sequence_number {
            self.repeats = self.repeats.saturating_add(1);
            StreamEvent::Repeated
        } else {
            self.late = self.late.saturating_add(1);
            self.find(arrived);
            StreamEvent::OutOfSequence
        }
    }

    // A packet that comes late: where its number was counted as lost, it isn't lost.
    fn find(&mut self, arrived: u8)
        ensures { self.new ≡ after_found arrived self.old }
    {
        let behind = self.sequence_number.wrapping_sub(arrived);
        if is_missing(behind, self.missing) && !self.numbering.leaves_out(arrived) {
            self.skipped = self.skipped.saturating_sub(1);
            self.missing = self.missing.saturating_sub(digit(behind));
        }
    }

    // A packet that is taken. Returns what it tells that is new. Mostly it goes on as the one before, and tells nothing: the same
    // as `take_any` makes of it.
    fn take(&mut self, moment: u64, sender: Endpoint, packet: &DataView<'_>) -> News
        requires { IsFitted self.old.name }
        ensures news { result ≡ taken_news moment sender packet.now self.old }
        ensures account { self.new ≡ after_taken moment sender packet.now self.old }
    {
        if self.goes_on(moment, &sender, packet) {
            self.go_on(moment, packet.number());
            News::quiet(StreamEvent::GoesOn)
        } else {
            self.take_any(moment, sender, packet)
        }
    }

    // Any packet that is taken. Out of line, so that the test before it is made in the caller.
    #[inline(never)]
    #[tactic(auto, unfolding(crate::specs::Accounts::taken_news, crate::specs::Accounts::after_taken))]
    fn take_any(&mut self, moment: u64, sender: Endpoint, packet: &DataView<'_>) -> News
        ensures news { result ≡ taken_news moment sender packet.now self.old }
        ensures account { self.new ≡ after_taken moment sender packet.now self.old }
    {
        let missing = self.missing_at(moment, packet.terminated(), packet.number());
        let number = self.note_number(moment, packet.terminated(), packet.number());
        let gap = moment.saturating_sub(self.latest);
        let kind = kind_of(packet);
        let holding = self.holding.after(moment, kind, packet.priority());
        let news = News {
            event: self.taken_event(moment, packet.terminated()),
            skipped: number.skipped,
            began_anew: number.began_anew,
            leaves_out: number.leaves_out,
            priority: change(self.priority, packet.priority()),
            renamed: rename(&mut self.name, packet),
            moved: !same_sender(&self.sender, &sender),
            relit: self.holding.is_relit(self.latest, moment, holding),
        };
        self.sender = sender;
        self.priority = packet.priority();
        self.latest = moment;
        self.sequence_number = packet.number();
        self.ended = packet.terminated();
        self.kinds.count(kind);
        self.holding = holding;
        self.skipped = self.skipped.saturating_add(u64::from(number.skipped));
        self.missing = missing;
        self.greatest_gap = self.greatest_gap.max(gap);
        self.rate.count(moment);
        news
    }
}

/// The event of the first packet of all of a source. One that ends a stream tells nothing: there is none.
pub(crate) fn first_event(terminated: bool) -> StreamEvent
    ensures { result ≡ first_event terminated }
{
    if terminated {
        StreamEvent::GoesOn
    } else {
        StreamEvent::Appeared
    }
}

// A priority in place of another.
fn change(from: u8, to: u8) -> Option<Change>
    ensures { result ≡ changed from to }
{
    if from == to {
        None
    } else {
        Some(Change { from, to })
    }
}

/// Whether two datagrams came from one place.
pub(crate) fn same_sender(a: &Endpoint, b: &Endpoint) -> bool
    ensures { result ≡ same_sender a.now b.now }
{
    (a.address == b.address) & (a.port == b.port)
}

// A packet's name in place of another. Returns whether it is another one.
fn rename(name: &mut [u8; 64], packet: &DataView<'_>) -> bool
    ensures renamed { result ≡ not (bytes_eq name.old (name_of packet.now)) }
    ensures name { name.new ≡ name_of packet.now }
{
    let field = fitted(packet.name());
    let renamed = *name != field;
    *name = field;
    renamed
}

// A name's octets, and NUL to the end of its field.
fn fitted(name: &[u8]) -> [u8; 64]
    ensures { result ≡ fitted name.now }
{
    if name.len() <= 64 {
        padded(name)
    } else {
        [0; 64]
    }
}

// The octets, and NUL to the end.
fn padded(name: &[u8]) -> [u8; 64]
    requires { length name.now ≤ 64 }
    ensures { result ≡ padded name.now }
{
    let mut field = [0; 64];
    put(&mut field, 0, name);
    field
}
