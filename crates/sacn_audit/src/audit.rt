//! The audit of one stream.

ghost use Rattle.std.specs.Prelude.{◌≡◌};
ghost use Rattle.sacn_audit.specs.Breaches.{breach_of};
ghost use Rattle.sacn_audit.specs.Audits.{after_packet, copies_after, counted, ends_after, first_audit, is_close_end, is_continued, is_short_change, is_short, is_silent, judged, leaves_out, levels_after};
ghost use Rattle.sacn_audit.specs.Rules.{is_late};

use crate::breach::{Breach, Breaches};
use crate::content::Content;
use crate::delivery::Delivery;
use crate::limits::{
    COPIES, COPIES_IN_A_ROW, LONGEST_GAP, LONGEST_REPEAT, SHORTEST_BETWEEN_ENDS, TURNS,
};
use crate::number_habits::{NumberHabits, passes_over};
use crate::pace::Pace;
use crate::rule::Rule;
use crate::sight::Sight;
use sacn_packets::{DataView, NULL_START_CODE};

/// Which rules the packets of one stream break: those of one source on one universe. No call takes memory.
///
/// Moments are in milliseconds of one clock, and are handed in so that none is before an earlier one; one that is counts as the
/// latest.
#[derive(Drop)]
pub struct StreamAudit {
    // The moment of the latest packet.
    moment: u64,
    // The latest packet, and its slots.
    latest: Sight,
    content: Content,
    // The moment of the latest packet with levels, where nothing was lost since, and the stream didn't end.
    levels: Option<u64>,
    pace: Pace,
    habits: NumberHabits,
    // The latest packets in a row that end the stream: 3 for three or more.
    ends: u8,
    // The packets so far with the latest levels, where these were seen to change: 0 once three have them.
    copies: u8,
    breaches: Breaches,
}

impl StreamAudit {
    /// The audit of a stream whose first packet this is, with what came with it.
    pub fn begin(moment: u64, delivery: Delivery, packet: &DataView<'_>) -> Self
        ensures { result ≡ first_audit moment delivery packet.now }
    {
        let sight = Sight::of(delivery, packet);
        let mut breaches = Breaches::none();
        breaches.judge_alone(moment, sight);
        let levels = if sight.start == NULL_START_CODE {
            Some(moment)
        } else {
            None
        };
        StreamAudit {
            moment,
            latest: sight,
            content: Content::of(packet.slots()),
            levels,
            pace: Pace::begin(moment),
            habits: NumberHabits::first(),
            ends: ends_after(sight.terminated, 0),
            copies: 0,
            breaches,
        }
    }

    /// One packet more, with what came with it.
    pub fn hear(&mut self, moment: u64, delivery: Delivery, packet: &DataView<'_>)
        ensures { self.new ≡ after_packet moment delivery packet.now self.old }
    {
        let moment = moment.max(self.moment);
        let sight = Sight::of(delivery, packet);
        let slots = packet.slots();
        let is_same = self.content.is_same(slots);
        self.count(moment, sight);
        self.judge(moment, sight);
        self.levels = self.levels_after(moment, sight);
        self.copies = copies_after(sight.carries_on(self.latest), is_same, self.copies);
        self.moment = moment;
        self.latest = sight;
        self.ends = ends_after(sight.terminated, self.ends);
        if !is_same {
            self.content.set(slots);
        }
    }

    /// How often a rule was broken, and when.
    pub fn breach_of(&self, rule: Rule) -> Breach
        ensures { result ≡ breach_of rule self.now.breaches }
    {
        self.breaches.of(rule)
    }

    /// Whether the stream has ended by now with fewer than three packets that end it (E1.31, 6.2.6). Where nothing follows, this
    /// is a breach of `Rule::ShortEnd` that isn't counted yet.
    pub fn is_short_end(&self) -> bool
        ensures { result ≡ is_short self.now.ends }
    {
        0 < self.ends && self.ends < COPIES
    }

    /// The moment of the latest packet: the greatest that was handed in.
    pub fn moment(&self) -> u64
        ensures { result ≡ self.now.moment }
    {
        self.moment
    }

    /// Whether the latest packet ends the stream.
    pub fn is_ended(&self) -> bool
        ensures { result ≡ self.now.latest.terminated }
    {
        self.latest.terminated
    }

    // Counts a packet, by its moment and its number.
    fn count(&mut self, moment: u64, sight: Sight)
        ensures { self.new ≡ counted moment sight self.old }
    {
        self.pace.count(moment);
        self.habits = self.habits.after(self.latest.number, sight.number);
    }

    // Notes which rules a packet breaks. The pace and the habits count it already, and all else is of those before it.
    fn judge(&mut self, moment: u64, sight: Sight)
        ensures { self.new ≡ (record self.old { breaches = judged moment sight self.old }) }
    {
        let is_silent = self.is_silent(moment, sight);
        let is_short_change = self.is_short_change(moment, sight);
        let had_short_end = !sight.terminated & self.is_short_end();
        let is_close_end = self.is_close_end(moment, sight);
        let is_too_fast = self.pace.is_too_fast();
        let stays = self.habits.same == COPIES_IN_A_ROW;
        let leaves_out = self.leaves_out(sight);
        self.breaches.too_fast.note_if(is_too_fast, moment);
        self.breaches.silent.note_if(is_silent, moment);
        self.breaches.short_change.note_if(is_short_change, moment);
        self.breaches.short_end.note_if(had_short_end, moment);
        self.breaches.close_ends.note_if(is_close_end, moment);
        self.breaches.number_stays.note_if(stays, moment);
        self.breaches.number_left_out.note_if(leaves_out, moment);
        self.breaches.judge_alone(moment, sight);
    }

    // Whether levels come after too long a silence.
    fn is_silent(&self, moment: u64, sight: Sight) -> bool
        ensures { result ≡ is_silent moment sight self.now }
    {
        self.is_continued(sight) & (sight.start == NULL_START_CODE) & is_late(moment, self.levels)
    }

    // The moment of the latest levels after a packet more.
    fn levels_after(&self, moment: u64, sight: Sight) -> Option<u64>
        ensures { result ≡ levels_after moment sight self.now }
    {
        if sight.start == NULL_START_CODE {
            return Some(moment);
        }
        if self.is_continued(sight) {
            self.levels
        } else {
            None
        }
    }

    // Whether a packet passes over a number that is left out by habit.
    fn leaves_out(&self, sight: Sight) -> bool
        ensures { result ≡ leaves_out sight self.now }
    {
        passes_over(self.latest.number, sight.number) & (self.habits.turns == TURNS)
    }

    // Whether the latest content wasn't repeated.
    fn is_short_change(&self, moment: u64, sight: Sight) -> bool
        ensures { result ≡ is_short_change moment sight self.now }
    {
        self.is_continued(sight)
            & (moment.saturating_sub(self.moment) > LONGEST_REPEAT)
            & (self.copies > 0)
    }

    // Whether a packet ends the stream as the latest one does, too soon after it.
    fn is_close_end(&self, moment: u64, sight: Sight) -> bool
        ensures { result ≡ is_close_end moment sight self.now }
    {
        sight.terminated
            & self.latest.terminated
            & (moment.saturating_sub(self.moment) < SHORTEST_BETWEEN_ENDS)
    }

    // Whether nothing was lost between the latest packet and the next one, and the stream hadn't ended.
    fn is_continued(&self, sight: Sight) -> bool
        ensures { result ≡ is_continued sight self.now }
    {
        sight.is_after(self.latest) & !self.latest.terminated
    }
}

// Whether a moment is too long after that of levels, where there is one.
fn is_late(moment: u64, levels: Option<u64>) -> bool
    ensures { result ≡ is_late moment levels }
{
    match levels {
        Some(earlier) => moment.saturating_sub(earlier) > LONGEST_GAP,
        None => false,
    }
}

// The packets in a row that end the stream, after one more: 3 for three or more.
fn ends_after(terminated: bool, ends: u8) -> u8
    ensures { result ≡ ends_after terminated ends }
{
    if terminated {
        ends.saturating_add(1).min(COPIES)
    } else {
        0
    }
}

// The packets with levels that have changed, after one more, which goes on from the latest or doesn't, with its slots or with others.
fn copies_after(goes_on: bool, is_same: bool, copies: u8) -> u8
    ensures { result ≡ copies_after goes_on is_same copies }
{
    match (goes_on, is_same) {
        (true, false) => 1,
        (true, true) if copies == 1 => 2,
        _ => 0,
    }
}
