//! What a viewer is to look at: the latest things that went wrong.

ghost use Rattle.std.specs.Prelude.{◌≡◌, ◌≤◌, ◌-◌, [], IfOk, find, length, nat_le, not, option_copied, position, vec_capacity};
ghost use Rattle.sacn_network.specs.Contests.{takes_part};
ghost use Rattle.sacn_page.specs.Alarms.{after, alarms_after, event_troubles, giving_way, is_loss, news_troubles, no_alarms, oldest, pair_of, paired, rivals, troubles_of, with_alarm, with_latest, with_troubles};

use sacn_monitor::{Endpoint, Monitor, News, Stream, StreamEvent};
use sacn_network::{Contest, Observer, Occurrence, What};
use sacn_packets::PacketFault;
use std::alloc::{AllocError, Global};
use std::marker::Model;

/// The most alarms of a network that are kept.
pub const MAX_ALARMS: usize = 32;

/// Two sources, by their CIDs (E1.31, 5.6).
#[derive(Clone, Copy)]
pub struct Pair {
    pub first: [u8; 16],
    pub second: [u8; 16],
}

/// What happened. A place is that of a source on a universe.
#[derive(Clone, Copy)]
pub enum Trouble {
    /// No packet of a source was taken for 2500 ms (E1.31, 6.7.1).
    Lost(usize),
    /// A source ended its stream (E1.31, 6.2.6).
    Ended(usize),
    /// One that had ended or was lost sends again.
    CameBack(usize),
    /// A source skipped so many sequence numbers.
    Skipped(usize, u8),
    /// A packet of a source came out of sequence, and was discarded (E1.31, 6.7.2).
    Late(usize),
    /// A datagram is no packet of the standard.
    Refused(Endpoint, PacketFault),
    /// This program was stopped for so many milliseconds, in which it heard nothing.
    Stopped(u64),
    /// Two sources or more share the top priority of a universe (E1.31, 6.2.3): the first two of them, as they appeared.
    Rivals(Contest, Option<Pair>),
}

/// A thing that happened at a moment, in milliseconds.
#[derive(Clone, Copy)]
pub struct Alarm {
    pub moment: u64,
    pub trouble: Trouble,
    // How many there were before it.
    earlier: u64,
}

/// The latest alarms, the oldest first. A loss is kept before all else, so that the dozens of ends and returns that follow one don't push it out.
#[derive(Drop)]
pub struct Alarms {
    latest: Vec<Alarm>,
    /// How many are kept.
    most: usize,
    /// How many there were; from `u64::MAX` on it stands.
    count: u64,
}

impl Model for Alarms {
    ghost use Rattle.std.specs.Prelude.{◌≤◌, length, vec_capacity};
    ghost use Rattle.sacn_page.specs.Alarms.{KeptAlarms};

    ghost Value = { KeptAlarms };

    ghost view = { λ a. record {
      latest = a.latest.items;
      most = a.most;
      count = a.count;
    } };

    ghost invariant = { λ a. (length a.latest.items ≤ a.most)
        × (a.most ≤ vec_capacity a.latest) };
}

/// The same alarms again, with room of their own.
///
/// Errors: a request for it was refused.
impl Clone for Alarms {
    ghost is_clone = { λ alarms copy. copy ≡ alarms };

    fn clone(&self) -> Result<Alarms, AllocError> {
        Ok(Alarms {
            latest: with_room(&self.latest, self.most)?,
            most: self.most,
            count: self.count,
        })
    }
}

impl Alarms {
    /// None yet, of which the latest so many are kept. Their room is taken once.
    ///
    /// Errors: the request for it was refused.
    pub fn new(alloc: Global, most: usize) -> Result<Self, AllocError>
        ensures { IfOk result (λ a. a ≡ no_alarms most) }
    {
        Ok(Alarms {
            latest: Vec::with_capacity(alloc, most)?,
            most,
            count: 0,
        })
    }

    /// One more. Where there are as many as are kept it takes the place of the oldest that is no loss. Where all are losses, a loss takes
    /// the place of the oldest, and anything else is left out.
    #[tactic(auto, unfolding(crate::specs::Alarms::with_alarm))]
    pub fn add(&mut self, moment: u64, trouble: Trouble)
        ensures { self.new ≡ with_alarm moment trouble self.old }
    {
        let alarm = Alarm {
            moment,
            trouble,
            earlier: self.count,
        };
        self.keep(alarm);
        self.count = self.count.saturating_add(1);
    }

    // Keeps one more, where there is room for it or another gives way.
    #[tactic(auto, unfolding(crate::specs::Alarms::with_latest))]
    fn keep(&mut self, alarm: Alarm)
        ensures { self.new ≡ record self.old {
          latest = with_latest self.old.most alarm self.old.latest;
        } }
    {
        if self.latest.len() < self.most {
            self.latest.push_reserved(alarm);
        } else if let Some(place) = giving_way(self.latest.as_slice(), &alarm.trouble) {
            self.latest.remove(place);
            self.latest.push_reserved(alarm);
        }
    }

    // Those of what happened on the network, whose streams are these then.
    fn add_what(&mut self, at: u64, what: &What, streams: &[Stream])
        ensures { self.new ≡ with_troubles at (troubles_of at streams.now what.now) self.old }
    {
        match what {
            What::Lost(place) => self.add(at, Trouble::Lost(*place)),
            What::Heard(place, news) => self.add_news(at, *place, news),
            What::Refused(sender, fault) => self.add(at, Trouble::Refused(*sender, *fault)),
            What::Contest(contest) if contest.sources >= 2 => {
                self.add(at, Trouble::Rivals(*contest, pair_of(at, contest, streams)));
            }
            What::Contest(_) | What::Untracked(_) => {}
        }
    }

    // Those of a data packet of the source at a place.
    fn add_news(&mut self, at: u64, place: usize, news: &News)
        ensures { self.new ≡ with_troubles at (news_troubles place news.now) self.old }
    {
        self.add_event(at, place, news.event);
        if news.skipped > 0 {
            self.add(at, Trouble::Skipped(place, news.skipped));
        }
    }

    // That of what became of the source at a place.
    fn add_event(&mut self, at: u64, place: usize, event: StreamEvent)
        ensures { self.new ≡ with_troubles at (event_troubles place event) self.old }
    {
        match event {
            StreamEvent::CameBack => self.add(at, Trouble::CameBack(place)),
            StreamEvent::Ended => self.add(at, Trouble::Ended(place)),
            StreamEvent::OutOfSequence => self.add(at, Trouble::Late(place)),
            StreamEvent::GoesOn | StreamEvent::Appeared | StreamEvent::Repeated => {}
        }
    }

    /// How many there were; from `u64::MAX` on it stands.
    pub fn count(&self) -> u64
        ensures { result ≡ self.now.count }
    {
        self.count
    }

    /// How many of them aren't kept.
    pub fn left_out(&self) -> u64
        ensures { result ≡ self.now.count - length self.now.latest }
    {
        self.count.saturating_sub(self.latest.len() as u64)
    }

    /// Those behind the first so many, as far as they are kept.
    pub fn after(&self, count: u64) -> &[Alarm]
        ensures { result.now ≡ after count self.now.latest }
    {
        let latest = self.latest.as_slice();
        match place_after(latest, count) {
            Some(place) => &latest[place..],
            None => &[],
        }
    }
}

/// Adds what went wrong on the network.
impl Observer for Alarms {
    ghost Notes = { λ old told new. new ≡ alarms_after told old };

    fn observe(&mut self, occurrence: &Occurrence, monitor: &Monitor) {
        self.add_what(occurrence.at, &occurrence.what, monitor.streams());
    }
}

impl Trouble {
    fn is_loss(&self) -> bool
        ensures { result ≡ is_loss self.now }
    {
        matches!(self, Trouble::Lost(_))
    }
}

// The first two sources, as they appeared, that take part in a contest at a moment.
fn pair_of(at: u64, contest: &Contest, streams: &[Stream]) -> Option<Pair>
    ensures { result ≡ pair_of at contest.now streams.now }
{
    let first = first_of(at, contest, streams)?;
    paired(at, contest, streams, first)
}

// The first source with the next one that takes part in it.
fn paired(at: u64, contest: &Contest, streams: &[Stream], first: &Stream) -> Option<Pair>
    ensures { result ≡ paired at contest.now streams.now first.now }
{
    let second = rival_of(at, contest, streams, first)?;
    Some(Pair {
        first: first.cid,
        second: second.cid,
    })
}

fn first_of<'s>(at: u64, contest: &Contest, streams: &'s [Stream]) -> Option<&'s Stream>
    ensures { option_copied result ≡ find (takes_part at contest.now) streams.now }
{
    streams.iter().find(|stream| contest.has(at, stream))
}

fn rival_of<'s>(
    at: u64,
    contest: &Contest,
    streams: &'s [Stream],
    first: &Stream,
) -> Option<&'s Stream>
    ensures { option_copied result ≡ find (rivals at contest.now first.now) streams.now }
{
    streams
        .iter()
        .find(|stream| rivals(at, contest, first, stream))
}

// Whether a source takes part in a contest beside this one.
fn rivals(at: u64, contest: &Contest, first: &Stream, stream: &Stream) -> bool
    ensures { result ≡ rivals at contest.now first.now stream.now }
{
    contest.has(at, stream) & (first.cid != stream.cid)
}

// These alarms again, with room for so many.
fn with_room(alarms: &Vec<Alarm>, most: usize) -> Result<Vec<Alarm>, AllocError>
    ensures items { IfOk result (λ again. again.items ≡ alarms.now.items) }
    ensures room { IfOk result (λ again. most ≤ vec_capacity again) }
{
    let mut again = Vec::with_capacity(*alarms.allocator(), most)?;
    again.extend_from_slice(alarms.as_slice())?;
    Ok(again)
}

// The place of the first before which there were so many, or more.
fn place_after(alarms: &[Alarm], count: u64) -> Option<usize>
    ensures { result ≡ position (λ a. nat_le count a.earlier) alarms.now }
{
    alarms.iter().position(|alarm| alarm.earlier >= count)
}

// The place of the one that gives way to one more: of the oldest that is no loss; where all are losses, of the oldest to a loss, and of
// none to anything else.
fn giving_way(alarms: &[Alarm], trouble: &Trouble) -> Option<usize>
    ensures { result ≡ giving_way trouble.now alarms.now }
{
    let oldest = if trouble.is_loss() {
        oldest(alarms)
    } else {
        None
    };
    oldest_other(alarms).or(oldest)
}

// The place of the oldest.
fn oldest(alarms: &[Alarm]) -> Option<usize>
    ensures { result ≡ oldest alarms.now }
{
    match alarms {
        [] => None,
        _ => Some(0),
    }
}

// The place of the oldest that is no loss.
fn oldest_other(alarms: &[Alarm]) -> Option<usize>
    ensures { result ≡ position (λ a. not (is_loss a.trouble)) alarms.now }
{
    alarms.iter().position(|alarm| !alarm.trouble.is_loss())
}
