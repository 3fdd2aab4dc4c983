//! Which hosts don't answer, and what is said of them.
ghost use Rattle.std.specs.Prelude.{◌<◌, length};
ghost use Rattle.sacn_desk.specs.Presences.{HasReason};

use crate::limits::{ABSENT_EACH, SILENT_FOR};
use sacn_machine::limits::SAID_EACH;
use std::alloc::{AllocError, Global};
use std::io::{ErrorKind, Write};
use std::net::Ipv4Addr;

/// What is to be said of a host.
#[derive(Clone, Copy, PartialEq, Eq)]
enum News {
    /// It doesn't answer.
    NoAnswer,
    /// It answers, after the other was said.
    Answer,
}

/// Whether a host answers, as far as that is known. Readings are in milliseconds.
#[derive(Clone, Copy)]
enum Presence {
    /// Nothing says that it doesn't.
    Answers,
    /// It hasn't since this reading, and that wasn't said.
    Silent(u64),
    /// It doesn't, and that was said at this reading.
    Absent(u64),
    /// It does again, and that wasn't said.
    Back(u64),
}

impl Presence {
    /// After a send at a reading.
    fn after(self, now: u64, answer: Result<(), ErrorKind>) -> Presence {
        match answer {
            Ok(()) => match self {
                Presence::Silent(_) => Presence::Answers,
                Presence::Absent(said) => Presence::Back(said),
                other => other,
            },
            Err(ErrorKind::TimedOut) => match self {
                Presence::Answers => Presence::Silent(now),
                Presence::Back(said) => Presence::Absent(said),
                other => other,
            },
            Err(_) => self,
        }
    }

    /// What is to be said at a reading.
    fn news(self, now: u64) -> Option<News>
        ensures reason { HasReason now self result }
    {
        let is_due = match self {
            Presence::Answers => false,
            Presence::Silent(since) => now.saturating_sub(since) >= SILENT_FOR,
            Presence::Absent(said) => now.saturating_sub(said) >= ABSENT_EACH,
            Presence::Back(_) => return Some(News::Answer),
        };
        if is_due { Some(News::NoAnswer) } else { None }
    }

    /// After what was to be said at a reading was said.
    fn told(self, now: u64) -> Presence {
        match self.news(now) {
            Some(News::NoAnswer) => Presence::Absent(now),
            Some(News::Answer) => Presence::Answers,
            None => self,
        }
    }
}

/// A host, and what is known of it.
#[derive(Clone, Copy)]
struct Host {
    address: Ipv4Addr,
    presence: Presence,
}

impl Host {
    fn has(&self, news: News, now: u64) -> bool {
        self.presence.news(now) == Some(news)
    }
}

/// Whether this is to be said of the host at a place, and of no earlier one with its address.
fn is_named(hosts: &[Host], place: usize, news: News, now: u64) -> bool
    requires { place < length hosts.now }
{
    let host = hosts[place];
    host.has(news, now)
        && !hosts[..place]
            .iter()
            .any(|it| it.address == host.address && it.has(news, now))
}

/// Writes the addresses of the hosts of which this is to be said, a comma between. Returns how many.
fn write_names<E: Write>(hosts: &[Host], news: News, now: u64, err: &mut E) -> usize {
    let mut count: usize = 0;
    for place in 0..hosts.len() {
        if is_named(hosts, place, news, now) {
            let between = if count == 0 { "" } else { ", " };
            let [a, b, c, d] = hosts[place].address.octets();
            let _ = write!(err, "{between}{a}.{b}.{c}.{d}");
            count = count.saturating_add(1);
        }
    }
    count
}

/// Says of all hosts of which it is to be said that they don't answer, or that they do, in one line.
fn say<E: Write>(hosts: &[Host], news: News, now: u64, err: &mut E) {
    let count = write_names(hosts, news, now, err);
    let words = match news {
        News::NoAnswer => {
            if count == 1 {
                "doesn't answer on this network: is it on?"
            } else {
                "don't answer on this network: are they on?"
            }
        }
        News::Answer => {
            if count == 1 {
                "answers now"
            } else {
                "answer now"
            }
        }
    };
    if count > 0 {
        let _ = writeln!(err, " {words}");
    }
}

/// What is known of each destination's host.
#[derive(Drop)]
pub(crate) struct Absences {
    hosts: Vec<Host>,
    // Nothing is said before this reading.
    next: u64,
}

impl Absences {
    /// Those of so many destinations, of which nothing is known.
    pub(crate) fn new(alloc: Global, destinations: usize) -> Result<Absences, AllocError> {
        let unknown = Host {
            address: Ipv4Addr::UNSPECIFIED,
            presence: Presence::Answers,
        };
        let hosts = vec![in alloc; unknown; destinations]?;
        Ok(Absences { hosts, next: 0 })
    }

    /// Notes a send at a reading to the destination at a place, `TimedOut` where its host doesn't answer, and says what is to be said
    /// of all hosts, at most once a second: that one doesn't answer after three seconds, then each minute; and once that it does.
    pub(crate) fn note<E: Write>(
        &mut self,
        place: usize,
        address: Ipv4Addr,
        now: u64,
        answer: Result<(), ErrorKind>,
        err: &mut E,
    ) {
        if let Some(host) = self.hosts.get_mut(place) {
            host.address = address;
            host.presence = host.presence.after(now, answer);
        }
        if now >= self.next {
            self.next = now.saturating_add(SAID_EACH);
            self.say(now, err);
        }
    }

    fn say<E: Write>(&mut self, now: u64, err: &mut E) {
        say(self.hosts.as_slice(), News::Answer, now, err);
        say(self.hosts.as_slice(), News::NoAnswer, now, err);
        for host in self.hosts.as_mut_slice().iter_mut() {
            host.presence = host.presence.told(now);
        }
    }
}
