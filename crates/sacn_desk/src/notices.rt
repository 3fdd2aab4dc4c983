//! What is said of the destinations that don't take a desk's datagrams.
ghost use Rattle.std.specs.Prelude.{◌≡◌, ◌<◌, ◌≤◌, ◌+◌, ◌-◌, ◌^◌, ℕ, Some, if◌then◌else◌};
ghost use Rattle.sacn_machine.specs.declared.limits.TheConstants.{SAID_EACH};
ghost use Rattle.sacn_desk.specs.Noticing.{said_failures, IsSeldom};

use crate::absences::Absences;
use sacn_machine::limits::{SAID_EACH, TAKEN_AGAIN};
use std::alloc::{AllocError, Global};
use std::io::{ErrorKind, Write};
use std::net::SocketAddrV4;

/// What is to be said of a destination.
#[derive(Clone, Copy)]
pub(crate) enum Said {
    Nothing,
    /// It doesn't take datagrams: so many failed.
    Failed(u64),
    /// It takes them again.
    Again,
}

/// What is known of a destination.
#[derive(Clone, Copy)]
pub(crate) struct Notice {
    /// The sends that failed since that was said.
    failed: u64,
    /// When it was said.
    said: Option<u64>,
    /// It was said, and not that datagrams are taken again.
    is_failing: bool,
    /// How many it took since the latest that failed.
    taken: u32,
}

impl Notice {
    /// Nothing was sent.
    pub(crate) fn new() -> Notice {
        Notice {
            failed: 0,
            said: None,
            is_failing: false,
            taken: 0,
        }
    }

    /// Notes a send at a reading, and returns what is to be said. A failure is counted: the count is kept until it is said, which is
    /// at most once a second.
    pub(crate) fn note(&mut self, now: u64, is_taken: bool) -> Said
        ensures counted { self.old.failed < 2 ^ 64 - 1 → self.new.failed + said_failures result
            ≡ self.old.failed + (if is_taken then 0 else 1) }
        ensures seldom { IsSeldom now result self.old.said self.new.said }
    {
        if is_taken {
            self.note_taken()
        } else {
            self.note_failed(now)
        }
    }

    fn note_taken(&mut self) -> Said
        ensures kept { self.new.failed ≡ self.old.failed }
        ensures none { said_failures result ≡ 0 }
        ensures seldom { (now : ℕ) → IsSeldom now result self.old.said self.new.said }
    {
        if !self.is_failing {
            return Said::Nothing;
        }
        if self.taken < TAKEN_AGAIN {
            self.taken += 1;
            return Said::Nothing;
        }
        self.is_failing = false;
        Said::Again
    }

    fn note_failed(&mut self, now: u64) -> Said
        ensures counted { self.old.failed < 2 ^ 64 - 1
            → self.new.failed + said_failures result ≡ self.old.failed + 1 }
        ensures seldom { IsSeldom now result self.old.said self.new.said }
    {
        self.taken = 0;
        self.failed = self.failed.saturating_add(1);
        if let Some(said) = self.said {
            if now.saturating_sub(said) < SAID_EACH {
                return Said::Nothing;
            }
        }
        let failed = self.failed;
        self.failed = 0;
        self.said = Some(now);
        self.is_failing = true;
        Said::Failed(failed)
    }
}

/// What is known of each destination, and where it is said.
#[derive(Drop)]
pub(crate) struct Notices<E> {
    list: Vec<Notice>,
    absences: Absences,
    has_sent: bool,
    err: E,
}

impl<E: Write + Drop> Notices<E> {
    /// Notices of so many destinations, said on this output.
    pub(crate) fn new(
        alloc: Global,
        destinations: usize,
        err: E,
    ) -> Result<Notices<E>, AllocError> {
        let list = vec![in alloc; Notice::new(); destinations]?;
        let absences = Absences::new(alloc, destinations)?;
        Ok(Notices {
            list,
            absences,
            has_sent: false,
            err,
        })
    }

    /// Whether a destination took a datagram.
    pub(crate) fn has_sent(&self) -> bool {
        self.has_sent
    }

    /// Notes a send to the destination at a place, and says what is to be said of it. Of one whose host doesn't answer that alone is said.
    pub(crate) fn note(
        &mut self,
        place: usize,
        to: SocketAddrV4,
        now: u64,
        answer: Result<(), ErrorKind>,
    ) {
        self.has_sent = self.has_sent || answer.is_ok();
        self.absences
            .note(place, *to.ip(), now, answer, &mut self.err);
        if answer == Err(ErrorKind::TimedOut) {
            return;
        }
        let Some(notice) = self.list.get_mut(place) else {
            return;
        };
        match notice.note(now, answer.is_ok()) {
            Said::Nothing => {}
            Said::Failed(failed) => self.say_failed(to, failed, answer),
            Said::Again => self.say_again(to),
        }
    }

    fn say_failed(&mut self, to: SocketAddrV4, failed: u64, answer: Result<(), ErrorKind>) {
        let [a, b, c, d] = to.ip().octets();
        let port = to.port();
        let Err(kind) = answer else {
            return;
        };
        let _ = writeln!(
            self.err,
            "{a}.{b}.{c}.{d}:{port} doesn't take packets: {failed} failed ({kind:?})"
        );
    }

    fn say_again(&mut self, to: SocketAddrV4) {
        let [a, b, c, d] = to.ip().octets();
        let _ = writeln!(
            self.err,
            "{a}.{b}.{c}.{d}:{} takes packets again",
            to.port()
        );
    }
}
