//! A network that viewers look at, and what an audit finds of its senders.
use crate::auditing::LiveAudit;
use sacn_findings::{push_source_text, push_text_end};
use sacn_monitor::Endpoint;
use sacn_packets::Reading;
use sacn_page::{Board, Facts, MAX_ALARMS, Scene, SeekFault};
use std::alloc::{AllocError, Global};

/// Of so many sources at most the findings are told in one turn, so that no turn is long.
const SOURCES_A_TURN: usize = 16;

/// What was found is told anew where it is asked for so many milliseconds after it was told last.
const PAUSE: u64 = 2000;

/// What is answered until findings were told for the first time.
const NOT_YET: &str = "asked for the first time: what was found is told in a moment\n";

/// What is known of a network, and what was found of its senders: told as a text while somebody asks for it, some sources a turn.
#[derive(Drop)]
pub struct Judged {
    alloc: Global,
    board: Board,
    audit: LiveAudit,
    /// What was found, at the moment at which that was told last.
    text: Option<String>,
    told: u64,
    /// What is told now, up to the source of a place; None where nothing is.
    draft: Option<(String, usize)>,
}

/// A network of which nothing was heard, and of whose senders nothing was found. A viewer that names no universe is shown this one,
/// else the first heard.
///
/// Errors: OutOfMemory.
pub fn judged_of(alloc: Global, universe: Option<u16>) -> Result<Judged, AllocError> {
    Judged::new(alloc, Board::new(alloc, universe, MAX_ALARMS)?)
}

impl Judged {
    /// This network, of whose senders nothing was found.
    ///
    /// Errors: OutOfMemory.
    pub fn new(alloc: Global, board: Board) -> Result<Self, AllocError> {
        Ok(Judged {
            alloc,
            board,
            audit: LiveAudit::new(alloc)?,
            text: None,
            told: 0,
            draft: None,
        })
    }

    // Tells of some sources more what was found; behind the last one that is the text.
    fn go_on(&mut self, now: u64) -> Result<(), AllocError> {
        let Some((mut draft, first)) = self.draft.take() else {
            return Ok(());
        };
        let audit = self.audit.audit();
        let count = audit.sources().len();
        let end = first.saturating_add(SOURCES_A_TURN).min(count);
        for place in first..end {
            push_source_text(self.alloc, &mut draft, audit, place)?;
        }
        if end < count {
            self.draft = Some((draft, end));
            return Ok(());
        }
        push_text_end(&mut draft, audit)?;
        self.text = Some(draft);
        self.told = now;
        Ok(())
    }

    // Whether what was found isn't told, or was told some time ago.
    fn is_old(&self, now: u64) -> bool {
        self.text.is_none() | (now.saturating_sub(self.told) >= PAUSE)
    }
}

impl Scene for Judged {
    fn take(
        &mut self,
        now: u64,
        sender: Endpoint,
        reading: &Reading<'_>,
    ) -> Result<(), AllocError> {
        self.audit.hear(now, sender, reading);
        self.board.take(now, sender, reading)
    }

    fn note_stop(&mut self, now: u64, millis: u64) {
        self.board.note_stop(now, millis);
    }

    fn tick(&mut self, now: u64) -> bool {
        // (where memory is refused, nothing is told, and who asks again begins anew)
        let _ = self.go_on(now);
        self.board.tick(now)
    }

    fn next_change(&self) -> u64 {
        match self.draft {
            Some(_) => 0,
            None => self.board.next_end(),
        }
    }

    fn board(&self) -> &Board {
        &self.board
    }

    fn open(&mut self, universe: u16, watched: &[u16]) -> Result<bool, AllocError> {
        self.board.open(universe, watched)
    }

    fn refresh(&mut self, now: u64, watched: &[u16]) {
        self.board.refresh(now, watched);
    }

    fn facts(&self) -> Option<&Facts> {
        None
    }

    fn findings(&mut self, now: u64) -> Result<Option<String>, AllocError> {
        if self.draft.is_none() & self.is_old(now) {
            self.draft = Some((String::new(self.alloc), 0));
        }
        let mut said = String::new(self.alloc);
        said.push_str(match &self.text {
            Some(text) => text.as_str(),
            None => NOT_YET,
        })?;
        Ok(Some(said))
    }

    fn seek(
        &mut self,
        _universe: Option<u16>,
        _moment: Option<u64>,
        _steps: usize,
    ) -> Result<bool, SeekFault> {
        Err(SeekFault::Device)
    }
}
