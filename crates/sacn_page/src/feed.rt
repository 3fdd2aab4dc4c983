//! What those are given who look at one universe, made once for all of them.

ghost use Rattle.std.specs.Prelude.{◌≡◌, ◌==◌, ◌||◌, IfOk, OnOk, not, string_bytes};
ghost use Rattle.sacn_page.specs.Feeds.{IsFollowed, misses, next_event, owed, owed_text, state_event, whole_text};

use crate::board::Board;
use crate::document::{Extent, Given, push_document};
use crate::response::push_event;
use std::alloc::{AllocError, Global};

/// The least milliseconds between two events of a viewer.
pub const MIN_WAIT: u64 = 100;

/// The most milliseconds between two events of a viewer that takes all.
pub const MAX_WAIT: u64 = 1000;

/// What a viewer is owed of the latest event.
#[derive(Clone, Copy, PartialEq, Eq)]
pub enum Owed {
    /// It was given that.
    Nothing,
    /// It was given the event before it.
    Change,
    /// It was given none, or missed some: the document as a whole.
    Whole,
}

/// When an event is made.
#[derive(Clone, Copy)]
pub struct Occasion {
    /// The moment, in milliseconds.
    pub now: u64,
    /// How much had come.
    pub changes: u64,
    /// Whether a viewer is owed the whole document.
    pub is_whole_wanted: bool,
}

/// The events of those who name one universe, or none. Numbers of events begin at 1; 0 is none.
#[derive(Drop)]
pub struct Feed {
    named: Option<u16>,
    given: Given,
    /// The number of the latest event.
    latest: u64,
    /// The number of the one since which it says what changed.
    before: u64,
    /// What changed, as an event; empty where nothing did.
    change: String,
    /// The whole document as an event, at the same moment; empty where nobody was owed it.
    whole: String,
    /// No event is made before this moment.
    next: u64,
    /// One is made at this moment, also where nothing changed but the moment.
    beat: u64,
    /// How much had come when the latest was made.
    changes: u64,
}

impl Feed {
    /// No event yet, for those who name this universe or none.
    pub fn new(alloc: Global, named: Option<u16>) -> Self {
        Feed {
            named,
            given: Given::nothing(alloc),
            latest: 0,
            before: 0,
            change: String::new(alloc),
            whole: String::new(alloc),
            next: 0,
            beat: 0,
            changes: 0,
        }
    }

    /// The universe that is named, if any.
    pub fn named(&self) -> Option<u16>
        ensures { result ≡ self.now.named }
    {
        self.named
    }

    /// The number of the latest event.
    pub fn latest(&self) -> u64
        ensures { result ≡ self.now.latest }
    {
        self.latest
    }

    /// What a viewer is owed that was given the event of this number last.
    pub fn owed(&self, seen: u64) -> Owed
        ensures { result ≡ owed self.now.latest self.now.before seen }
    {
        if self.latest <= seen {
            Owed::Nothing
        } else if seen == 0 {
            Owed::Whole
        } else if seen == self.before {
            Owed::Change
        } else {
            Owed::Whole
        }
    }

    /// Whether a viewer that was given the event of this number last is owed the whole document once a further event is made.
    pub fn misses(&self, seen: u64) -> bool
        ensures { result ≡ misses self.now.latest seen }
    {
        (seen == 0) | (seen != self.latest)
    }

    /// What is given to one who is owed this; empty where it isn't made, which the next event mends.
    pub fn text(&self, owed: Owed) -> &str
        ensures { result.now ≡ owed_text owed self.now }
    {
        match owed {
            Owed::Nothing => "",
            Owed::Change => self.change.as_str(),
            Owed::Whole => self.whole.as_str(),
        }
    }

    /// The moment at which an event is made, where so much came by now.
    pub fn next_event(&self, changes: u64, is_whole_wanted: bool) -> u64
        ensures { result ≡ next_event self.now.next self.now.beat
            (is_whole_wanted || not (self.now.changes == changes)) }
    {
        if is_whole_wanted | (self.changes != changes) {
            return self.next;
        }
        self.next.max(self.beat)
    }

    /// Makes the event of a moment, of this number where there is something to say: what changed, and the whole document where that is
    /// wanted.
    ///
    /// Errors: a growth was refused. The feed is of no use then.
    #[tactic(auto, using(crate::proofs::Owing::followed_as))]
    pub fn make(
        &mut self,
        alloc: Global,
        board: &Board,
        number: u64,
        occasion: Occasion,
    ) -> Result<(), AllocError>
        ensures named { self.new.named ≡ self.old.named }
        ensures followed { OnOk result (IsFollowed number self.old self.new) }
        ensures whole { OnOk result (string_bytes self.new.whole
            ≡ whole_text occasion.is_whole_wanted board.now self.old.named) }
    {
        let is_beat = occasion.now >= self.beat;
        self.note_change(alloc, board, number, is_beat)?;
        self.whole = whole_of(alloc, board, self.named, occasion.is_whole_wanted)?;
        self.plan(occasion, is_beat);
        Ok(())
    }

    // Makes the event that says what changed, where anything did, or where it is time for one.
    #[tactic(auto, using(crate::proofs::Owing::followed, crate::proofs::Owing::not_followed))]
    fn note_change(
        &mut self,
        alloc: Global,
        board: &Board,
        number: u64,
        is_beat: bool,
    ) -> Result<(), AllocError>
        ensures named { self.new.named ≡ self.old.named }
        ensures followed { OnOk result (IsFollowed number self.old self.new) }
    {
        let mut document = String::new(alloc);
        let is_more = push_document(
            &mut document,
            None,
            board,
            self.named,
            &mut self.given,
            Extent::Changes,
        )?;
        if !is_more & !is_beat {
            return Ok(());
        }
        let mut change = String::new(alloc);
        push_event(&mut change, "change", document.as_str())?;
        self.before = self.latest;
        self.latest = number;
        self.change = change;
        Ok(())
    }

    // When the next event is made.
    fn plan(&mut self, occasion: Occasion, is_beat: bool)
        ensures named { self.new.named ≡ self.old.named }
        ensures latest { self.new.latest ≡ self.old.latest }
        ensures before { self.new.before ≡ self.old.before }
        ensures change { self.new.change ≡ self.old.change }
        ensures whole { self.new.whole ≡ self.old.whole }
    {
        self.changes = occasion.changes;
        self.next = occasion.now.saturating_add(MIN_WAIT);
        if is_beat {
            self.beat = occasion.now.saturating_add(MAX_WAIT);
        }
    }
}

// The whole document as an event, where it is wanted; else nothing.
fn whole_of(
    alloc: Global,
    board: &Board,
    named: Option<u16>,
    is_wanted: bool,
) -> Result<String, AllocError>
    ensures { IfOk result (λ text. string_bytes text ≡ whole_text is_wanted board.now named) }
{
    if is_wanted {
        state_event(alloc, board, named)
    } else {
        Ok(String::new(alloc))
    }
}

// The whole document as an event.
fn state_event(alloc: Global, board: &Board, named: Option<u16>) -> Result<String, AllocError>
    ensures { IfOk result (λ text. string_bytes text ≡ state_event board.now named) }
{
    let mut document = String::new(alloc);
    let mut given = Given::nothing(alloc);
    push_document(&mut document, None, board, named, &mut given, Extent::Whole)?;
    let mut text = String::new(alloc);
    push_event(&mut text, "state", document.as_str())?;
    Ok(text)
}
