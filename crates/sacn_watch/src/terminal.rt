//! A screen on a terminal.

ghost use Rattle.std.specs.Prelude.{◌≡◌, ◌≤◌, [], IfOk};
ghost use Rattle.sacn_watch.specs.Pages.{FitsOn};
ghost use Rattle.sacn_watch.specs.Screens.{IsShowing, KeepsShowing, wake_of};
ghost use Rattle.sacn_watch.specs.Views.{after_look, chosen, shown_of};

use crate::fault::WatchFault;
use crate::keys::Key;
use crate::layout::screen;
use crate::page::{Ink, Page, Size};
use crate::view::View;
use crate::watch::Watcher;
use sacn_monitor::Endpoint;
use sacn_packets::Reading;
use std::alloc::{AllocError, Global};
use std::io::Write;

/// The least milliseconds between two drawings.
pub const MIN_WAIT: u64 = 250;

/// The most milliseconds until a key's answer is drawn, so that a key that is held costs no more drawings than that.
const KEY_WAIT: u64 = 50;

/// The columns of a row that is left as a line: those of a source's row, and 20 levels.
const LINE_COLUMNS: usize = 100;

/// On so many rows one tells the keys.
const MIN_TOLD: usize = 12;

/// The keys, but for that which ends.
const KEYS: &str = "<- -> 0-9 universe  up/down sources  % x d  f changed  p priority  ";

/// The milliseconds after which rates are looked at anew.
const SECOND: u64 = 1000;

// The alternate screen, no cursor, rows cut at the edge.
const BEGIN: &[u8] = b"\x1b[?1049h\x1b[?25l\x1b[?7l\x1b[2J";

const END: &[u8] = b"\x1b[0m\x1b[?7h\x1b[?25h\x1b[?1049l";

/// Which keys there are.
#[derive(Clone, Copy, PartialEq, Eq)]
pub enum ToldKeys {
    /// None.
    Absent,
    /// Those that steer, and `q`, which ends.
    All,
    /// Those that steer: Ctrl-C ends.
    Steering,
}

/// Shows a network on a terminal, drawn at most four times a second, and at each key, and only where something changed. At its end
/// the terminal shows what it showed before.
#[derive(Drop)]
pub struct Terminal<'a, O> {
    alloc: Global,
    view: View,
    size: Size,
    has_colours: bool,
    out: &'a mut O,
    /// What was drawn last; empty where nothing was.
    drawn: String,
    /// Nothing is drawn before this moment.
    next: u64,
    /// Something came since.
    is_stale: bool,
    /// The size is another one than that of what was drawn last.
    is_resized: bool,
    /// What is said while nothing came; empty until it is time.
    silence: String,
    /// What is said below all else; empty where nothing is.
    note: String,
    /// The keys that are told.
    keys: ToldKeys,
}

impl<'a, O: Write> Terminal<'a, O> {
    /// A terminal of this size, of which nothing is drawn yet. The universe is the one whose levels are shown; where none is
    /// named it is the first heard.
    ///
    /// Errors: OutOfMemory.
    pub fn new(
        alloc: Global,
        universe: Option<u16>,
        size: Size,
        has_colours: bool,
        out: &'a mut O,
    ) -> Result<Self, WatchFault>
        ensures nothing { IfOk result (IsShowing []) }
        ensures universe { IfOk result (λ t. chosen t.view ≡ universe) }
        ensures size { IfOk result (λ t. t.size ≡ size) }
        ensures colours { IfOk result (λ t. t.has_colours ≡ has_colours) }
    {
        Ok(Terminal {
            alloc,
            view: View::new(alloc, universe)?,
            size,
            has_colours,
            out,
            drawn: String::new(alloc),
            next: 0,
            is_stale: true,
            is_resized: false,
            silence: String::new(alloc),
            note: String::new(alloc),
            keys: ToldKeys::Absent,
        })
    }

    /// The terminal has this size from now on: where it is another, all is drawn anew.
    pub fn resize(&mut self, size: Size)
        ensures size { self.new.size ≡ size }
        ensures view { self.new.view ≡ self.old.view }
    {
        if (size.width != self.size.width) | (size.height != self.size.height) {
            self.is_stale = true;
            self.is_resized = true;
        }
        self.size = size;
    }

    /// From now on this is said while nothing came; each part up to a semicolon begins a row.
    pub fn note_silence(&mut self, words: String)
        ensures view { self.new.view ≡ self.old.view }
    {
        self.silence = words;
        self.is_stale = true;
    }

    /// From now on this is said in the row below all else.
    pub fn note_words(&mut self, words: String)
        ensures view { self.new.view ≡ self.old.view }
    {
        self.note = words;
        self.is_stale = true;
    }

    /// From now on a row tells these keys, where there is room for it.
    pub fn tell_keys(&mut self, keys: ToldKeys)
        ensures view { self.new.view ≡ self.old.view }
    {
        if keys != self.keys {
            self.is_stale = true;
        }
        self.keys = keys;
    }

    /// A key is pressed, at a moment in milliseconds. What came of it is drawn within `KEY_WAIT`.
    ///
    /// Errors: OutOfMemory.
    pub fn press(&mut self, now: u64, key: Key) -> Result<(), WatchFault>
        ensures { KeepsShowing self.old self.new }
    {
        self.view.refresh(now);
        self.is_stale = true;
        self.next = self.next.min(now.saturating_add(KEY_WAIT));
        self.view.press(self.alloc, key)
    }

    /// A key that ends nothing was pressed to end it.
    pub fn refuse_end(&mut self)
        ensures { KeepsShowing self.old self.new }
    {
        self.view.steering.refuse_end();
        self.is_stale = true;
        self.next = 0;
    }

    /// Writes all rows of what it shows, also those for which the screen had no room, as lines.
    pub fn leave(&mut self, now: u64) -> Result<(), WatchFault>
        ensures network { self.new.view.network ≡ self.old.view.network }
        ensures looked { shown_of self.new.view ≡ after_look now (shown_of self.old.view) }
    {
        self.view.refresh(now);
        if self.drawn.len() == 0 {
            return Ok(());
        }
        let size = Size {
            width: LINE_COLUMNS,
            height: usize::MAX,
        };
        let page = screen(self.alloc, &self.view, size)?;
        let text = page.lines(self.alloc)?;
        self.out.write_all(text.as_bytes())?;
        self.out.flush()?;
        Ok(())
    }

    // What is said of silence, while nothing came.
    fn push_silence(&self, page: &mut Page) -> Result<(), AllocError>
        ensures size { page.new.size ≡ page.old.size }
        ensures fits { FitsOn page.old.size page.old.rows.items
            → FitsOn page.new.size page.new.rows.items }
    {
        if self.view.monitor().tally().datagrams > 0 {
            return Ok(());
        }
        for part in self.silence.split(';') {
            push_words(self.alloc, page, part)?;
        }
        Ok(())
    }

    // What is said of keys: of the latest one, or which there are.
    fn words_of_keys(&self) -> Result<String, AllocError> {
        let mut text = String::new(self.alloc);
        self.view.steering.push_said(&mut text)?;
        if text.len() > 0 || self.size.height < MIN_TOLD {
            return Ok(text);
        }
        match self.keys {
            ToldKeys::Absent => {}
            ToldKeys::All => {
                text.push_str(KEYS)?;
                text.push_str("q end")?;
            }
            ToldKeys::Steering => {
                text.push_str(KEYS)?;
                text.push_str("Ctrl-C end")?;
            }
        }
        Ok(text)
    }

    // What the screen shows: of its height a row is left to what is said of keys, and one to what is said below all else.
    fn page(&self) -> Result<Page, AllocError>
        ensures fits { IfOk result (λ page. FitsOn self.now.size page.rows.items) }
    {
        let keys = self.words_of_keys()?;
        let has_keys = keys.len() > 0;
        let has_note = self.note.len() > 0;
        let height = height_above(self.size.height, has_keys);
        let size = Size {
            width: self.size.width,
            height: height_above(height, has_note),
        };
        let mut page = screen(self.alloc, &self.view, size)?;
        self.push_silence(&mut page)?;
        page.size = self.size;
        if has_keys {
            page.push_text(self.alloc, keys.as_str(), Ink::Heading)?;
        }
        if has_note {
            page.push_text(self.alloc, self.note.as_str(), Ink::Plain)?;
        }
        Ok(page)
    }

    // Draws the screen where it isn't the one that was drawn last.
    fn draw(&mut self, now: u64) -> Result<(), WatchFault>
        ensures network { self.new.view.network ≡ self.old.view.network }
        ensures looked { shown_of self.new.view ≡ after_look now (shown_of self.old.view) }
    {
        self.view.refresh(now);
        let page = self.page()?;
        self.view.steering.sources_above = page.sources_above;
        let text = page.text(self.alloc, self.has_colours)?;
        if self.drawn.len() == 0 {
            self.out.write_all(BEGIN)?;
        }
        if self.is_resized | (text.as_str() != self.drawn.as_str()) {
            self.out.write_all(text.as_bytes())?;
            self.out.flush()?;
            self.drawn = text;
        }
        self.is_resized = false;
        Ok(())
    }
}

impl<'a, O: Write> Watcher for Terminal<'a, O> {
    ghost use Rattle.sacn_watch.specs.Screens.{IsShowing};

    ghost Handed = { λ terminal calls. IsShowing calls terminal };

    fn take(
        &mut self,
        now: u64,
        sender: Endpoint,
        reading: &Reading<'_>,
    ) -> Result<(), WatchFault> {
        self.view.take(now, sender, reading);
        let is_concerned = self.view.is_concerned(reading);
        self.view.note_changes(now, is_concerned);
        self.is_stale = true;
        Ok(())
    }

    fn note_stop(&mut self, _now: u64, millis: u64) -> Result<(), WatchFault> {
        self.view.stopped = self.view.stopped.saturating_add(millis);
        self.is_stale = true;
        Ok(())
    }

    fn show(&mut self, now: u64) -> Result<(), WatchFault> {
        self.is_stale = self.view.tick(now) | self.is_stale;
        if (now < self.next)
            | (!self.is_stale & (now < self.next.saturating_add(SECOND - MIN_WAIT)))
        {
            return Ok(());
        }
        self.is_stale = false;
        self.next = now.saturating_add(MIN_WAIT);
        self.draw(now)
    }

    fn wakes(&self) -> u64
        ensures { result ≡ wake_of self.now }
    {
        if self.is_stale {
            return self.next;
        }
        if self.view.monitor().streams().is_empty() {
            return u64::MAX;
        }
        let next = self.next.saturating_add(SECOND - MIN_WAIT);
        next.min(self.view.monitor().next_loss())
    }

    fn end(&mut self, now: u64) -> Result<(), WatchFault> {
        self.view.tick(now);
        if self.drawn.len() > 0 {
            self.out.write_all(END)?;
            self.out.flush()?;
        }
        Ok(())
    }
}

// The height above a row below, where there is one.
fn height_above(height: usize, has_row: bool) -> usize
    ensures { result ≤ height }
{
    if has_row {
        height.saturating_sub(1)
    } else {
        height
    }
}

// Words, in as many rows as they need.
fn push_words(alloc: Global, page: &mut Page, words: &str) -> Result<(), AllocError>
    ensures size { page.new.size ≡ page.old.size }
    ensures fits { FitsOn page.old.size page.old.rows.items
        → FitsOn page.new.size page.new.rows.items }
{
    let mut row = String::new(alloc);
    for word in words.split(' ') {
        if row.len().saturating_add(word.len()) >= page.size.width && row.len() > 0 {
            page.push_text(alloc, row.as_str(), Ink::Alarm)?;
            row.clear();
        }
        if row.len() > 0 {
            row.push(' ')?;
        }
        row.push_str(word)?;
    }
    page.push_text(alloc, row.as_str(), Ink::Alarm)
}
