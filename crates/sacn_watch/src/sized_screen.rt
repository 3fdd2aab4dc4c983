//! A screen on a terminal that may be resized.

ghost use Rattle.std.specs.Prelude.{◌≡◌, ◌≤◌};
ghost use Rattle.sacn_machine.specs.declared.keys.TheConstants.{MAX_KEYS};
ghost use Rattle.sacn_watch.specs.Screens.{KeepsShowing};

use crate::fault::WatchFault;
use crate::keys::{Decoder, Key, Keyboard};
use crate::page::Size;
use crate::terminal::{Terminal, ToldKeys};
use crate::watch::Watcher;
use sacn_machine::limits::SILENT_START;
use sacn_machine::{MAX_KEYS, Typed};
use sacn_monitor::Endpoint;
use sacn_packets::Reading;
use std::io::Write;

/// What tells the size of a terminal.
pub trait Sizes {
    /// The size that it has at a moment in milliseconds, where that may be another one than before.
    fn size(&mut self, now: u64) -> Option<Size>;
}

/// A screen on a terminal whose size and whose keys are asked for before each look whether to draw, and which says where nothing was
/// heard in the first five seconds. At its end its rows stay as lines.
#[derive(Drop)]
pub struct Screen<'a, O, Z, K> {
    terminal: Terminal<'a, O>,
    sizes: Z,
    keyboard: K,
    decoder: Decoder,
    /// The words for that, until they are said.
    silence: Option<String>,
}

impl<'a, O: Write, Z: Sizes, K: Keyboard> Screen<'a, O, Z, K> {
    /// A screen on a terminal, with its keyboard, and the words for silence: each part up to a semicolon begins a row.
    pub fn new(terminal: Terminal<'a, O>, sizes: Z, keyboard: K, silence: String) -> Self
        ensures { result.terminal ≡ terminal.entry }
    {
        Screen {
            terminal,
            sizes,
            keyboard,
            decoder: Decoder::new(),
            silence: Some(silence),
        }
    }

    /// From now on this is said in the row below all else.
    pub fn note_words(&mut self, words: String)
        ensures { self.new.terminal.view ≡ self.old.terminal.view }
    {
        self.terminal.note_words(words);
    }

    /// Takes the keys that are there, at a moment in milliseconds.
    ///
    /// Errors: OutOfMemory.
    pub fn take_keys(&mut self, now: u64) -> Result<(), WatchFault>
        ensures { KeepsShowing self.old.terminal self.new.terminal }
    {
        let mut octets = [0; MAX_KEYS];
        let count = count_of(self.keyboard.read(&mut octets));
        self.terminal.tell_keys(keys_of(&self.keyboard));
        for place in 0..count {
            if let Some(key) = self.decoder.take(octets[place]) {
                self.press(now, key)?;
            }
        }
        Ok(())
    }

    // A key is pressed: it steers the screen, or ends what is watched.
    fn press(&mut self, now: u64, key: Key) -> Result<(), WatchFault>
        ensures { KeepsShowing self.old.terminal self.new.terminal }
    {
        if !ends(key) {
            return self.terminal.press(now, key);
        }
        if self.keyboard.may_leave() {
            self.keyboard.leave();
        } else {
            self.terminal.refuse_end();
        }
        Ok(())
    }

    // Gives the terminal its size, and once it is time the words for silence.
    fn prepare(&mut self, now: u64)
        ensures { self.new.terminal.view ≡ self.old.terminal.view }
    {
        if let Some(size) = self.sizes.size(now) {
            self.terminal.resize(size);
        }
        if now < SILENT_START {
            return;
        }
        if let Some(words) = self.silence.take() {
            self.terminal.note_silence(words);
        }
    }
}

impl<'a, O: Write, Z: Sizes, K: Keyboard> Watcher for Screen<'a, O, Z, K> {
    ghost use Rattle.sacn_watch.specs.Screens.{IsShowing};

    ghost Handed = { λ screen calls. IsShowing calls screen.terminal };

    fn take(
        &mut self,
        now: u64,
        sender: Endpoint,
        reading: &Reading<'_>,
    ) -> Result<(), WatchFault> {
        self.terminal.take(now, sender, reading)
    }

    fn note_stop(&mut self, now: u64, millis: u64) -> Result<(), WatchFault> {
        self.terminal.note_stop(now, millis)
    }

    fn show(&mut self, now: u64) -> Result<(), WatchFault> {
        self.prepare(now);
        self.take_keys(now)?;
        self.terminal.show(now)
    }

    fn wakes(&self) -> u64 {
        match self.silence {
            Some(_) => self.terminal.wakes().min(SILENT_START),
            None => self.terminal.wakes(),
        }
    }

    fn end(&mut self, now: u64) -> Result<(), WatchFault> {
        self.terminal.end(now)?;
        self.terminal.leave(now)
    }
}

// How many octets of keys were read.
fn count_of(typed: Typed) -> usize
    ensures { result ≤ MAX_KEYS }
{
    match typed {
        Typed::Octets(count) => count.min(MAX_KEYS),
        Typed::Nothing => 0,
        Typed::End => 0,
    }
}

// Whether a key ends what is watched.
fn ends(key: Key) -> bool {
    (key == Key::Letter(b'q')) | (key == Key::Letter(b'Q'))
}

// Which keys a terminal tells.
fn keys_of<K: Keyboard>(keyboard: &K) -> ToldKeys {
    if !keyboard.is_open() {
        ToldKeys::Absent
    } else if keyboard.may_leave() {
        ToldKeys::All
    } else {
        ToldKeys::Steering
    }
}
