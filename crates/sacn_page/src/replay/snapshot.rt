//! A replay as it was at a place of its recording.

ghost use Rattle.std.specs.Prelude.{◌≡◌, ℕ, IfOk};
ghost use Rattle.sacn_capture.specs.Streams.{left_in, place_of_reading};
ghost use Rattle.sacn_page.specs.Boards.{IsSameBoard};
ghost use Rattle.sacn_page.specs.Replays.{snapshot_shows, will_show};

use super::{Next, Replay};
use crate::board::Board;
use crate::scene::SeekFault;
use sacn_capture::{Bookmark, Capture};
use sacn_tell::Timeline;
use std::alloc::{AllocError, Global};
use std::io::BufRead;

/// A replay as it was at a place of its recording. It keeps no octets but those of the datagram that was read last.
#[derive(Drop)]
pub struct Snapshot {
    bookmark: Bookmark,
    board: Board,
    clock: Timeline,
    next: Next,
    octets: Vec<u8>,
    shown: u64,
}

impl Snapshot {
    /// How many octets of the recording are before it.
    pub fn offset(&self) -> u64
        ensures { result ≡ self.now.bookmark.at }
    {
        self.bookmark.offset()
    }

    /// The moment that it shows.
    pub fn moment_shown(&self) -> u64
        ensures { result ≡ self.now.shown }
    {
        self.shown
    }

    /// What was known at that moment.
    pub fn board(&self) -> &Board
        ensures { result.now ≡ self.now.board }
    {
        &self.board
    }
}

impl<R: BufRead + Drop> Replay<R> {
    /// This replay as it is. At each moment it will show what this one will, where the same octets are behind it.
    ///
    /// Errors: OutOfMemory.
    pub fn snapshot(&self) -> Result<Snapshot, AllocError>
        ensures place { IfOk result (λ kept. kept.bookmark.at
            ≡ place_of_reading self.now.capture) }
        ensures moment { IfOk result (λ kept. kept.shown ≡ self.now.shown) }
        ensures board { IfOk result (λ kept. IsSameBoard self.now.board kept.board) }
        ensures shows { (later : ℕ) → IfOk result (λ kept.
            snapshot_shows later self.now.port (left_in R.Read.remaining self.now.capture) kept
            ≡ will_show R.Read.remaining later self.now) }
    {
        Ok(Snapshot {
            bookmark: self.capture.bookmark()?,
            board: self.board.clone()?,
            clock: self.clock,
            next: self.next,
            octets: self.octets.clone()?,
            shown: self.shown,
        })
    }

    /// A replay that goes on from a snapshot, by a reader that gives the octets of the recording behind it. Datagrams to this UDP
    /// port are followed, as before it. Then each moment shows what it would have shown.
    ///
    /// Errors: OutOfMemory.
    pub fn resume(
        alloc: Global,
        reader: R,
        port: u16,
        snapshot: &Snapshot,
    ) -> Result<Self, SeekFault>
        ensures moment { IfOk result (λ replay. replay.shown ≡ snapshot.now.shown) }
        ensures board { IfOk result (λ replay. IsSameBoard snapshot.now.board replay.board) }
        ensures shows { (later : ℕ) → IfOk result (λ replay. will_show R.Read.remaining later replay
            ≡ snapshot_shows later port (R.Read.remaining reader) snapshot.now) }
    {
        Ok(Replay {
            capture: Capture::resume(alloc, reader, &snapshot.bookmark)?,
            port,
            board: snapshot.board.clone()?,
            clock: snapshot.clock,
            next: snapshot.next,
            octets: snapshot.octets.clone()?,
            shown: snapshot.shown,
        })
    }
}
