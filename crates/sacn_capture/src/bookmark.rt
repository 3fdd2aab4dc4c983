//! A place in a recording, at which its reading goes on later.

ghost use Rattle.std.specs.Prelude.{◌≡◌, IfOk};
ghost use Rattle.sacn_capture.specs.Bookmarks.{behind, state_at};
ghost use Rattle.sacn_capture.specs.Streams.{counts_of, left_in, place_of_reading, state_of, to_come};

use crate::buffer::Buffer;
use crate::faults::{CaptureFault, FaultKind};
use crate::frame_counts::FrameCounts;
use crate::headers::Format;
use crate::input::Input;
use crate::interface::Described;
use crate::pieces::{MAX_INTERFACES, Pieces};
use crate::stream::Capture;
use std::alloc::{AllocError, Global};
use std::io::BufRead;

/// A place in a recording that was read up to there, with what was said before it of what comes. It keeps no octets.
#[derive(Drop)]
pub struct Bookmark {
    at: u64,
    format: Format,
    interfaces: Vec<Described>,
    moment: Option<u64>,
    mark: u64,
    counts: FrameCounts,
    stopped: Option<CaptureFault>,
}

impl Bookmark {
    /// How many octets of the recording are before it.
    pub fn offset(&self) -> u64
        ensures { result ≡ self.now.at }
    {
        self.at
    }
}

impl<R: BufRead> Capture<R> {
    /// The place where the reading stands. What comes behind it is what is to come of the recording.
    ///
    /// Errors: a request for memory was refused.
    pub fn bookmark(&self) -> Result<Bookmark, AllocError>
        ensures place { IfOk result (λ mark. mark.at ≡ place_of_reading self.now) }
        ensures counts { IfOk result (λ mark. mark.counts ≡ counts_of self.now) }
        ensures told { IfOk result (λ mark. behind mark (left_in R.Read.remaining self.now)
            ≡ to_come R.Read.remaining self.now) }
    {
        let pieces = &self.pieces;
        Ok(Bookmark {
            at: pieces.input.at,
            format: pieces.format,
            interfaces: pieces.interfaces.clone()?,
            moment: pieces.moment,
            mark: self.mark,
            counts: self.counts,
            stopped: self.stopped,
        })
    }
}

impl<R: BufRead + Drop> Capture<R> {
    /// A recording whose reading goes on at a bookmark, by a reader that gives the octets from there on.
    ///
    /// Errors: OutOfMemory, at octet 0.
    pub fn resume(alloc: Global, reader: R, bookmark: &Bookmark) -> Result<Self, CaptureFault>
        ensures place { IfOk result (λ capture. place_of_reading capture ≡ bookmark.now.at) }
        ensures counts { IfOk result (λ capture. counts_of capture ≡ bookmark.now.counts) }
        ensures told { IfOk result (λ capture. to_come R.Read.remaining capture
            ≡ behind bookmark.now (R.Read.remaining reader)) }
    {
        let pieces = pieces_at(alloc, reader, bookmark).map_err(|kind| CaptureFault {
            at: 0,
            kind,
        })?;
        Ok(Capture {
            pieces,
            mark: bookmark.mark,
            counts: bookmark.counts,
            stopped: bookmark.stopped,
        })
    }
}

// The pieces behind a bookmark.
fn pieces_at<R: BufRead + Drop>(
    alloc: Global,
    reader: R,
    bookmark: &Bookmark,
) -> Result<Pieces<R>, FaultKind>
    ensures state { IfOk result (λ pieces. state_of pieces ≡ state_at bookmark.now) }
    ensures place { IfOk result (λ pieces. pieces.input ≡ record { reader = reader; at = bookmark.now.at }) }
{
    let buffer = Buffer::new(alloc)?;
    let mut interfaces = Vec::with_capacity(alloc, MAX_INTERFACES)?;
    interfaces.extend_from_slice(bookmark.interfaces.as_slice())?;
    Ok(Pieces {
        input: Input {
            reader,
            at: bookmark.at,
        },
        format: bookmark.format,
        interfaces,
        buffer,
        moment: bookmark.moment,
    })
}
