//! Lines that are posted to a desk from elsewhere than standard input, and the answers to them.
use std::alloc::{AllocError, Global};
use std::cell::RefCell;
use std::io::{self, Write};
use std::os::fd::RawFd;

/// The most lines that wait.
pub const MAX_POSTED: usize = 16;

/// The most octets of a posted line.
pub const MAX_POSTED_OCTETS: usize = 512;

/// The most octets that are kept of an answer.
pub const MAX_POSTED_ANSWER: usize = 4096;

/// A line that was posted.
#[derive(Clone, Copy)]
pub(crate) struct PostedLine {
    ticket: u64,
    len: usize,
    octets: [u8; MAX_POSTED_OCTETS],
}

impl PostedLine {
    fn of(ticket: u64, text: &[u8]) -> PostedLine {
        let mut line = PostedLine {
            ticket,
            len: text.len().min(MAX_POSTED_OCTETS),
            octets: [0; MAX_POSTED_OCTETS],
        };
        for (place, octet) in line.octets.iter_mut().zip(text) {
            *place = *octet;
        }
        line
    }

    /// Its octets.
    pub(crate) fn text(&self) -> &[u8] {
        &self.octets[..self.len.min(MAX_POSTED_OCTETS)]
    }
}

/// What a desk tells of itself beside its core.
#[derive(Clone, Copy)]
pub struct DeskState {
    /// The cue that was gone to last.
    pub cue: Option<u16>,
    /// The cue that `go` goes to.
    pub next: Option<u16>,
    /// The grand master, 0 to 65535.
    pub master: u16,
    /// How long a fade still runs, in milliseconds.
    pub fade_left: u64,
}

/// An answer that was given to a posted line.
#[derive(Clone, Copy)]
pub struct PostedAnswer {
    /// The ticket of the line.
    pub ticket: u64,
    /// It was longer than what is kept of it.
    pub is_cut: bool,
}

/// Why a line isn't posted.
#[derive(Clone, Copy, PartialEq, Eq, Debug)]
pub enum PostFault {
    /// Too many wait, or it is too long.
    NoRoom,
    /// The desk ends, and obeys no further line.
    Ending,
}

/// How far the line is that was taken last.
#[derive(Clone, Copy, PartialEq, Eq)]
enum Work {
    /// It was answered, and the answer was taken.
    Nothing,
    /// It is being obeyed.
    Obeyed,
    /// It was answered.
    Answered,
}

#[derive(Drop)]
struct Post {
    lines: Vec<PostedLine>,
    /// How many lines were posted.
    posted: u64,
    /// The desk ends, and no further line is taken.
    is_closed: bool,
    work: Work,
    latest: PostedAnswer,
    /// What is written now belongs to the answer.
    is_kept: bool,
    answer: Vec<u8>,
    state: DeskState,
}

impl Post {
    fn add(&mut self, text: &[u8]) -> Result<u64, PostFault> {
        if self.is_closed {
            return Err(PostFault::Ending);
        }
        if self.lines.len() >= MAX_POSTED || text.len() > MAX_POSTED_OCTETS {
            return Err(PostFault::NoRoom);
        }
        let ticket = self.posted;
        match self.lines.push(PostedLine::of(ticket, text)) {
            Ok(()) => {
                self.posted = ticket.saturating_add(1);
                Ok(ticket)
            }
            Err(_) => Err(PostFault::NoRoom),
        }
    }

    // No line is obeyed any more but the one that is in work.
    fn close(&mut self) {
        self.is_closed = true;
        self.lines.clear();
    }

    // Whether a line that was posted, and whose answer wasn't taken, won't be obeyed.
    fn has_dropped(&self, ticket: u64) -> bool {
        let is_taken = self.work != Work::Nothing && self.latest.ticket == ticket;
        self.is_closed && !is_taken
    }

    fn take(&mut self) -> Option<PostedLine> {
        if self.work != Work::Nothing || self.lines.is_empty() {
            return None;
        }
        let line = self.lines.remove(0);
        self.work = Work::Obeyed;
        self.answer.clear();
        self.latest = PostedAnswer {
            ticket: line.ticket,
            is_cut: false,
        };
        Some(line)
    }

    fn finish(&mut self) {
        self.is_kept = false;
        if self.work == Work::Obeyed {
            self.work = Work::Answered;
        }
    }

    fn keep(&mut self, octets: &[u8]) {
        if !self.is_kept {
            return;
        }
        let room = MAX_POSTED_ANSWER.saturating_sub(self.answer.len());
        let kept = &octets[..octets.len().min(room)];
        let is_whole = self.answer.extend_from_slice(kept).is_ok();
        if !is_whole || kept.len() < octets.len() {
            self.latest.is_cut = true;
        }
    }

    fn take_answer(&mut self, text: &mut Vec<u8>) -> Option<PostedAnswer> {
        if self.work != Work::Answered {
            return None;
        }
        self.work = Work::Nothing;
        text.clear();
        let mut answer = self.latest;
        if text.extend_from_slice(self.answer.as_slice()).is_err() {
            answer.is_cut = true;
        }
        Some(answer)
    }
}

/// Lines for a desk from elsewhere, which are obeyed one after another as typed ones are, and the answer to the one that was obeyed last. The
/// next one is taken once that was taken.
#[derive(Drop)]
pub struct Postbox {
    descriptor: RawFd,
    post: RefCell<Post>,
}

impl Postbox {
    /// A postbox without a line. Where this descriptor can be read, lines may come.
    ///
    /// Errors: OutOfMemory.
    pub fn new(alloc: Global, descriptor: RawFd) -> Result<Postbox, AllocError> {
        let post = Post {
            lines: Vec::with_capacity(alloc, MAX_POSTED)?,
            posted: 0,
            is_closed: false,
            work: Work::Nothing,
            latest: PostedAnswer {
                ticket: 0,
                is_cut: false,
            },
            is_kept: false,
            answer: Vec::with_capacity(alloc, MAX_POSTED_ANSWER)?,
            state: DeskState {
                cue: None,
                next: None,
                master: 0,
                fade_left: 0,
            },
        };
        Ok(Postbox {
            descriptor,
            post: RefCell::new(post),
        })
    }

    /// Where this can be read, lines may come.
    pub(crate) fn descriptor(&self) -> RawFd {
        self.descriptor
    }

    /// Posts a line of at most `MAX_POSTED_OCTETS` octets, without its end. Returns its ticket.
    ///
    /// Errors: NoRoom where too many wait, it is too long, or memory is refused; Ending where the desk ends.
    pub fn post(&self, line: &[u8]) -> Result<u64, PostFault> {
        match self.post.try_borrow_mut() {
            Ok(mut post) => post.add(line),
            Err(_) => Err(PostFault::NoRoom),
        }
    }

    /// Whether the line of a ticket, whose answer wasn't taken, won't be obeyed, since the desk ends.
    pub fn has_dropped(&self, ticket: u64) -> bool {
        match self.post.try_borrow() {
            Ok(post) => post.has_dropped(ticket),
            Err(_) => false,
        }
    }

    /// The desk ends: of the lines that were posted only the one that is in work is still obeyed.
    pub(crate) fn close(&self) {
        if let Ok(mut post) = self.post.try_borrow_mut() {
            post.close();
        }
    }

    /// Takes the answer to the line that was obeyed last, in place of what this text was; None where there is none that wasn't taken.
    pub fn take_answer(&self, text: &mut Vec<u8>) -> Option<PostedAnswer> {
        match self.post.try_borrow_mut() {
            Ok(mut post) => post.take_answer(text),
            Err(_) => None,
        }
    }

    /// What the desk told of itself last; None where that can't be read.
    pub fn state(&self) -> Option<DeskState> {
        match self.post.try_borrow() {
            Ok(post) => Some(post.state),
            Err(_) => None,
        }
    }

    /// Whether a line waits.
    pub(crate) fn is_waiting(&self) -> bool {
        match self.post.try_borrow() {
            Ok(post) => !post.lines.is_empty(),
            Err(_) => false,
        }
    }

    /// Whether a line can be taken.
    pub(crate) fn has_line(&self) -> bool {
        match self.post.try_borrow() {
            Ok(post) => post.work == Work::Nothing && !post.lines.is_empty(),
            Err(_) => false,
        }
    }

    /// The next line, unless the answer to the one before wasn't taken.
    pub(crate) fn take(&self) -> Option<PostedLine> {
        match self.post.try_borrow_mut() {
            Ok(mut post) => post.take(),
            Err(_) => None,
        }
    }

    /// From now on what is written is the answer to the line that was taken.
    pub(crate) fn begin_answer(&self) {
        if let Ok(mut post) = self.post.try_borrow_mut() {
            post.is_kept = true;
        }
    }

    /// The line that was taken, if any, was answered.
    pub(crate) fn end_answer(&self) {
        if let Ok(mut post) = self.post.try_borrow_mut() {
            post.finish();
        }
    }

    /// Tells what the desk is now.
    pub(crate) fn tell(&self, state: DeskState) {
        if let Ok(mut post) = self.post.try_borrow_mut() {
            post.state = state;
        }
    }

    fn keep(&self, octets: &[u8]) {
        if let Ok(mut post) = self.post.try_borrow_mut() {
            post.keep(octets);
        }
    }
}

/// An output of a desk. What answers a posted line is kept for it too.
#[derive(Drop)]
pub struct PostedWriter<'a, W> {
    out: W,
    postbox: Option<&'a Postbox>,
}

impl<'a, W: Write> PostedWriter<'a, W> {
    /// An output to which nothing was written. Without a postbox it hands on what it is given.
    pub fn new(out: W, postbox: Option<&'a Postbox>) -> PostedWriter<'a, W> {
        PostedWriter { out, postbox }
    }
}

impl<'a, W: Write> Write for PostedWriter<'a, W> {
    fn write(&mut self, octets: &[u8]) -> io::Result<usize> {
        let count = self.out.write(octets)?;
        if let Some(postbox) = self.postbox {
            postbox.keep(&octets[..count.min(octets.len())]);
        }
        Ok(count)
    }

    fn flush(&mut self) -> io::Result<()> {
        self.out.flush()
    }
}
