//! Which rules of E1.31 the packets of a recording break.
use crate::auditing::{findings_of, hear};
use crate::explain::{ROOM, form_of, say_capture_fault, say_unread};
use sacn_audit::Audit;
use sacn_capture::{Capture, CaptureFault, FrameCounts};
use sacn_commands::ending::{Ending, of_write};
use sacn_packets::read_packet;
use sacn_tell::{Form, Timeline, begin_object, has_unread, unread_members, unread_text};
use sacn_words::STANDARD_INPUT;
use std::alloc::{AllocError, Global};
use std::fs;
use std::io::{BufRead, BufReader, Read, Write};
use std::rt::Files;

/// What is asked of a recording.
#[derive(Clone, Copy)]
pub struct AuditOf<'a> {
    pub capture: &'a str,
    /// The UDP port of the datagrams that are looked at.
    pub port: u16,
    /// Whether what is found is objects of JSON, one a line, and not text.
    pub is_json: bool,
}

/// An audit of a recording up to its end, or to what is wrong with it.
#[derive(Drop)]
struct Audited {
    audit: Audit,
    /// Its frames, by what they were.
    frames: FrameCounts,
    /// The moment of the last frame, in milliseconds from the first.
    length: u64,
    stopped: Option<CaptureFault>,
}

/// Tells for each source of a recording which rules its packets break. What comes before a fault of the recording is told.
pub fn tell<R: AllocGlobal + Files, I: Read + Drop, O: Write, E: Write>(
    rt: &R,
    asked: AuditOf<'_>,
    input: &mut I,
    out: &mut O,
    err: &mut E,
) -> Result<(), Ending> {
    if asked.capture == STANDARD_INPUT {
        let audited = audit_of(rt.alloc(), asked, input, err)?;
        return tell_audited(rt.alloc(), asked, &audited, out, err);
    }
    let Ok(file) = fs::open(rt, asked.capture) else {
        return Err(say_unread(asked.capture, err));
    };
    let audited = audit_of(rt.alloc(), asked, file, err)?;
    tell_audited(rt.alloc(), asked, &audited, out, err)
}

fn audit_of<I: Read + Drop, E: Write>(
    alloc: Global,
    asked: AuditOf<'_>,
    input: I,
    err: &mut E,
) -> Result<Audited, Ending> {
    let mut audit = Audit::new(alloc)?;
    let Ok(reader) = BufReader::with_capacity(alloc, ROOM, input) else {
        return Err(Ending::OutOfMemory);
    };
    match Capture::open(alloc, reader) {
        Ok(mut capture) => {
            let mut timeline = Timeline::begin();
            let stopped = follow(&mut capture, &mut audit, &mut timeline, asked.port);
            Ok(Audited {
                audit,
                frames: capture.counts(),
                length: timeline.now,
                stopped,
            })
        }
        Err(fault) => Err(say_capture_fault(asked.capture, fault, err)),
    }
}

// Hands an audit the packets of a recording up to its end, or to what is wrong with it.
fn follow<I: BufRead + Drop>(
    capture: &mut Capture<I>,
    audit: &mut Audit,
    timeline: &mut Timeline,
    port: u16,
) -> Option<CaptureFault> {
    // (no device holds so many frames)
    for _ in 0..u64::MAX {
        match capture.next() {
            Ok(Some(frame)) => {
                timeline.advance(frame.moment);
                match &frame.content {
                    Ok(datagram) if datagram.destination_port == port => {
                        let reading = read_packet(datagram.payload);
                        hear(
                            audit,
                            timeline.now,
                            datagram.sender,
                            datagram.destination,
                            &reading,
                        );
                    }
                    _ => {}
                }
            }
            Ok(None) => return None,
            Err(fault) => return Some(fault),
        }
    }
    None
}

fn tell_audited<O: Write, E: Write>(
    alloc: Global,
    asked: AuditOf<'_>,
    audited: &Audited,
    out: &mut O,
    err: &mut E,
) -> Result<(), Ending> {
    let mut text = findings_of(alloc, &audited.audit, form_of(asked.is_json))?;
    push_frames(&mut text, audited, form_of(asked.is_json))?;
    of_write(out.write_all(text.as_str().as_bytes()))?;
    of_write(out.flush())?;
    match audited.stopped {
        Some(fault) => Err(say_capture_fault(asked.capture, fault, err)),
        None => Ok(()),
    }
}

// Which frames of the recording couldn't be read, where there are such.
fn push_frames(text: &mut String, audited: &Audited, form: Form) -> Result<(), AllocError> {
    if !has_unread(&audited.frames) {
        return Ok(());
    }
    match form {
        Form::Json => {
            begin_object(text, audited.length, "unread_frames")?;
            unread_members(text, &audited.frames)?;
            text.push_str("}\n")
        }
        Form::Text => {
            unread_text(text, &audited.frames)?;
            text.push('\n')
        }
    }
}
