//! Lines as they are written.

ghost use Rattle.std.specs.Prelude.{◌≡◌, ◌++◌, [], OnOk, nat_lt, string_bytes, codes};
ghost use Rattle.sacn_tell.specs.Causes.{reason_of};
ghost use Rattle.sacn_tell.specs.Lines.{frame_line, kept_list, listing_line, rivals_line, stop_line};
ghost use Rattle.sacn_tell.specs.PacketLines.{anew_line, loss_line, moved_line, refused_line, renamed_line, skipped_line, untracked_line};

use crate::account_lines::{frame_line, listing_line, rivals_line, stop_line};
use crate::cause::Cause;
use crate::fault::TellFault;
use crate::listings::Listing;
use crate::options::Form;
use crate::packet_lines::{
    anew_line, event_line, loss_line, moved_line, omission_line, priority_line, refused_line,
    renamed_line, skipped_line, untracked_line,
};
use sacn_monitor::{Change, Endpoint, News, Stream, StreamEvent};
use sacn_node::PortFrame;
use sacn_packets::PacketFault;
use std::alloc::Global;
use std::io::Write;

/// Writes a line for each thing that happened. One line is kept in memory.
#[derive(Drop)]
pub struct Teller<'o, O> {
    pub form: Form,
    pub line: String,
    out: &'o mut O,
}

impl<'o, O: Write> Teller<'o, O> {
    ghost use Rattle.sacn_tell.specs.Tellings.{Tells, with_line_end, event_told, news_told, omission_told, priority_told, shown_in, where_so};

    /// A teller that has told nothing.
    pub fn new(alloc: Global, form: Form, out: &'o mut O) -> Self
        ensures form { result.form ≡ form }
        ensures line { string_bytes result.line ≡ [] }
        ensures out { result.out.ghost_name ≡ out.entry.ghost_name }
        ensures nothing { result.out.now ≡ out.old }
    {
        Teller {
            form,
            line: String::new(alloc),
            out,
        }
    }

    /// Ends the line, and writes it.
    pub fn write(&mut self) -> Result<(), TellFault>
        ensures told { OnOk result (Tells O.contents self.old self.new (codes "\n")) }
        ensures line { OnOk result (string_bytes self.new.line ≡ []) }
    {
        self.line.push('\n')?;
        self.out.write_all(self.line.as_bytes())?;
        self.line.clear();
        Ok(())
    }

    /// All that a data packet told, a line for each thing.
    pub fn tell_news(&mut self, now: u64, stream: &Stream, news: &News) -> Result<(), TellFault>
        ensures { OnOk result
            (Tells O.contents self.old self.new (news_told self.old.form now stream.now news.now)) }
    {
        self.tell_event(now, stream, news.event)?;
        self.tell_move(now, stream, news.moved)?;
        self.tell_name(now, stream, news.renamed)?;
        self.tell_priority(now, stream, news.priority)?;
        self.tell_restart(now, stream, news.began_anew)?;
        self.tell_omission(now, stream, news.leaves_out)?;
        self.tell_gap(now, stream, news)
    }

    #[tactic(auto, unfolding(crate::specs::Tellings::event_told))]
    fn tell_event(&mut self, now: u64, stream: &Stream, event: StreamEvent) -> Result<(), TellFault>
        ensures { OnOk result
            (Tells O.contents self.old self.new (event_told self.old.form now stream.now event)) }
    {
        if event == StreamEvent::GoesOn {
            return Ok(());
        }
        event_line(&mut self.line, self.form, now, stream, event)?;
        self.write()
    }

    fn tell_move(&mut self, now: u64, stream: &Stream, has_moved: bool) -> Result<(), TellFault>
        ensures { OnOk result (Tells O.contents self.old self.new
            (where_so has_moved (moved_line self.old.form now stream.now))) }
    {
        if !has_moved {
            return Ok(());
        }
        moved_line(&mut self.line, self.form, now, stream)?;
        self.write()
    }

    fn tell_name(&mut self, now: u64, stream: &Stream, is_renamed: bool) -> Result<(), TellFault>
        ensures { OnOk result (Tells O.contents self.old self.new
            (where_so is_renamed (renamed_line self.old.form now stream.now))) }
    {
        if !is_renamed {
            return Ok(());
        }
        renamed_line(&mut self.line, self.form, now, stream)?;
        self.write()
    }

    fn tell_priority(
        &mut self,
        now: u64,
        stream: &Stream,
        change: Option<Change>,
    ) -> Result<(), TellFault>
        ensures { OnOk result (Tells O.contents self.old self.new
            (priority_told self.old.form now stream.now change)) }
    {
        let Some(change) = change else {
            return Ok(());
        };
        priority_line(&mut self.line, self.form, now, stream, change)?;
        self.write()
    }

    fn tell_restart(&mut self, now: u64, stream: &Stream, began_anew: bool) -> Result<(), TellFault>
        ensures { OnOk result (Tells O.contents self.old self.new
            (where_so began_anew (anew_line self.old.form now stream.now))) }
    {
        if !began_anew {
            return Ok(());
        }
        anew_line(&mut self.line, self.form, now, stream)?;
        self.write()
    }

    fn tell_omission(
        &mut self,
        now: u64,
        stream: &Stream,
        number: Option<u8>,
    ) -> Result<(), TellFault>
        ensures { OnOk result (Tells O.contents self.old self.new
            (omission_told self.old.form now stream.now number)) }
    {
        let Some(number) = number else {
            return Ok(());
        };
        omission_line(&mut self.line, self.form, now, stream, number)?;
        self.write()
    }

    fn tell_gap(&mut self, now: u64, stream: &Stream, news: &News) -> Result<(), TellFault>
        ensures { OnOk result
            (Tells O.contents self.old self.new (where_so (nat_lt 0 news.now.skipped)
            (skipped_line self.old.form now stream.now news.now.skipped))) }
    {
        if news.skipped == 0 {
            return Ok(());
        }
        skipped_line(&mut self.line, self.form, now, stream, news)?;
        self.write()
    }

    /// A stream that is lost.
    pub fn tell_loss(&mut self, now: u64, stream: &Stream) -> Result<(), TellFault>
        ensures { OnOk result
            (Tells O.contents self.old self.new (with_line_end (loss_line self.old.form now stream.now))) }
    {
        loss_line(&mut self.line, self.form, now, stream)?;
        self.write()
    }

    /// A datagram that is no packet.
    pub fn tell_refusal(
        &mut self,
        now: u64,
        sender: &Endpoint,
        fault: PacketFault,
    ) -> Result<(), TellFault>
        ensures { OnOk result (Tells O.contents self.old self.new
            (with_line_end (refused_line self.old.form now sender.now fault))) }
    {
        refused_line(&mut self.line, self.form, now, sender, fault)?;
        self.write()
    }

    /// A data packet of a stream for which there is no room.
    pub fn tell_untracked(&mut self, now: u64, sender: &Endpoint) -> Result<(), TellFault>
        ensures { OnOk result (Tells O.contents self.old self.new
            (with_line_end (untracked_line self.old.form now sender.now))) }
    {
        untracked_line(&mut self.line, self.form, now, sender)?;
        self.write()
    }

    /// A stop of this program, of so many milliseconds.
    pub fn tell_stop(&mut self, now: u64, millis: u64) -> Result<(), TellFault>
        ensures { OnOk result
            (Tells O.contents self.old self.new (with_line_end (stop_line self.old.form now millis))) }
    {
        stop_line(&mut self.line, self.form, now, millis)?;
        self.write()
    }

    /// How many sources send at the top priority of a universe.
    pub fn tell_rivals(
        &mut self,
        now: u64,
        universe: u16,
        sources: usize,
        priority: u8,
    ) -> Result<(), TellFault>
        ensures { OnOk result (Tells O.contents self.old self.new
            (with_line_end (rivals_line self.old.form now universe sources priority))) }
    {
        rivals_line(&mut self.line, self.form, now, universe, sources, priority)?;
        self.write()
    }

    /// A list of universes, which is another one than before.
    pub fn tell_listing(
        &mut self,
        now: u64,
        event: &str,
        listing: &Listing,
    ) -> Result<(), TellFault>
        ensures { OnOk result (Tells O.contents self.old self.new
            (with_line_end (listing_line self.old.form now event.now (kept_list listing.now)))) }
    {
        listing_line(&mut self.line, self.form, now, event, listing)?;
        self.write()
    }

    /// A frame of a port with its cause, and its line as a node writes it.
    pub fn tell_frame(
        &mut self,
        now: u64,
        port: &PortFrame,
        cause: &Cause<'_>,
        line: &[u8],
    ) -> Result<(), TellFault>
        ensures { OnOk result (Tells O.contents self.old self.new (with_line_end (frame_line self.old.form
            now port.now (reason_of cause.now)) ++ shown_in self.old.form line.now)) }
    {
        frame_line(&mut self.line, self.form, now, port, cause)?;
        self.write()?;
        self.pass(line)
    }

    // Writes what a node wrote, where it is told for people.
    fn pass(&mut self, line: &[u8]) -> Result<(), TellFault>
        ensures { string_bytes self.old.line ≡ []
            → OnOk result (Tells O.contents self.old self.new (shown_in self.old.form line.now)) }
    {
        match self.form {
            Form::Text => {
                self.out.write_all(line)?;
                Ok(())
            }
            Form::Json => Ok(()),
        }
    }
}
