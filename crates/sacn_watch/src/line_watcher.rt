//! A line for each thing that happens.

ghost use Rattle.std.specs.Prelude.{◌≡◌};
ghost use Rattle.sacn_network.specs.LightEnds.{first_end};

use crate::fault::WatchFault;
use crate::watch::Watcher;
use sacn_capture::FrameCounts;
use sacn_monitor::Endpoint;
use sacn_packets::Reading;
use sacn_tell::{Follower, Report};
use std::io::Write;

/// Tells each thing as it happens, and tables at the end, as a recording is told.
impl<'a, O: Write> Watcher for Follower<'a, O> {
    ghost use Rattle.sacn_tell.specs.Following.{IsFollowing};

    ghost Handed = { λ follower calls. IsFollowing calls follower };

    fn take(
        &mut self,
        now: u64,
        sender: Endpoint,
        reading: &Reading<'_>,
    ) -> Result<(), WatchFault> {
        self.take_reading(now, sender, reading)?;
        Ok(())
    }

    fn note_stop(&mut self, now: u64, millis: u64) -> Result<(), WatchFault> {
        self.tell_stop(now, millis)?;
        Ok(())
    }

    fn show(&mut self, now: u64) -> Result<(), WatchFault> {
        self.tick(now)?;
        Ok(())
    }

    fn wakes(&self) -> u64
        ensures { result ≡ first_end self.now.network.monitor }
    {
        self.next_end()
    }

    fn end(&mut self, now: u64) -> Result<(), WatchFault> {
        self.tick(now)?;
        let mut frames = FrameCounts::new();
        frames.datagrams = self.tally().datagrams;
        let report = Report {
            frames,
            tally: *self.tally(),
            pages_passed: self.pages_passed(),
            other_ports: 0,
            went_back: 0,
            streams: self.streams().len(),
            length: now,
        };
        self.finish(&report)?;
        Ok(())
    }
}
