//! Incidents of a network, told as they pass.

use crate::gatherer::Gatherer;
use sacn_capture::FrameCounts;
use sacn_monitor::{Endpoint, Monitor};
use sacn_network::Network;
use sacn_packets::Reading;
use sacn_tell::{ExplainFault, Listings, Options, Report, TellFault};
use std::alloc::Global;
use std::io::Write;

/// Tells what each source does on a network, once for all its universes: an incident a line or an object, once its second has passed.
///
/// Moments are in milliseconds, and each is no earlier than the one before.
#[derive(Drop)]
pub struct LiveDigest<'a, O> {
    network: Network,
    listings: Listings,
    gatherer: Gatherer<'a, O>,
}

impl<'a, O: Write> LiveDigest<'a, O> {
    /// Nothing was heard yet.
    ///
    /// Errors: OutOfMemory.
    pub fn new(alloc: Global, options: Options<'a>, out: &'a mut O) -> Result<Self, ExplainFault> {
        let network = Network::new(alloc)?;
        let gatherer = Gatherer::new(alloc, options, out)?;
        Ok(LiveDigest {
            network,
            listings: Listings::new(alloc),
            gatherer,
        })
    }

    /// From now on each thing that happens on a universe is told too, as it happens, and each source's list.
    pub fn tell_each(&mut self) {
        self.gatherer.tell_each();
    }

    /// Takes what a datagram was read as that came at a moment from a sender.
    ///
    /// Errors: OutOfMemory; Device where a line can't be written.
    pub fn take(
        &mut self,
        now: u64,
        sender: Endpoint,
        reading: &Reading<'_>,
    ) -> Result<(), TellFault> {
        self.network.take(now, sender, reading, &mut self.gatherer);
        self.gatherer.settle()?;
        self.gatherer.take_page(now, reading, &mut self.listings)
    }

    /// Time passes: what ends by silence is a part of incidents, and those that have passed are told.
    ///
    /// Errors: OutOfMemory; Device where a line can't be written.
    pub fn tick(&mut self, now: u64) -> Result<(), TellFault> {
        self.network.tick(now, &mut self.gatherer);
        self.gatherer.settle()?;
        self.gatherer.pass(now, self.network.monitor().streams())
    }

    /// The moment at which there is something to tell, where nothing comes; `u64::MAX` where there never is.
    pub fn wakes(&self) -> u64 {
        self.network.next_end().min(self.gatherer.next_pass())
    }

    /// Tells that this program was stopped for so many milliseconds, in which it heard nothing. No account changes, and nothing
    /// ends.
    ///
    /// Errors: OutOfMemory; Device where a line can't be written.
    pub fn tell_stop(&mut self, now: u64, millis: u64) -> Result<(), TellFault> {
        self.gatherer.tell_stop(now, millis)
    }

    /// Tells the incidents that are still open.
    ///
    /// Errors: OutOfMemory; Device where a line can't be written.
    pub fn finish(&mut self) -> Result<(), TellFault> {
        self.gatherer.finish(self.network.monitor().streams())
    }

    /// Ends what was heard as it happened: tells the incidents that are still open, and then the tables of sources, universes and
    /// lists, and the counts.
    ///
    /// Errors: OutOfMemory; Device where a line can't be written.
    pub fn end(&mut self, now: u64) -> Result<(), TellFault> {
        self.tick(now)?;
        self.finish()?;
        let tally = *self.monitor().tally();
        let mut frames = FrameCounts::new();
        frames.datagrams = tally.datagrams;
        self.tell_tables(&Report {
            frames,
            tally,
            pages_passed: self.pages_passed(),
            other_ports: 0,
            went_back: 0,
            streams: self.monitor().streams().len(),
            length: now,
        })
    }

    /// Writes the empty line that parts incidents from what follows, where there were some and they are lines for people.
    pub(crate) fn part(&mut self) -> Result<(), TellFault> {
        self.gatherer.part()
    }

    /// The accounts of the sources on universes.
    pub(crate) fn monitor(&self) -> &Monitor {
        self.network.monitor()
    }

    /// Pages of sources for whose lists there was no room.
    pub(crate) fn pages_passed(&self) -> u64 {
        self.listings.pages_passed()
    }

    /// Writes the tables of sources, universes and lists, and these counts.
    pub(crate) fn tell_tables(&mut self, report: &Report) -> Result<(), TellFault> {
        self.gatherer
            .tell_tables(self.network.monitor(), &self.listings, report)
    }
}
