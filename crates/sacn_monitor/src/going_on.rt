//! A packet that goes on as the one before it: most packets do, and tell nothing.

ghost use Rattle.std.specs.Prelude.{◌≡◌, true};
ghost use Rattle.sacn_sources.specs.declared.kind.Kind.TheVariants.{Live};
ghost use Rattle.sacn_sources.specs.Packets.{kind_of};
ghost use Rattle.sacn_monitor.specs.declared.holding.Holding.TheVariants.{Levels};
ghost use Rattle.sacn_monitor.specs.Accounts.{after_gone_on, is_next, same_sender};

use crate::account::{Account, Endpoint, same_sender};
use crate::holding::Holding;
use sacn_packets::DataView;
use sacn_sources::{Kind, kind_of};

impl Account {
    /// Whether a taken packet goes on as the one before it, with levels for the stage: with the next number, from the same sender,
    /// under the same name and at the same priority.
    pub(crate) fn goes_on(&self, moment: u64, sender: &Endpoint, packet: &DataView<'_>) -> bool
        ensures number { result ≡ true → is_next moment packet.now.number self.now ≡ true }
        ensures kind { result ≡ true → kind_of packet.now ≡ Live }
        ensures held { result ≡ true
            → self.now.holding ≡ Levels self.now.latest packet.now.priority }
        ensures priority { result ≡ true → self.now.priority ≡ packet.now.priority }
        ensures sender { result ≡ true → same_sender self.now.sender sender.now ≡ true }
        ensures name { result ≡ true → self.now.name ≡ packet.now.name }
    {
        if !self.is_next(moment, packet.number()) {
            return false;
        }
        if !self.holds_latest(packet) {
            return false;
        }
        if !same_sender(&self.sender, sender) {
            return false;
        }
        (self.priority == packet.priority()) & (self.name == *packet.name_field())
    }

    /// A packet that goes on so is taken: its levels are held anew, none was skipped before it, and what is missing lies
    /// one number further behind.
    pub(crate) fn go_on(&mut self, moment: u64, arrived: u8)
        ensures { self.new ≡ after_gone_on moment arrived self.old }
    {
        let gap = moment.saturating_sub(self.latest);
        self.latest = moment;
        self.sequence_number = arrived;
        self.kinds.count(Kind::Live);
        self.holding = Holding::Levels(moment, self.priority);
        self.skipped = self.skipped.saturating_add(0);
        self.missing = self.missing << 1;
        self.greatest_gap = self.greatest_gap.max(gap);
        self.rate.count(moment);
    }

    // Whether a taken packet has the next number of a stream that goes on, and this step tells nothing of how its sender numbers.
    fn is_next(&self, moment: u64, arrived: u8) -> bool
        ensures { result ≡ is_next moment arrived self.now }
    {
        (arrived.wrapping_sub(self.sequence_number) == 1)
            & self.numbering.is_settled(arrived)
            & !self.ended
            & self.is_fresh(moment)
    }

    // Whether a packet has levels for the stage, at the priority at which those of the latest taken packet are held.
    fn holds_latest(&self, packet: &DataView<'_>) -> bool
        ensures kind { result ≡ true → kind_of packet.now ≡ Live }
        ensures held { result ≡ true
            → self.now.holding ≡ Levels self.now.latest packet.now.priority }
    {
        match (self.holding, kind_of(packet)) {
            (Holding::Levels(renewed, priority), Kind::Live) => {
                (renewed == self.latest) & (priority == packet.priority())
            }
            _ => false,
        }
    }
}
