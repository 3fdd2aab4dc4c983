//! A device over memory, for tests.
ghost use Rattle.std.specs.Prelude.{◌≡◌, Some, []};

use crate::device::{Device, Offer, Took, WIDGET_OCTETS};
use std::alloc::Global;

/// A device that takes of each packet what a list says, in order, and then all. It keeps what it was offered.
///
/// It tells that, until there was no memory to keep it.
#[derive(Drop)]
pub struct MemoryDevice {
    answers: Vec<Took>,
    offers: Vec<Offer>,
    is_lost: bool,
}

impl MemoryDevice {
    ghost use Rattle.sacn_machine.specs.MemoryDevice.{device_told};

    /// A device that was offered nothing yet.
    pub fn new(alloc: Global, answers: Vec<Took>) -> MemoryDevice
        ensures told { device_told result ≡ Some [] }
    {
        MemoryDevice {
            answers,
            offers: Vec::new(alloc),
            is_lost: false,
        }
    }

    /// What it was offered, in order.
    pub fn offers(&self) -> &[Offer] {
        self.offers.as_slice()
    }
}

impl Device for MemoryDevice {
    ghost use Rattle.sacn_machine.specs.MemoryDevice.{device_told};

    ghost told = { device_told };

    fn take(&mut self, now: u64, packet: &[u8; WIDGET_OCTETS]) -> Took {
        let took = match self.answers.get(self.offers.len()) {
            Some(took) => *took,
            None => Took::Whole,
        };
        let packet = *packet;
        if self.offers.push(Offer { now, packet, took }).is_err() {
            self.is_lost = true;
        }
        took
    }
}
