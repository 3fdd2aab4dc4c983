//! A receiver over memory, for tests.
ghost use Rattle.std.specs.Prelude.{◌≡◌, ◌≤◌, Some, [], take};
ghost use Rattle.std.specs.Option.{option_copied};
ghost use Rattle.sacn_machine.specs.Hearings.{hearing_of, FitsBuffer};
ghost use Rattle.sacn_machine.specs.MemoryHearings.{brought};

use crate::receiver::{Arrival, Octets4, Receipt, Receiver};
use sacn_edge::BUFFER_OCTETS;

/// What a receive brings, with what the clock reads before it.
#[derive(Drop)]
pub enum TimedArrival {
    /// Nothing is there.
    Nothing(u64),
    /// These octets, from this address; those past the buffer are cut.
    Datagram(u64, Octets4, Vec<u8>),
    /// The device fails in this call.
    Failed(u64),
}

/// A receiver that brings a list in order, and then nothing at a last reading. It doesn't wait.
///
/// It tells what it brought, until `u64::MAX` receives were made.
#[derive(Drop)]
pub struct MemoryReceiver {
    incoming: Vec<TimedArrival>,
    last: u64,
    received: u64,
}

impl MemoryReceiver {
    ghost use Rattle.sacn_machine.specs.MemoryReceiver.{receiver_told, brings, ends_at};

    /// A receiver of which nothing was asked yet.
    pub fn new(incoming: Vec<TimedArrival>, last: u64) -> MemoryReceiver
        ensures told { receiver_told result ≡ Some [] }
        ensures brings { brings result ≡ incoming.items }
        ensures last { ends_at result ≡ last }
    {
        MemoryReceiver {
            incoming,
            last,
            received: 0,
        }
    }

    /// How many receives were made.
    pub fn received(&self) -> u64 {
        self.received
    }
}

/// Puts the octets of a datagram at the front of the buffer, and returns how many fit.
fn put_octets(octets: &[u8], buffer: &mut [u8; BUFFER_OCTETS]) -> usize
    ensures fits { result ≤ 2048 }
    ensures put { take result buffer.new ≡ take 2048 octets.now }
{
    let count = octets.len().min(BUFFER_OCTETS);
    buffer[..count].copy_from_slice(&octets[..count]);
    count
}

fn bring_item(item: &TimedArrival, buffer: &mut [u8; BUFFER_OCTETS]) -> Receipt
    ensures fits { FitsBuffer result.arrival }
    ensures brings { hearing_of result buffer.new ≡ brought 0 (Some item.now) }
{
    match item {
        TimedArrival::Datagram(now, sender, octets) => {
            let octets = put_octets(octets.as_slice(), buffer);
            let sender = *sender;
            Receipt {
                now: *now,
                arrival: Arrival::Datagram { octets, sender },
            }
        }
        TimedArrival::Failed(now) => Receipt {
            now: *now,
            arrival: Arrival::Failed,
        },
        TimedArrival::Nothing(now) => Receipt {
            now: *now,
            arrival: Arrival::Nothing,
        },
    }
}

fn bring(item: Option<&TimedArrival>, last: u64, buffer: &mut [u8; BUFFER_OCTETS]) -> Receipt
    ensures fits { FitsBuffer result.arrival }
    ensures brings { hearing_of result buffer.new ≡ brought last (option_copied item.entry) }
{
    match item {
        Some(item) => bring_item(item, buffer),
        None => Receipt {
            now: last,
            arrival: Arrival::Nothing,
        },
    }
}

impl Receiver for MemoryReceiver {
    ghost use Rattle.sacn_machine.specs.MemoryReceiver.{receiver_told};

    ghost told = { receiver_told };

    fn wait(&mut self, _until: u64) {}

    /// Each is from the port 0.
    fn sender_port(&self) -> u16
        ensures { result ≡ 0 }
    {
        0
    }

    fn receive(&mut self, buffer: &mut [u8; BUFFER_OCTETS]) -> Receipt {
        let receipt = bring(self.incoming.get(self.received as usize), self.last, buffer);
        self.received = self.received.saturating_add(1);
        receipt
    }
}
