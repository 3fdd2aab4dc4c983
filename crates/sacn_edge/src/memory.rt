//! A link and a clock over memory, for tests.
ghost use Rattle.std.specs.Prelude.{◌≡◌, Some, [], map, IfSome};
ghost use Rattle.std.specs.Option.{option_copied};
ghost use Rattle.sacn_edge.specs.MemoryItems.{heard_in, fails_at, reading_at};
ghost use Rattle.sacn_edge.specs.Hearings.{heard_of, FitsBuffer};

use crate::clock::Clock;
use crate::link::{BUFFER_OCTETS, Link, Received};
use std::alloc::Global;

/// What a receive brings.
#[derive(Drop)]
pub enum Incoming {
    /// Nothing is there.
    Nothing,
    /// These octets; those past the buffer are cut.
    Datagram(Vec<u8>),
    /// The device fails in this call.
    Failed,
}

/// A clock that reads a list in order, and then its last value; 0 where the list is empty.
///
/// It tells its readings, until `u64::MAX` of them were made.
#[derive(Drop)]
pub struct ListClock {
    list: Vec<u64>,
    count: u64,
}

impl ListClock {
    ghost use Rattle.sacn_edge.specs.MemoryDevices.{clock_told, reads};

    /// A clock that was not read yet.
    pub fn new(list: Vec<u64>) -> Self
        ensures told { clock_told result ≡ Some [] }
        ensures reads { reads result ≡ list.items }
    {
        ListClock { list, count: 0 }
    }

    fn reading(&self, at: u64) -> u64
        ensures { result ≡ reading_at self.now.list.items at }
    {
        if self.list.is_empty() {
            return 0;
        }
        self.list[(at as usize).min(self.list.len() - 1)]
    }
}

impl Clock for ListClock {
    ghost use Rattle.sacn_edge.specs.MemoryDevices.{clock_told};

    ghost readings = { clock_told };

    fn now(&mut self) -> u64 {
        let reading = self.reading(self.count);
        self.count = self.count.saturating_add(1);
        reading
    }
}

/// A link that receives a list in order and then nothing, and keeps what it is handed.
///
/// It tells its transcript, until a send can't keep its datagram for want of memory, or `u64::MAX` receives
/// were made. A send that can't keep its datagram returns false.
#[derive(Drop)]
pub struct MemoryLink {
    alloc: Global,
    incoming: Vec<Incoming>,
    received: u64,
    failing: Option<u64>,
    handed: Vec<Vec<u8>>,
    lost: bool,
}

impl MemoryLink {
    ghost use Rattle.sacn_edge.specs.MemoryDevices.{link_told, brings, fails};

    /// A link of which nothing was asked yet. The send at the place `failing`, from 0, will fail.
    pub fn new(alloc: Global, incoming: Vec<Incoming>, failing: Option<u64>) -> Self
        ensures told { link_told result ≡ Some (record { heard = []; handed = [] }) }
        ensures brings { brings result ≡ incoming.items }
        ensures fails { fails result ≡ failing }
    {
        MemoryLink {
            alloc,
            incoming,
            received: 0,
            failing,
            handed: Vec::new(alloc),
            lost: false,
        }
    }

    /// Each datagram handed to `send`, in order, whatever was answered.
    pub fn handed(&self) -> &[Vec<u8>]
        ensures { IfSome (link_told self.now)
            (λ t. map (λ h. h.0) t.handed ≡ map (λ v. v.items) result.now) }
    {
        self.handed.as_slice()
    }
}

/// Puts what an item brings into the buffer.
fn bring_item(item: &Incoming, buffer: &mut [u8; BUFFER_OCTETS]) -> Received
    ensures fits { FitsBuffer result }
    ensures brings { heard_of result buffer.new ≡ heard_in (Some item.now) }
{
    match item {
        Incoming::Datagram(octets) => {
            let count = octets.len().min(BUFFER_OCTETS);
            buffer[..count].copy_from_slice(&octets[..count]);
            Received::Datagram(count)
        }
        Incoming::Failed => Received::Failed,
        Incoming::Nothing => Received::Nothing,
    }
}

fn bring(item: Option<&Incoming>, buffer: &mut [u8; BUFFER_OCTETS]) -> Received
    ensures fits { FitsBuffer result }
    ensures brings { heard_of result buffer.new ≡ heard_in (option_copied item.entry) }
{
    match item {
        Some(item) => bring_item(item, buffer),
        None => Received::Nothing,
    }
}

/// Whether the send at this place, from 0, fails.
fn fails_at(failing: Option<u64>, place: usize) -> bool
    ensures { result ≡ fails_at failing place }
{
    match failing {
        Some(at) => at == place as u64,
        None => false,
    }
}

impl Link for MemoryLink {
    ghost use Rattle.sacn_edge.specs.MemoryDevices.{link_told};

    ghost told = { link_told };

    fn receive(&mut self, buffer: &mut [u8; BUFFER_OCTETS]) -> Received {
        let received = bring(self.incoming.get(self.received as usize), buffer);
        self.received = self.received.saturating_add(1);
        received
    }

    fn send(&mut self, datagram: &[u8]) -> bool {
        let place = self.handed.len();
        let Ok(octets) = datagram.to_vec(self.alloc) else {
            self.lost = true;
            return false;
        };
        match self.handed.push(octets) {
            Ok(()) => !fails_at(self.failing, place),
            Err(_) => {
                self.lost = true;
                false
            }
        }
    }
}
