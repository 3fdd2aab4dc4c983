//! The collector of discovery pages.
use crate::Outcome;
use sacn_discovery::{Collector, DiscoveryFault};
use sacn_packets::{Packet, read_packet};
use std::alloc::Global;

/// A page of one universe number, from a source whose CID has sixteen octets `source`.
fn page(source: u8, universe: u8) -> [u8; 122] {
    let mut octets = [0; 122];
    octets[..16].copy_from_slice(b"\0\x10\0\0ASC-E1.17\0\0\0");
    octets[16..22].copy_from_slice(&[0x70, 0x6a, 0, 0, 0, 8]);
    octets[22..38].copy_from_slice(&[source; 16]);
    octets[38..44].copy_from_slice(&[0x70, 0x54, 0, 0, 0, 2]);
    octets[112..122].copy_from_slice(&[0x70, 0x0a, 0, 0, 0, 1, 0, 0, 0, universe]);
    octets
}

fn take_page(
    collector: &mut Collector,
    now: u64,
    source: u8,
    universe: u8,
) -> Result<(), DiscoveryFault> {
    match read_packet(&page(source, universe)) {
        Ok(Packet::PagePacket(page)) => collector.take(now, &page),
        _ => Ok(()),
    }
}

/// Whether these are the universes known of a source; none are where nothing is known of it.
fn has_list(collector: &mut Collector, source: u8, wanted: &[u16]) -> Result<bool, DiscoveryFault> {
    match collector.list_of(0, &[source; 16])? {
        Some(list) => Ok(list.as_slice() == wanted),
        None => Ok(wanted.is_empty()),
    }
}

/// Whether of each source before this one universe 6 is known, of this one `wanted`, and of the next nothing.
fn is_left(collector: &mut Collector, source: u8, wanted: &[u16]) -> bool {
    for earlier in 0..source {
        if has_list(collector, earlier, &[6]) != Ok(true) {
            return false;
        }
    }
    has_list(collector, source, wanted) == Ok(true)
        && has_list(collector, source.saturating_add(1), &[]) == Ok(true)
}

// Takes a page, again where memory was refused: all that was known before is known till then, and no more.
fn take_again(collector: &mut Collector, source: u8, universe: u8, before: &[u16]) -> Outcome {
    match take_page(collector, 0, source, universe) {
        Ok(()) => Outcome::Done,
        Err(DiscoveryFault::OutOfMemory) => {
            if !is_left(collector, source, before) {
                Outcome::Wrong("a refused page changed what is known")
            } else if take_page(collector, 0, source, universe).is_ok() {
                Outcome::Refused
            } else {
                Outcome::Wrong("a refused page can't be taken again")
            }
        }
    }
}

fn list_outcome(collector: &mut Collector, source: u8, wanted: &[u16]) -> Outcome {
    match has_list(collector, source, wanted) {
        Ok(true) => Outcome::Done,
        Err(DiscoveryFault::OutOfMemory) if is_left(collector, source, wanted) => Outcome::Refused,
        _ => Outcome::Wrong("the list of a source"),
    }
}

/// `Collector::take` and `Collector::list_of`.
pub fn calls_made(alloc: Global) -> Outcome {
    let mut collector = Collector::new(alloc);
    let mut outcome = Outcome::Done;
    for source in 0..20u8 {
        outcome = outcome.then(take_again(&mut collector, source, 5, &[]));
        outcome = outcome.then(take_again(&mut collector, source, 6, &[5]));
        outcome = outcome.then(list_outcome(&mut collector, source, &[6]));
    }
    if collector.expire(25_000) == 20 {
        outcome
    } else {
        outcome.then(Outcome::Wrong("the sources that are forgotten"))
    }
}
