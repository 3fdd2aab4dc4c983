//! The source table: all its room is taken where it is made.
use crate::Outcome;
use sacn_packets::{Packet, read_packet};
use sacn_sources::{SourceTable, TableFault, Taken};
use std::alloc::Global;

const CID: [u8; 16] = [9; 16];

/// A data packet of universe 1 and priority 100 with number 7, whose one slot is at 255.
fn packet() -> [u8; 127] {
    let mut octets = [0; 127];
    octets[..16].copy_from_slice(b"\0\x10\0\0ASC-E1.17\0\0\0");
    octets[16..22].copy_from_slice(&[0x70, 0x6f, 0, 0, 0, 4]);
    octets[22..38].copy_from_slice(&CID);
    octets[38..44].copy_from_slice(&[0x70, 0x59, 0, 0, 0, 2]);
    octets[44..48].copy_from_slice(b"Desk");
    octets[108..115].copy_from_slice(&[100, 0, 0, 7, 0, 0, 1]);
    octets[115..125].copy_from_slice(&[0x70, 0x0c, 0x02, 0xa1, 0, 0, 0, 1, 0, 2]);
    octets[126] = 255;
    octets
}

fn took(table: &mut SourceTable) -> bool {
    match read_packet(&packet()) {
        Ok(Packet::DataPacket(data)) => table.take(0, &data) == Taken::Held,
        _ => false,
    }
}

/// Whether the table holds the packet and nothing else, and its merge is the packet's level.
fn holds_it(table: &mut SourceTable) -> bool {
    let mut slots = [7; 512];
    table.merged(0, &mut slots);
    let lit = slots.iter().filter(|level| **level > 0).count();
    match table.held(&CID) {
        Some(view) => view.number() == 7 && view.priority() == 100 && slots[0] == 255 && lit == 1,
        None => false,
    }
}

// A new table holds nothing, then what it is given.
fn works(mut table: SourceTable) -> bool {
    table.held(&CID).is_none() && took(&mut table) && holds_it(&mut table)
}

/// `SourceTable::new`, whose one request is for all the room that a table ever has.
pub fn calls_made(alloc: Global) -> Outcome {
    match SourceTable::new(alloc) {
        Ok(table) => Outcome::Done.provided(works(table), "a new table"),
        Err(TableFault::OutOfMemory) => match SourceTable::new(alloc) {
            Ok(table) => Outcome::Refused.provided(works(table), "a table that is made again"),
            Err(_) => Outcome::Wrong("a table that can't be made again"),
        },
    }
}
