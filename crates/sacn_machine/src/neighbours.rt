//! The machine's table of neighbours: which hosts of its own networks have said their hardware address (RFC 826).
use crate::sys::read_start;
use std::alloc::{AllocError, Global};
use std::net::Ipv4Addr;

/// The most octets of the table that are looked at: some 1600 hosts.
const TABLE_OCTETS: usize = 131_072;

/// The table: a line for each host, with its address as the first word and its flags as the third.
const TABLE: &[u8] = b"/proc/net/arp";

/// A host in the table.
#[derive(Clone, Copy)]
struct Neighbour {
    /// Its address as a number.
    bits: u32,
    /// It said its hardware address, or the machine was told it. Where it isn't so, the machine asks for it, or gave that up.
    is_known: bool,
}

/// The host of a line. The flags are those of Linux (ATF_COM 2, ATF_PERM 4); a line of others names none.
fn neighbour_in(line: &str) -> Option<Neighbour> {
    let mut words = line.split_ascii_whitespace();
    let address = Ipv4Addr::parse_ascii(words.next()?.as_bytes()).ok()?;
    let is_known = match words.nth(1)? {
        "0x0" => false,
        "0x2" => true,
        "0x6" => true,
        _ => return None,
    };
    Some(Neighbour {
        bits: address.to_bits(),
        is_known,
    })
}

/// The hosts in the table when it was read last.
#[derive(Drop)]
pub(crate) struct Neighbours {
    table: Vec<u8>,
    list: Vec<Neighbour>,
}

impl Neighbours {
    /// No hosts: the table wasn't read.
    pub(crate) fn new(alloc: Global) -> Result<Neighbours, AllocError> {
        let mut table = Vec::new(alloc);
        table.resize(TABLE_OCTETS, 0)?;
        Ok(Neighbours {
            table,
            list: Vec::new(alloc),
        })
    }

    /// Reads the table. Where the machine doesn't tell it, there are no hosts; those for which there is no memory are left out.
    pub(crate) fn read(&mut self) {
        self.list.clear();
        let Some(count) = read_start(TABLE, self.table.as_mut_slice()) else {
            return;
        };
        let Ok(table) = std::str::from_utf8(&self.table.as_slice()[..count]) else {
            return;
        };
        for line in table.lines() {
            if let Some(neighbour) = neighbour_in(line) {
                let _ = self.list.push(neighbour);
            }
        }
    }

    /// Whether a host has said its hardware address, on any of the networks; None where the table doesn't have it.
    pub(crate) fn is_known(&self, host: Ipv4Addr) -> Option<bool> {
        let bits = host.to_bits();
        let mut found = None;
        for neighbour in self.list.as_slice() {
            if neighbour.bits == bits {
                if neighbour.is_known {
                    return Some(true);
                }
                found = Some(false);
            }
        }
        found
    }
}
