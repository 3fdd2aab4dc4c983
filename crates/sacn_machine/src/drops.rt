//! Datagrams that the machine dropped, since the room of a socket was full.
use crate::limits::SAID_EACH;
use crate::sys::{read_link, read_start};
use arrayvec::ArrayString;
use std::alloc::{AllocError, Global};
use std::fmt::Write as _;
use std::io::Write;
use std::os::fd::RawFd;

/// The most octets of the machine's table of sockets that are looked at.
const TABLE_OCTETS: usize = 65_536;

/// The machine's table of UDP sockets: a line each, with the number of the socket's file as the tenth word and the drops as the
/// thirteenth.
const TABLE: &[u8] = b"/proc/net/udp";

/// What the machine dropped of a socket, said at most once a second.
#[derive(Drop)]
pub struct Drops {
    // The number of the socket's file, as digits; empty where it isn't known.
    inode: ArrayString<32>,
    table: Vec<u8>,
    told: u64,
    // Nothing is looked at before this moment.
    next: u64,
}

/// The number in `socket:[NUMBER]`.
fn inode_in(link: &str) -> Option<ArrayString<32>> {
    let digits = link.strip_prefix("socket:[")?.strip_suffix("]")?;
    let mut inode = ArrayString::new();
    inode.try_push_str(digits).ok()?;
    Some(inode)
}

/// The number of a descriptor's file, where the machine tells it.
fn inode_of(fd: RawFd) -> Option<ArrayString<32>> {
    let mut path = ArrayString::<32>::new();
    write!(path, "/proc/self/fd/{fd}").ok()?;
    let mut link = [0; 64];
    let count = read_link(path.as_str().as_bytes(), &mut link)?;
    inode_in(std::str::from_utf8(&link[..count]).ok()?)
}

/// The drops of the socket of this number in the machine's table.
fn drops_in(table: &str, inode: &str) -> Option<u64> {
    for line in table.lines() {
        let mut words = line.split_ascii_whitespace();
        if words.nth(9) == Some(inode) {
            return words.nth(2)?.parse::<u64>().ok();
        }
    }
    None
}

impl Drops {
    /// Those of a socket, of which none was told.
    pub fn of(alloc: Global, fd: RawFd) -> Result<Drops, AllocError> {
        let mut table = Vec::new(alloc);
        table.resize(TABLE_OCTETS, 0)?;
        Ok(Drops {
            inode: inode_of(fd).unwrap_or(ArrayString::new()),
            table,
            told: 0,
            next: 0,
        })
    }

    /// What the machine dropped so far, where it tells that.
    fn count(&mut self) -> Option<u64> {
        let count = read_start(TABLE, self.table.as_mut_slice())?;
        let table = std::str::from_utf8(&self.table.as_slice()[..count]).ok()?;
        drops_in(table, self.inode.as_str())
    }

    /// Says how many were dropped since that was said, once a second has passed.
    pub fn check<E: Write>(&mut self, now: u64, err: &mut E) {
        if now < self.next || self.inode.is_empty() {
            return;
        }
        self.next = now.saturating_add(SAID_EACH);
        let Some(count) = self.count() else {
            return;
        };
        if count > self.told {
            let dropped = count - self.told;
            let _ = writeln!(
                err,
                "dropped {dropped} by the machine: its receive buffer was full"
            );
            self.told = count;
        }
    }
}
