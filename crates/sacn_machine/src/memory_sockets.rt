//! Sockets over memory, for tests.
ghost use Rattle.std.specs.Prelude.{◌≡◌, Some, [], is_ok};

use crate::sockets::Sockets;
use std::alloc::Global;
use std::io::ErrorKind;
use std::net::SocketAddrV4;

/// A datagram that was sent to a destination.
#[derive(Drop)]
pub struct Sent {
    pub to: SocketAddrV4,
    pub octets: Vec<u8>,
    pub is_taken: bool,
}

/// Sockets of which some places take nothing. They tell what was sent, until a datagram can't be kept for want of memory.
#[derive(Drop)]
pub struct MemorySockets {
    alloc: Global,
    refusing: Vec<usize>,
    sent: Vec<Sent>,
    is_lost: bool,
}

impl MemorySockets {
    ghost use Rattle.sacn_machine.specs.MemorySockets.{sockets_told};

    /// Sockets of which nothing was asked yet. The destinations at these places, from 0, take nothing.
    pub fn new(alloc: Global, refusing: Vec<usize>) -> MemorySockets
        ensures told { sockets_told result ≡ Some [] }
    {
        MemorySockets {
            alloc,
            refusing,
            sent: Vec::new(alloc),
            is_lost: false,
        }
    }

    /// What was sent, in order.
    pub fn sent(&self) -> &[Sent] {
        self.sent.as_slice()
    }

    fn refuses(&self, place: usize) -> bool {
        self.refusing
            .as_slice()
            .iter()
            .any(|refusing| *refusing == place)
    }
}

/// What a socket answers.
fn answer_of(is_taken: bool) -> Result<(), ErrorKind>
    ensures { is_ok result ≡ is_taken }
{
    if is_taken {
        Ok(())
    } else {
        Err(ErrorKind::WouldBlock)
    }
}

impl Sockets for MemorySockets {
    ghost use Rattle.sacn_machine.specs.MemorySockets.{sockets_told};

    ghost told = { sockets_told };

    fn send(
        &mut self,
        place: usize,
        to: SocketAddrV4,
        _now: u64,
        datagram: &[u8],
    ) -> Result<(), ErrorKind> {
        let is_taken = !self.refuses(place);
        let Ok(octets) = datagram.to_vec(self.alloc) else {
            self.is_lost = true;
            return Err(ErrorKind::OutOfMemory);
        };
        let sent = Sent {
            to,
            octets,
            is_taken,
        };
        match self.sent.push(sent) {
            Ok(()) => answer_of(is_taken),
            Err(_) => {
                self.is_lost = true;
                Err(ErrorKind::OutOfMemory)
            }
        }
    }
}
