//! What can't be read, by its sender and why.

ghost use Rattle.std.specs.Prelude.{◌≡◌, ◌<◌, ◌++◌, ◌∷◌, [], None, IfOk, length, slice_index_or, slice_set};
ghost use Rattle.sacn_audit.specs.declared.limits.TheConstants.{MAX_REFUSED};
ghost use Rattle.sacn_audit.specs.Refusals.{first_refused, is_alike, is_kept, place_refused, refused_after, refused_again};

use crate::breach::Breach;
use crate::limits::MAX_REFUSED;
use sacn_packets::PacketFault;
use std::alloc::{AllocError, Global};
use std::marker::Model;

/// The datagrams of one sender that can't be read for one reason.
#[derive(Clone, Copy, PartialEq, Eq)]
pub struct RefusedPackets {
    /// The sender's IPv4 address.
    pub address: [u8; 4],
    /// The first check of a packet that they fail.
    pub fault: PacketFault,
    /// How many there were, and when.
    pub breach: Breach,
}

impl RefusedPackets {
    fn begin(moment: u64, address: [u8; 4], fault: PacketFault) -> Self
        ensures { result ≡ first_refused moment address fault }
    {
        let mut breach = Breach::none();
        breach.note(moment);
        RefusedPackets {
            address,
            fault,
            breach,
        }
    }

    fn hear(&mut self, moment: u64)
        ensures { self.new ≡ refused_again moment self.old }
    {
        self.breach.note(moment);
    }

    fn is_alike(&self, address: &[u8; 4], fault: PacketFault) -> bool
        ensures { result ≡ is_alike address.now fault self.now }
    {
        self.address == *address && self.fault.number() == fault.number()
    }
}

/// Up to `MAX_REFUSED` pairs of a sender and a fault in the order in which they appeared, each once.
#[derive(Drop)]
pub(crate) struct RefusedRegister {
    refused: Vec<RefusedPackets>,
}

impl Model for RefusedRegister {
    ghost use Rattle.std.specs.Prelude.{List, ◌≤◌, vec_capacity};
    ghost use Rattle.sacn_audit.specs.declared.limits.TheConstants.{MAX_REFUSED};
    ghost use Rattle.sacn_audit.specs.declared.refused.RefusedPackets.{RefusedPackets};

    ghost Value = { List RefusedPackets };

    ghost view = { λ r. r.refused.items };

    ghost invariant = { λ r. MAX_REFUSED ≤ vec_capacity r.refused };
}

impl RefusedRegister {
    /// Nothing that can't be read, with all its room taken in one request.
    ///
    /// Errors: the request was refused.
    pub(crate) fn new(alloc: Global) -> Result<Self, AllocError>
        ensures { IfOk result (λ r. r ≡ []) }
    {
        Ok(RefusedRegister {
            refused: Vec::with_capacity(alloc, MAX_REFUSED)?,
        })
    }

    pub(crate) fn as_slice(&self) -> &[RefusedPackets]
        ensures { result.now ≡ self.now }
    {
        self.refused.as_slice()
    }

    /// A datagram: of a pair that is there, or of a further one, where there is room. Returns whether there was.
    pub(crate) fn hear(&mut self, moment: u64, address: [u8; 4], fault: PacketFault) -> bool
        ensures kept { result ≡ is_kept address fault self.old }
        ensures refused { self.new ≡ refused_after moment address fault self.old }
    {
        match place_in(self.refused.as_slice(), &address, fault) {
            Some(at) => {
                self.hear_at(at, moment);
                true
            }
            None => self.admit(moment, address, fault),
        }
    }

    // A datagram of the pair at a place.
    fn hear_at(&mut self, at: usize, moment: u64)
        requires { at < length self.old }
        ensures { (r : RefusedPackets) → self.new ≡ slice_set self.old at (refused_again moment (slice_index_or self.old at r)) }
    {
        self.refused[at].hear(moment);
    }

    // The first datagram of a pair. Returns whether there was room for it.
    fn admit(&mut self, moment: u64, address: [u8; 4], fault: PacketFault) -> bool
        requires { place_refused address fault self.old ≡ None }
        ensures kept { result ≡ is_kept address fault self.old }
        ensures refused { self.new ≡ refused_after moment address fault self.old }
    {
        if self.refused.len() >= MAX_REFUSED {
            return false;
        }
        self.push(RefusedPackets::begin(moment, address, fault));
        true
    }

    // A pair more.
    fn push(&mut self, refused: RefusedPackets)
        requires { length self.old < MAX_REFUSED }
        ensures { self.new ≡ self.old ++ refused ∷ [] }
    {
        self.refused.push_reserved(refused);
    }
}

// The place of a pair.
fn place_in(refused: &[RefusedPackets], address: &[u8; 4], fault: PacketFault) -> Option<usize>
    ensures { result ≡ place_refused address.now fault refused.now }
{
    refused
        .iter()
        .position(|packets| packets.is_alike(address, fault))
}
