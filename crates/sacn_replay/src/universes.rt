//! Universes that go out under other numbers.

ghost use Rattle.std.specs.Prelude.{◌≡◌, ◌<◌, ◌≤◌, [], IfSome, None, length, ◌==◌, true};
ghost use Rattle.std.specs.List.{list_any};
ghost use Rattle.sacn_packets.specs.Universe.{IsUniverse};
ghost use Rattle.sacn_replay.specs.Maps.{answer_to, carries_data, fault_of, mapped, rewritten, universe_in, with_mapping};

use crate::fault::ReplayFault;
use arrayvec::ArrayVec;
use sacn_packets::{MAX_UNIVERSE, MIN_UNIVERSE, Packet, framing, put, read_packet, root};
use std::marker::Model;

/// The most universes that are mapped.
pub const MAX_MAPPED: usize = 64;

/// Where the universe stands among the octets of a data packet (E1.31, 6.2.7).
const UNIVERSE_AT: usize = root::layout::BODY_AT + framing::layout::UNIVERSE_AT;

/// A universe, and the number under which it goes out.
#[derive(Clone, Copy, Debug, Default, PartialEq, Eq)]
pub struct Mapping {
    pub from: u16,
    pub to: u16,
}

/// Universes that go out under other numbers, up to `MAX_MAPPED`; its value is their list. No two of the list go out under one number.
///
/// A universe that isn't listed keeps its number. Where another one is sent to that number, both go out under it: list the universe
/// too, to send it elsewhere.
#[derive(Drop)]
pub struct UniverseMap {
    mappings: ArrayVec<Mapping, MAX_MAPPED>,
}

impl Model for UniverseMap {
    ghost use Rattle.std.specs.Prelude.{List};
    ghost use Rattle.std.specs.List.{All};
    ghost use Rattle.sacn_packets.specs.Universe.{IsUniverse};
    ghost use Rattle.sacn_replay.specs.declared.universes.Mapping.{Mapping};

    ghost Value = { List Mapping };

    ghost view = { λ m. m.mappings.items };

    ghost invariant = { λ m. All (λ (p : Mapping). IsUniverse p.to) m.mappings.items };
}

impl UniverseMap {
    /// No universe.
    pub fn new() -> Self
        ensures { result ≡ [] }
    {
        UniverseMap {
            mappings: ArrayVec::new(),
        }
    }

    /// Sends a universe to a number.
    ///
    /// Errors: one of both is no universe that carries data; the list sends the universe somewhere already, or another one to that
    /// number; the list is full. It stays as it was then.
    pub fn add(&mut self, mapping: Mapping) -> Result<(), ReplayFault>
        ensures answer { result ≡ answer_to mapping self.old }
        ensures list { self.new ≡ with_mapping mapping self.old }
    {
        match self.fault_of(mapping) {
            Some(fault) => Err(fault),
            None => {
                self.mappings.push(mapping);
                Ok(())
            }
        }
    }

    /// The number under which a universe goes out.
    pub fn of(&self, universe: u16) -> u16
        ensures value { result ≡ mapped self.now universe }
        ensures range { IsUniverse universe → IsUniverse result }
    {
        mapped(self.mappings.as_slice(), universe)
    }

    /// Writes into a data packet the number under which its universe goes out, and nothing else; a page, a synchronization packet and
    /// what is no packet stay as they are.
    pub fn rewrite(&self, octets: &mut [u8])
        ensures { octets.new ≡ rewritten self.now octets.old }
    {
        if let Some(universe) = universe_in(octets) {
            put(octets, UNIVERSE_AT, &self.of(universe).to_be_bytes());
        }
    }

    // Why a mapping is refused.
    fn fault_of(&self, mapping: Mapping) -> Option<ReplayFault>
        ensures fault { result ≡ fault_of mapping self.now }
        ensures room { result ≡ None → length self.now < 64 }
        ensures number { result ≡ None → IsUniverse mapping.to }
    {
        if !carries_data(mapping.from) || !carries_data(mapping.to) {
            Some(ReplayFault::Universe)
        } else if self.has_from(mapping.from) {
            Some(ReplayFault::MappedTwice)
        } else if self.has_to(mapping.to) {
            Some(ReplayFault::SameTarget)
        } else if self.mappings.len() >= MAX_MAPPED {
            Some(ReplayFault::TooMany)
        } else {
            None
        }
    }

    /// Whether the list sends a universe to a number.
    pub fn has_from(&self, universe: u16) -> bool
        ensures { result ≡ list_any (λ p. p.from == universe) self.now }
    {
        self.mappings.iter().any(|mapping| mapping.from == universe)
    }

    /// Whether the list sends a universe to this number.
    pub fn has_to(&self, universe: u16) -> bool
        ensures { result ≡ list_any (λ p. p.to == universe) self.now }
    {
        self.mappings.iter().any(|mapping| mapping.to == universe)
    }
}

// The number under which a universe goes out.
fn mapped(mappings: &[Mapping], universe: u16) -> u16
    ensures { result ≡ mapped mappings.now universe }
{
    for mapping in mappings.iter() {
        if mapping.from == universe {
            return mapping.to;
        }
    }
    universe
}

// Whether a universe carries data.
fn carries_data(universe: u16) -> bool
    ensures value { result ≡ carries_data universe }
    ensures range { result ≡ true → IsUniverse universe }
{
    (MIN_UNIVERSE <= universe) & (universe <= MAX_UNIVERSE)
}

/// The universe of a data packet, 1 to 63999; None where the octets are none.
pub fn universe_in(octets: &[u8]) -> Option<u16>
    ensures value { result ≡ universe_in octets.now }
    ensures range { IfSome result IsUniverse }
    ensures room { IfSome result (λ _. 115 ≤ length octets.now) }
{
    match read_packet(octets) {
        Ok(Packet::DataPacket(packet)) => Some(packet.universe()),
        _ => None,
    }
}
