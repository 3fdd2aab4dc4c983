//! One universe of a recording.
ghost use Rattle.std.specs.Prelude.{◌≡◌, ◌<◌, ◌≤◌, ◌^◌, ◌++◌, ◌∷◌, [], ℕ, length, map, position, IfOk, IfErr, IfSome, IfNone};
ghost use Rattle.sacn_sources.specs.Packets.{packet_of};
ghost use Rattle.sacn_source.specs.declared.fault.SourceFault.TheVariants.{OutOfMemory};
ghost use Rattle.sacn_played_source.specs.Universes.{new_universe, taken, merged, sent_from, all_sent, rewound, earlier, is_of, before_lost, lost_by, NoneLostBefore, OneLostAt};

use sacn_packets::{DataView, SLOTS};
use sacn_source::{SourceCore, SourceFault};
use sacn_sources::{NETWORK_DATA_LOSS, SourceTable};
use std::alloc::Global;

/// What a recording holds of one universe.
#[derive(Drop)]
pub(crate) struct PlayedUniverse {
    pub(crate) universe: u16,
    /// The first moment that it was handed since the recording began.
    pub(crate) begun: Option<u64>,
    /// Whether what its table holds is sent: a packet renewed a source since the recording began, or what was sent before is as old as a
    /// source that is lost. Until then that stays.
    pub(crate) is_own: bool,
    pub(crate) table: SourceTable,
}

impl PlayedUniverse {
    /// A universe on which nothing was heard yet. `OutOfMemory` where the room for its sources is refused.
    fn new(alloc: Global, universe: u16) -> Result<Self, SourceFault>
        ensures made { IfOk result (λ one. one ≡ new_universe universe) }
        ensures refused { IfErr result (λ fault. fault ≡ OutOfMemory) }
    {
        match SourceTable::new(alloc) {
            Ok(table) => Ok(PlayedUniverse {
                universe,
                begun: None,
                is_own: false,
                table,
            }),
            Err(_) => Err(SourceFault::OutOfMemory),
        }
    }

    /// Takes a data packet of this universe, as a node's table takes it.
    pub(crate) fn take(&mut self, moment: u64, packet: &DataView<'_>)
        ensures { self.new ≡ taken moment (packet_of packet.now) self.old }
    {
        let taken = self.table.take(moment, packet);
        self.is_own |= taken.renews();
    }

    /// Hands the merge at this moment to the source, unless what was sent before stays. Levels that are as before ask for no packet.
    pub(crate) fn send(&mut self, moment: u64, source: &mut SourceCore)
        ensures universe { self.new ≡ merged moment self.old }
        ensures source { source.new ≡ sent_from (merged moment self.old) source.old }
    {
        let begun = self.begun.unwrap_or(moment);
        self.begun = Some(begun);
        self.is_own |= moment.saturating_sub(begun) >= NETWORK_DATA_LOSS;
        let mut slots = [0; SLOTS];
        self.table.merged(moment, &mut slots);
        if self.is_own {
            let _ = source.set_levels(self.universe, &slots);
        }
    }

    /// The first moment at which something that is sent is lost, if no packet comes: a source, or what was sent before the recording
    /// began.
    fn wakes(&self) -> Option<u64>
        ensures never { IfNone result ((t : ℕ) → t < 2 ^ 64 → lost_by t self.now ≡ 0) }
        ensures asleep { IfSome result (λ moment. (t : ℕ) → t < moment → lost_by t self.now ≡ 0) }
        ensures awake { IfSome result (λ moment. 1 ≤ lost_by moment self.now) }
    {
        earlier(self.table.wakes(), self.stays_until())
    }

    // The moment at which what was sent before the recording began is over, where it is still sent.
    fn stays_until(&self) -> Option<u64>
        ensures never { IfNone result ((t : ℕ) → t < 2 ^ 64 → before_lost t self.now ≡ 0) }
        ensures asleep { IfSome result (λ moment. (t : ℕ) → t < moment
            → before_lost t self.now ≡ 0) }
        ensures awake { IfSome result (λ moment. before_lost moment self.now ≡ 1) }
    {
        match self.begun {
            Some(begun) if !self.is_own => begun.checked_add(NETWORK_DATA_LOSS),
            _ => None,
        }
    }
}

/// Universes on which nothing was heard yet, in this order. `OutOfMemory` where a request is refused.
pub(crate) fn new_universes(
    alloc: Global,
    universes: &[u16],
) -> Result<Vec<PlayedUniverse>, SourceFault>
    ensures made { IfOk result (λ list. list.items ≡ map new_universe universes.now) }
    ensures refused { IfErr result (λ fault. fault ≡ OutOfMemory) }
{
    let mut list = Vec::with_capacity(alloc, universes.len())?;
    for universe in universes {
        add_universe(&mut list, alloc, *universe)?;
    }
    Ok(list)
}

// Adds a universe on which nothing was heard yet.
fn add_universe(
    list: &mut Vec<PlayedUniverse>,
    alloc: Global,
    universe: u16,
) -> Result<(), SourceFault>
    ensures added { IfOk result (λ _. list.new.items
        ≡ list.old.items ++ new_universe universe ∷ []) }
    ensures refused { IfErr result (λ fault. fault ≡ OutOfMemory) }
{
    let one = PlayedUniverse::new(alloc, universe)?;
    match list.push(one) {
        Ok(()) => Ok(()),
        Err(_) => Err(SourceFault::OutOfMemory),
    }
}

/// The same universes, on which nothing was heard yet. `OutOfMemory` where a request is refused.
pub(crate) fn rewound(
    alloc: Global,
    universes: &[PlayedUniverse],
) -> Result<Vec<PlayedUniverse>, SourceFault>
    ensures made { IfOk result (λ list. list.items ≡ map rewound universes.now) }
    ensures refused { IfErr result (λ fault. fault ≡ OutOfMemory) }
{
    let mut list = Vec::with_capacity(alloc, universes.len())?;
    for one in universes {
        add_universe(&mut list, alloc, one.universe)?;
    }
    Ok(list)
}

/// Where a universe stands among these.
pub(crate) fn place_of(universes: &[PlayedUniverse], universe: u16) -> Option<usize>
    ensures { result ≡ position (is_of universe) universes.now }
{
    universes.iter().position(|one| one.universe == universe)
}

/// Hands the merge of each of these universes at this moment to the source.
pub(crate) fn send_all(universes: &mut [PlayedUniverse], moment: u64, source: &mut SourceCore)
    ensures universes { universes.new ≡ map (merged moment) universes.old }
    ensures source { source.new ≡ all_sent (map (merged moment) universes.old) source.old }
{
    for place in 0..universes.len() {
        let one = &mut universes[place];
        one.send(moment, source);
    }
}

/// The first moment at which something of one of these universes is lost, if no packet comes before.
pub(crate) fn next_loss(universes: &[PlayedUniverse]) -> Option<u64>
    ensures never { IfNone result (NoneLostBefore universes.now (2 ^ 64)) }
    ensures asleep { IfSome result (λ moment. NoneLostBefore universes.now moment) }
    ensures awake { IfSome result (λ moment. OneLostAt universes.now moment) }
{
    let mut first = None;
    for place in 0..universes.len() {
        let one = &universes[place];
        first = earlier(first, one.wakes());
    }
    first
}

// The earlier of two moments, where there is one.
fn earlier(first: Option<u64>, other: Option<u64>) -> Option<u64>
    ensures earlier { result ≡ earlier first other }
    ensures bounded { IfSome result (λ moment. moment < 2 ^ 64) }
{
    match (first, other) {
        (Some(first), Some(other)) => Some(first.min(other)),
        (Some(first), None) => Some(first),
        (None, other) => other,
    }
}
