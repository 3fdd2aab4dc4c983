//! The priorities that a source gave for its slots.
ghost use Rattle.std.specs.Prelude.{◌≡◌, ◌≤◌, ◌∷◌, not, filter, find, length, option_map};
ghost use Rattle.sacn_sources.specs.Packets.{packet_of};
ghost use Rattle.sacn_slots.specs.declared.given.Given.{Given as Kept};
ghost use Rattle.sacn_slots.specs.SlotTables.{counts, given_by, give, gives, is_by, priorities_given, without};
ghost use Rattle.sacn_slots.specs.SlotWakes.{oldest_given};

use arrayvec::ArrayVec;
use sacn_packets::DataView;
use sacn_sources::{Levels, MAX_SOURCES, NETWORK_DATA_LOSS, SourceTable};

/// The start code of packets that give priorities for slots, by its registered use.
pub const SLOT_PRIORITIES: u8 = 0xdd;

/// The priorities that a source gave for its slots, and at which moment, in milliseconds.
#[derive(Drop)]
pub(crate) struct Given {
    pub(crate) cid: [u8; 16],
    pub(crate) moment: u64,
    pub(crate) priorities: Levels,
}

impl Default for Given {
    fn default() -> Self {
        Given {
            cid: [0; 16],
            moment: 0,
            priorities: Levels::of(&[]),
        }
    }
}

impl Given {
    /// Whether it is of this source.
    fn is_by(&self, cid: &[u8; 16]) -> bool
        ensures { result ≡ is_by cid.now self.now }
    {
        self.cid == *cid
    }
}

/// Those of several sources, the newest first.
pub(crate) type AllGiven = ArrayVec<Given, MAX_SOURCES>;

/// What a packet of slot priorities gives.
fn given_by(moment: u64, packet: &DataView<'_>) -> Given
    ensures { result ≡ given_by moment packet.now }
{
    Given {
        cid: packet.cid(),
        moment,
        priorities: Levels::of(packet.slots()),
    }
}

/// Whether a packet gives slot priorities: by its start code, unless it is a preview.
pub(crate) fn gives(packet: &DataView<'_>) -> bool
    ensures { result ≡ gives packet.now }
{
    (packet.start() == SLOT_PRIORITIES) & !packet.preview()
}

/// Keeps what a packet gives in place of what its source gave before.
pub(crate) fn give(all: &mut AllGiven, moment: u64, packet: &DataView<'_>)
    ensures { all.new.items ≡ give (given_by moment packet.now) all.old.items }
{
    forget(all, &packet.cid());
    all.truncate(MAX_SOURCES - 1);
    all.insert(0, given_by(moment, packet));
}

/// Forgets what a source gave.
pub(crate) fn forget(all: &mut AllGiven, cid: &[u8; 16])
    ensures { all.new.items ≡ without cid.now all.old.items }
{
    let cid = *cid;
    all.retain(
        |given: &mut Given| -> bool
            ensures { (result ≡ not (is_by cid given.old)) × (given.new ≡ given.old) }
        { !given.is_by(&cid) },
    );
}

/// Forgets what doesn't count any more at the moment of the table of the sources.
pub(crate) fn sweep(all: &mut AllGiven, sources: &SourceTable, moment: u64)
    ensures { all.new.items ≡ filter (counts moment sources.now.table.rows) all.old.items }
{
    all.retain(
        |given: &mut Given| -> bool
            ensures { (result ≡ counts moment sources.entry.now.table.rows given.old) × (given.new ≡ given.old) }
        {
            moment.saturating_sub(given.moment) < NETWORK_DATA_LOSS
                && sources.held(&given.cid).is_some()
        },
    );
}

/// The slot priorities that a source gave, if it has any.
pub(crate) fn priorities_given<'a>(all: &'a AllGiven, cid: &[u8; 16]) -> Option<&'a Levels>
    ensures { option_map (λ p. p.now) result ≡ priorities_given cid.now all.now.items }
{
    for given in all.as_slice() {
        if given.is_by(cid) {
            return Some(&given.priorities);
        }
    }
    None
}

/// The moment of what was given the longest ago, and `u64::MAX` where there is nothing.
pub(crate) fn oldest(all: &AllGiven) -> u64
    ensures { result ≡ oldest_given all.now.items }
{
    let mut oldest = u64::MAX;
    for given in all.as_slice() {
        oldest = oldest.min(given.moment);
    }
    oldest
}
