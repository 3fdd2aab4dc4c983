//! An entry of a table, and what is read and written of entries.

ghost use Rattle.std.specs.Prelude.{◌≡◌, ◌↔◌, ◌<◌, IfSome, IsTrue, length, slice_index_or, slice_set};
ghost use Rattle.arrayvec.specs.ArrayVec.{array_vec_len};
ghost use Rattle.sacn_sources.specs.declared.entry.Entry.{Entry as Stored};
ghost use Rattle.sacn_sources.specs.Wakes.{oldest_by};

use crate::limits::MAX_SOURCES;
use arrayvec::ArrayVec;

/// A source. Its levels are stored under its key, which it has from its making to its going.
#[derive(Clone, Copy, Default)]
pub(crate) struct Entry {
    pub(crate) cid: [u8; 16],
    pub(crate) sequence_number: u8,
    /// The priority of the levels, or none where the source has ended.
    pub(crate) priority: Option<u8>,
    pub(crate) moment: u64,
    pub(crate) key: usize,
}

/// The least moment of these entries, and `u64::MAX` where there is none.
pub(crate) fn oldest_entry(entries: &[Entry]) -> u64
    ensures { result ≡ oldest_by (λ e. e.moment) entries.now }
{
    let mut oldest = u64::MAX;
    for entry in entries {
        oldest = oldest.min(entry.moment);
    }
    oldest
}

/// The place of an entry of this CID, if there is one.
pub(crate) fn place_of(entries: &[Entry], cid: &[u8; 16]) -> Option<usize>
    ensures within { IfSome result (λ at. at < length entries.now) }
    ensures here { IfSome result
        (λ at. (d : Stored) → (slice_index_or entries.now at d).cid ≡ cid.now) }
{
    for at in 0..entries.len() {
        if is_of(&entries[at], cid) {
            return Some(at);
        }
    }
    None
}

// Whether the entry has this CID. It compares two numbers of eight octets.
fn is_of(entry: &Entry, cid: &[u8; 16]) -> bool
    ensures { IsTrue result ↔ (entry.now.cid ≡ cid.now) }
{
    entry.cid == *cid
}

/// The entry at this place.
pub(crate) fn entry_at(entries: &ArrayVec<Entry, MAX_SOURCES>, at: usize) -> &Entry
    requires { at < array_vec_len entries.now }
    ensures { (d : Stored) → result.now ≡ slice_index_or entries.now.items at d }
{
    &entries[at]
}

/// Writes the number of the entry at this place, and nothing else.
pub(crate) fn renumber(entries: &mut ArrayVec<Entry, MAX_SOURCES>, at: usize, sequence_number: u8)
    requires { at < array_vec_len entries.old }
    ensures { (d : Stored) → entries.new.items ≡ slice_set entries.old.items at
        (record (slice_index_or entries.old.items at d) { sequence_number = sequence_number }) }
{
    entries[at].sequence_number = sequence_number;
}

/// Writes all of the entry at this place but its CID and key. Returns its key.
pub(crate) fn renew(
    entries: &mut ArrayVec<Entry, MAX_SOURCES>,
    at: usize,
    sequence_number: u8,
    priority: Option<u8>,
    moment: u64,
) -> usize
    requires { at < array_vec_len entries.old }
    ensures key { (d : Stored) → result ≡ (slice_index_or entries.old.items at d).key }
    ensures entries { (d : Stored) → entries.new.items ≡ slice_set entries.old.items at
        (record (slice_index_or entries.old.items at d) {
          sequence_number = sequence_number;
          priority = priority;
          moment = moment;
        }) }
{
    let entry = &mut entries[at];
    entry.sequence_number = sequence_number;
    entry.priority = priority;
    entry.moment = moment;
    entry.key
}
