//! Sources lent out of a store.

ghost use Rattle.std.specs.Prelude.{◌≡◌, ◌≤◌, length, slice_get};

use crate::entry::entry_at;
use crate::held_view::HeldView;
use crate::limits::MAX_SOURCES;
use crate::slots::Layer;
use crate::store::Store;

impl Store {
    ghost use Rattle.sacn_sources.specs.Rows.{row_of};

    /// The source of this CID.
    pub(crate) fn held(&self, cid: &[u8; 16]) -> Option<HeldView<'_>>
        ensures { result ≡ row_of cid.now self.now.rows }
    {
        match self.search(cid) {
            Ok(at) => self.source_at(at),
            Err(_) => None,
        }
    }

    /// How many sources are held.
    pub(crate) fn sources(&self) -> usize
        ensures count { result ≡ length self.now.rows }
        ensures few { result ≤ MAX_SOURCES }
    {
        self.entries.len()
    }

    /// The source at a place, by ascending CID.
    pub(crate) fn source_at(&self, at: usize) -> Option<HeldView<'_>>
        ensures { result ≡ slice_get self.now.rows at }
    {
        if self.count() <= at {
            return None;
        }
        let entry = entry_at(&self.entries, at);
        let shown = match entry.priority {
            Some(priority) => Some(Layer {
                priority,
                levels: &self.frames[entry.key],
            }),
            None => None,
        };
        Some(HeldView {
            cid: entry.cid,
            sequence_number: entry.sequence_number,
            shown,
            moment: entry.moment,
        })
    }
}
