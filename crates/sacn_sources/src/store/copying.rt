//! The entries and their levels, copied.

ghost use Rattle.std.specs.Prelude.{◌≡◌, ◌≤◌, length, IfOk};
ghost use Rattle.slab.specs.Slab.{slab_len};

use crate::entry::Entry;
use crate::limits::MAX_SOURCES;
use crate::slots::Levels;
use crate::store::Store;
use arrayvec::ArrayVec;
use slab::Slab;
use std::alloc::AllocError;

impl Clone for Store {
    ghost is_clone = { λ store copy. copy ≡ store };

    fn clone(&self) -> Result<Store, AllocError> {
        Ok(Store {
            entries: same_entries(self.entries.as_slice()),
            frames: same_frames(&self.frames)?,
            moment: self.moment,
        })
    }
}

// These entries again.
fn same_entries(entries: &[Entry]) -> ArrayVec<Entry, MAX_SOURCES>
    requires { length entries.now ≤ MAX_SOURCES }
    ensures { result.items ≡ entries.now }
{
    let mut same = ArrayVec::new();
    for entry in entries {
        same.push(*entry);
    }
    same
}

// These frames again under the same keys, with the room for those of every source.
fn same_frames(frames: &Slab<Levels>) -> Result<Slab<Levels>, AllocError>
    requires { slab_len frames.now ≤ MAX_SOURCES }
    ensures slots { IfOk result (λ same. same.slots ≡ frames.now.slots) }
    ensures room { IfOk result (λ same. MAX_SOURCES ≤ same.capacity) }
{
    let mut same = frames.clone()?;
    same.reserve(MAX_SOURCES - frames.len())?;
    Ok(same)
}
