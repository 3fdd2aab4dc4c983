//! The end of a handle, of whatever kind.
ghost use Rattle.std.specs.Prelude.{◌≡◌, is_some, true, None};

use crate::handle::Handle;
use std::alloc::Global;

/// Gives back all memory of what a handle stands for, and leaves the handle empty.
#[unsafe(no_mangle)]
pub extern "C" fn sacn_proved_free(alloc: Global, handle: &mut Handle)
    requires { is_some handle.old.value ≡ true }
    ensures { handle.new.value ≡ None }
{
    drop(std::mem::replace(handle, Handle::empty(alloc)).into_box());
}
