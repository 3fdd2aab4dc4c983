//! Watches of each kind.

ghost use Rattle.std.specs.Prelude.{List, OnOk};
ghost use Rattle.sacn_edge.specs.Additions.{Extends};
ghost use Rattle.sacn_watch.specs.Watches.{Receive, heard_by, IsWatch};

use crate::fault::WatchFault;
use crate::keys::Keyboard;
use crate::listener::Listener;
use crate::sized_screen::{Screen, Sizes};
use crate::watch::run_watch;
use sacn_tell::{Follower, Options};
use std::alloc::Global;
use std::io::Write;

/// Tells what a listener hears until a moment in milliseconds: a line for each thing as it happens, and tables at the end.
///
/// Errors: OutOfMemory; Device where a line can't be written.
pub fn watch_lines<L: Listener, O: Write>(
    alloc: Global,
    listener: &mut L,
    options: &Options<'_>,
    until: u64,
    out: &mut O,
) -> Result<(), WatchFault>
    ensures { (turns : List (List Receive))
        × Extends (L.Receiver.told listener.old) (L.Receiver.told listener.new) (heard_by turns)
        × OnOk result (IsWatch until (L.Ended listener.new) turns) }
{
    let mut follower = Follower::new(alloc, *options, None, out)?;
    run_watch(listener, &mut follower, until)
}

/// Shows what a listener hears until a moment in milliseconds on a screen, whose rows stay as lines at its end.
///
/// Errors: OutOfMemory; Device where the terminal can't be written.
pub fn watch_terminal<L: Listener, O: Write, Z: Sizes, K: Keyboard>(
    listener: &mut L,
    screen: &mut Screen<'_, O, Z, K>,
    until: u64,
) -> Result<(), WatchFault>
    ensures { (turns : List (List Receive))
        × Extends (L.Receiver.told listener.old) (L.Receiver.told listener.new) (heard_by turns)
        × OnOk result (IsWatch until (L.Ended listener.new) turns) }
{
    run_watch(listener, screen, until)
}
