//! The frame of a universe.
ghost use Rattle.std.specs.Prelude.{◌≡◌, ◌∷◌};

use sacn_packets::{FRAME_OCTETS, NULL_START_CODE, SLOTS};

/// Writes the frame of these slots: the null start code, and after it the 512 slots. (E1.11.)
///
/// All 513 octets of `frame` are written.
pub fn frame_bytes(slots: &[u8; SLOTS], frame: &mut [u8; FRAME_OCTETS])
    ensures { frame.new ≡ NULL_START_CODE ∷ slots.now }
{
    frame[0] = NULL_START_CODE;
    frame[1..].copy_from_slice(slots);
}
