//! The line of a port's frame.
ghost use Rattle.std.specs.Prelude.{◌≡◌, ◌+◌, ◌++◌, ◌≤◌, length};
ghost use Rattle.hex.specs.Hex.{encode_lower};
ghost use Rattle.sacn_edge.specs.NodeText.{FrameLine, line_text};

use crate::digits::write_digits;
use arrayvec::ArrayVec;
use itoa::Buffer;
use sacn_packets::FRAME_OCTETS;

/// Two digits for each octet of a frame.
const FRAME_DIGITS: usize = 1026;

/// The octets of the longest line: a port, a moment, a frame's digits, a space after each of the first two, and LF.
pub const LINE_OCTETS: usize = 3 + 1 + 20 + 1 + FRAME_DIGITS + 1;

/// Adds a part to a line.
pub(crate) fn add_part<const N: usize>(line: &mut ArrayVec<u8, N>, part: &[u8])
    requires { length line.old.items + length part.now ≤ N }
    ensures { line.new.items ≡ line.old.items ++ part.now }
{
    let _ = line.try_extend_from_slice(part);
}

/// The lower case digits of a frame.
fn digits_of(frame: &[u8; FRAME_OCTETS]) -> [u8; FRAME_DIGITS]
    ensures { result ≡ encode_lower frame.now }
{
    let mut digits = [0; FRAME_DIGITS];
    write_digits(frame, &mut digits);
    digits
}

/// The line of a frame of a port: the port, the moment and the frame's lower case digits, a space between, and LF.
#[tactic(auto, unfolding(crate::specs::NodeText::line_text))]
pub fn line_of(port: u8, moment: u64, frame: &[u8; FRAME_OCTETS]) -> ArrayVec<u8, LINE_OCTETS>
    ensures { result.items
        ≡ line_text (record { port = port; moment = moment; frame = frame.now }) }
{
    let mut line = ArrayVec::new();
    add_part(&mut line, Buffer::new().format(port).as_bytes());
    add_part(&mut line, b" ");
    add_part(&mut line, Buffer::new().format(moment).as_bytes());
    add_part(&mut line, b" ");
    add_part(&mut line, &digits_of(frame));
    add_part(&mut line, b"\n");
    line
}
