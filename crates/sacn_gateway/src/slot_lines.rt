//! A port's frame as a line for people.
ghost use Rattle.std.specs.Prelude.{◌≡◌, ◌+◌, ◌-◌, ◌++◌, ◌≤◌, List, length, max};
ghost use Rattle.sacn_gateway.specs.declared.slot_lines.TheConstants.{LEAST_WIDTH, MOST_WIDTH};
ghost use Rattle.sacn_gateway.specs.SlotLines.{kept_for, line_head, line_places, lit_slots, slot_word, dark_text, slots_text, slots_within};

use arrayvec::ArrayVec;
use itoa::Buffer;
use sacn_packets::FRAME_OCTETS;

/// The least width of a line, in letters: its head has 20 at most, and the mark that slots follow has 3.
pub const LEAST_WIDTH: usize = 24;

/// The most letters of a line.
pub const MOST_WIDTH: usize = 1000;

/// A line for people, without its LF.
pub type SlotLine = ArrayVec<u8, MOST_WIDTH>;

/// A slot that isn't 0.
#[derive(Clone, Copy, Default)]
pub struct LitSlot {
    /// 1 to 512.
    pub slot: u16,
    /// 1 to 255.
    pub level: u8,
}

/// Room for a space, a number of 16 bits, an at sign and an octet.
const WORD_OCTETS: usize = 1 + 5 + 1 + 3;

/// The mark that more slots follow.
const MARK: &[u8] = b" ..";

/// Adds a part to a line.
fn add<const N: usize>(line: &mut ArrayVec<u8, N>, part: &[u8])
    requires { length line.old.items + length part.now ≤ N }
    ensures text { line.new.items ≡ line.old.items ++ part.now }
    ensures long { length line.new.items ≡ length line.old.items + length part.now }
{
    let _ = line.try_extend_from_slice(part);
}

/// How many slots of a frame aren't 0.
fn count_lit(frame: &[u8; FRAME_OCTETS]) -> usize
    ensures count { result ≡ length (lit_slots frame.now) }
    ensures most { result ≤ 512 }
{
    let mut count = 0;
    for slot in 1..FRAME_OCTETS {
        if frame[slot] != 0 {
            count += 1;
        }
    }
    count
}

/// A slot and its level, behind a space.
#[tactic(auto, unfolding(crate::specs::SlotLines::slot_word))]
fn slot_word(lit: LitSlot) -> ArrayVec<u8, WORD_OCTETS>
    ensures { result.items ≡ slot_word lit }
{
    let mut word = ArrayVec::new();
    add(&mut word, b" ");
    add(&mut word, Buffer::new().format(lit.slot).as_bytes());
    add(&mut word, b"@");
    add(&mut word, Buffer::new().format(lit.level).as_bytes());
    word
}

/// The places that are kept behind a slot, for the mark that others follow, of which so many are left.
fn kept_before(left: usize) -> usize
    ensures { (others : List LitSlot) → length others ≡ left → result ≡ kept_for others }
{
    if left > 0 { MARK.len() } else { 0 }
}

/// Adds as many of a frame's slots that aren't 0 as find room in so many places, and where that isn't all of them a mark. No more of the
/// frame is looked at than is written.
fn add_slots(line: &mut SlotLine, places: usize, frame: &[u8; FRAME_OCTETS], count: usize)
    requires places { places ≤ MOST_WIDTH }
    requires room { length line.old.items + kept_for (lit_slots frame.now) ≤ places }
    requires count { count ≡ length (lit_slots frame.now) }
    ensures text { line.new.items
        ≡ line.old.items
        ++ slots_within (places - length line.old.items) (lit_slots frame.now) }
    ensures short { length line.new.items ≤ places }
{
    let mut left = count;
    for slot in 1..FRAME_OCTETS {
        let level = frame[slot];
        if level != 0 {
            left = left.saturating_sub(1);
            let word = slot_word(LitSlot {
                slot: slot as u16,
                level,
            });
            if line.len() + word.len() + kept_before(left) > places {
                add(line, MARK);
                return;
            }
            add(line, word.as_slice());
        }
    }
}

/// The front of the line of a port that is lit.
#[tactic(auto, unfolding(crate::specs::SlotLines::line_head))]
fn add_head(line: &mut SlotLine, port: u8, count: u16)
    requires { length line.old.items ≡ 0 }
    ensures text { line.new.items ≡ line.old.items ++ line_head port count }
    ensures short { length line.new.items ≤ 20 }
{
    add(line, b"port ");
    add(line, Buffer::new().format(port).as_bytes());
    add(line, b"  ");
    add(line, Buffer::new().format(count).as_bytes());
    add(line, b" lit ");
}

/// The places of a line on a terminal of this width: no fewer than its head needs.
fn places_of(width: usize) -> usize
    ensures places { result ≡ line_places width }
    ensures least { LEAST_WIDTH ≤ result }
    ensures most { result ≤ MOST_WIDTH }
    ensures within { result ≤ max width LEAST_WIDTH }
{
    width.max(LEAST_WIDTH).min(MOST_WIDTH)
}

/// The line of a port that shows a frame, on a terminal of this width: the port, how many of its slots aren't 0, and these, ascending,
/// each with its level, as many as fit, and ` ..` where more follow; `dark` where all are 0. It is never longer than the width, where that
/// is no less than `LEAST_WIDTH`.
pub fn slots_line(width: usize, port: u8, frame: &[u8; FRAME_OCTETS]) -> SlotLine
    ensures text { result.items ≡ slots_text width port frame.now }
    ensures short { length result.items ≤ max width LEAST_WIDTH }
{
    let mut line = ArrayVec::new();
    let count = count_lit(frame);
    let places = places_of(width);
    if count == 0 {
        add_dark(&mut line, port);
        return line;
    }
    add_head(&mut line, port, count as u16);
    add_slots(&mut line, places, frame, count);
    line
}

/// The line of a port that nothing lights.
#[tactic(auto, unfolding(crate::specs::SlotLines::dark_text))]
fn add_dark(line: &mut SlotLine, port: u8)
    requires { length line.old.items ≡ 0 }
    ensures text { line.new.items ≡ line.old.items ++ dark_text port }
    ensures short { length line.new.items ≤ 20 }
{
    add(line, b"port ");
    add(line, Buffer::new().format(port).as_bytes());
    add(line, b"  dark");
}
