//! Moments, addresses and universes by their digits, each written from its last place to its first: the same as a formatter writes,
//! without one.

ghost use Rattle.std.specs.Prelude.{◌≡◌, ◌≤◌, ◌<◌, ◌+◌, ◌++◌, ◌∷◌, length, drop, take, decimal, IsAscii};
ghost use Rattle.sacn_tell.specs.Sentences.{universe_text};
ghost use Rattle.sacn_tell.specs.Spelling.{address_text, zeros};

use itoa::write_digits;

/// Room for the longest of them: a moment has at most 21 letters, and so has an address with its port.
pub(crate) const ROOM: usize = 24;

/// Where the point of a moment stands: three places follow.
const POINT: usize = ROOM - 4;

/// Where the seconds of a moment begin at the latest, since they have six places or more.
pub(crate) const SECONDS: usize = POINT - 6;

/// Where the number ends in the text of a universe: two spaces follow.
const UNIVERSE_END: usize = 14;

/// An address, so that it ends at a place; where it begins.
pub(crate) fn put_address(room: &mut [u8; ROOM], end: usize, address: &[u8; 4]) -> usize
    requires { (15 ≤ end) × (end ≤ 24) }
    ensures place { result ≤ end }
    ensures written { drop result room.new ≡ address_text address.now ++ drop end room.old }
    ensures ascii { IsAscii (drop end room.old) → IsAscii (drop result room.new) }
{
    let [a, b, c, d] = *address;
    let end = put_octet(room, end, d);
    let end = put_octet(room, end, c);
    let end = put_octet(room, end, b);
    write_digits(u64::from(a), room, end)
}

// A point and an octet behind it, so that they end at a place; where they begin.
fn put_octet(room: &mut [u8; ROOM], end: usize, octet: u8) -> usize
    requires { (4 ≤ end) × (end ≤ 24) }
    ensures place { result ≤ end }
    ensures near { end ≤ result + 4 }
    ensures written { drop result room.new ≡ 46 ∷ (decimal octet ++ drop end room.old) }
{
    put_after(room, end, b'.', u64::from(octet))
}

/// A colon and a port behind it, so that they end with the room; where they begin.
pub(crate) fn put_port(room: &mut [u8; ROOM], port: u16) -> usize
    ensures place { result ≤ 24 }
    ensures near { 18 ≤ result }
    ensures written { drop result room.new ≡ 58 ∷ (decimal port ++ drop 24 room.old) }
    ensures ascii { IsAscii (drop 24 room.old) → IsAscii (drop result room.new) }
{
    put_after(room, ROOM, b':', u64::from(port))
}

// A mark and a number behind it, so that they end at a place; where they begin.
fn put_after(room: &mut [u8; ROOM], end: usize, mark: u8, number: u64) -> usize
    requires { (length (decimal number) < end) × (end ≤ 24) }
    ensures place { result + (1 + length (decimal number)) ≡ end }
    ensures written { drop result room.new ≡ mark ∷ (decimal number ++ drop end room.old) }
{
    let start = write_digits(number, room, end) - 1;
    room[start] = mark;
    start
}

/// Seconds, a point and three places, so that they end with the room; where they begin.
pub(crate) fn put_seconds(room: &mut [u8; ROOM], seconds: u64, rest: u64) -> usize
    requires { rest < 1000 }
    ensures place { result + length (decimal seconds) ≡ 20 }
    ensures before { take result room.new ≡ take result room.old }
    ensures written { drop result room.new ≡ decimal seconds ++ (46 ∷ zeros 3 (decimal rest)) }
{
    put_places(room, rest);
    write_digits(seconds, room, POINT)
}

// A point and three places behind it, which end with the room.
fn put_places(room: &mut [u8; ROOM], rest: u64)
    requires { rest < 1000 }
    ensures before { take 20 room.new ≡ take 20 room.old }
    ensures written { drop 20 room.new ≡ 46 ∷ zeros 3 (decimal rest) }
{
    room[POINT + 3] = b'0' + (rest % 10) as u8;
    room[POINT + 2] = b'0' + (rest / 10 % 10) as u8;
    room[POINT + 1] = b'0' + (rest / 100) as u8;
    room[POINT] = b'.';
}

/// The text of a universe: its number, right-aligned in five places behind the word, and two spaces.
pub(crate) fn written_universe(universe: u16) -> [u8; 16]
    ensures text { result ≡ universe_text universe }
    ensures ascii { IsAscii result }
{
    let mut room = *b"universe        ";
    write_digits(u64::from(universe), &mut room, UNIVERSE_END);
    room
}
