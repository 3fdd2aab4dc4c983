//! The pages of a list of universes (E1.31, 6.4 and 8).

ghost use Rattle.std.specs.Prelude.{◌≡◌, ℕ, ◌+◌, ◌*◌, ◌-◌, ◌<◌, ◌≤◌, List, ◌++◌, length, drop, take, Ok};
ghost use Rattle.sacn_packets.specs.PacketReading.{reading_packet};
ghost use Rattle.sacn_packets.specs.PageText.{numbers_text};
ghost use Rattle.sacn_packets.specs.PacketText.{page_text, unused};
ghost use Rattle.sacn_packets.specs.declared.framing.packet.Packet.TheVariants.{PagePacket};
ghost use Rattle.sacn_discovery.specs.Pages.{page_count, numbers_on, page_of_list, page_head};
ghost use Rattle.std.specs.List.Sorted.{IsStrictlyIncreasing};

use sacn_packets::framing::layout::{
    DISCOVERY_AT, LAST_PAGE_AT, LIST_VECTOR_AT, NAME_AT, PAGE_AT, UNIVERSES_AT, VECTOR_AT,
};
use sacn_packets::root::layout::BODY_AT;
use sacn_packets::{
    DISCOVERY_VECTOR, EXTENDED_VECTOR, LIST_VECTOR, PAGE_NUMBERS, pdu_field, put, write_root,
};

/// Where the framing layer begins, and where the universe numbers do.
const FRAMING_AT: usize = BODY_AT;

const NUMBERS_AT: usize = FRAMING_AT + UNIVERSES_AT;

/// The octets of the discovery layer before the universe numbers.
const DISCOVERY_HEAD: usize = UNIVERSES_AT - DISCOVERY_AT;

/// Where the reserved octets stand, after the source name.
const RESERVED_AT: usize = NAME_AT + 64;

/// The four reserved octets of the framing layer (6.4.3), written as 0.
const RESERVED: [u8; 4] = [0; 4];

/// How many pages a list of `n` universes has: one for none, else a page for each 512 begun.
pub fn page_count(n: usize) -> usize
    ensures { result ≡ page_count n }
{
    if n == 0 {
        return 1;
    }
    (n - 1) / PAGE_NUMBERS + 1
}

/// Writes page `k` of a list of universes at the front, and returns its length in octets: 120, and two
/// for each of its numbers. No other octets are written. A list ascends, so it has at most 65,536
/// universes on 128 pages.
pub fn write_page(
    list: &[u16],
    k: usize,
    cid: &[u8; 16],
    name: &[u8; 64],
    out: &mut [u8; 1144],
) -> usize
    requires rising { IsStrictlyIncreasing list.now }
    requires there { k < page_count (length list.now) }
    ensures text { out.new
        ≡ page_text (page_of_list list.now k cid.now name.now) unused ++ drop result out.old }
    ensures len { result ≡ 120 + 2 * length (numbers_on list.now k) }
    // What was written, followed by anything, is read as this page.
    ensures reading { (rest : List ℕ) → reading_packet (take result out.new ++ rest)
        ≡ Ok (PagePacket (page_of_list list.now k cid.now name.now)) }
{
    let start = PAGE_NUMBERS * k;
    let count = (list.len() - start).min(PAGE_NUMBERS);
    let numbers = &list[start..start + count];
    write_root(&mut out[..], EXTENDED_VECTOR, cid, UNIVERSES_AT + 2 * count);
    let last = page_count(list.len()) - 1;
    write_layers(&mut out[FRAMING_AT..], name, k as u8, last as u8, count);
    NUMBERS_AT + write_numbers(&mut out[NUMBERS_AT..], numbers)
}

// The framing layer and the head of the discovery layer, before `count` numbers.
fn write_layers(out: &mut [u8], name: &[u8; 64], page: u8, last: u8, count: usize)
    requires room { 82 ≤ length out.old }
    requires few { count ≤ 512 }
    ensures { out.new ≡ page_head name.now page last (2 * count) ++ drop 82 out.old }
{
    put(out, 0, &pdu_field(UNIVERSES_AT + 2 * count));
    put(out, VECTOR_AT, &DISCOVERY_VECTOR.to_be_bytes());
    put(out, NAME_AT, name);
    put(out, RESERVED_AT, &RESERVED);
    put(out, DISCOVERY_AT, &pdu_field(DISCOVERY_HEAD + 2 * count));
    put(out, LIST_VECTOR_AT, &LIST_VECTOR.to_be_bytes());
    put(out, PAGE_AT, &[page]);
    put(out, LAST_PAGE_AT, &[last]);
}

// The universe numbers, two octets each.
fn write_numbers(out: &mut [u8], numbers: &[u16]) -> usize
    requires room { 2 * length numbers.now ≤ length out.old }
    requires few { length numbers.now ≤ 512 }
    ensures text { out.new ≡ numbers_text numbers.now ++ drop result out.old }
    ensures len { result ≡ 2 * length numbers.now }
{
    for i in 0..numbers.len() {
        put(out, 2 * i, &numbers[i].to_be_bytes());
    }
    2 * numbers.len()
}
