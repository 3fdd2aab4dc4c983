//! Pages of universe discovery (E1.31, 6.4 and 8), for C.
ghost use Rattle.std.specs.Prelude.{◌≡◌, ◌++◌, ◌+◌, ◌*◌, ◌≤◌, List, ℕ, length, take, drop, true, Ok};
ghost use Rattle.std.specs.List.Sorted.{IsStrictlyIncreasing};
ghost use Rattle.sacn_packets.specs.PacketReading.{reading_packet};
ghost use Rattle.sacn_packets.specs.PacketText.{page_text, unused};
ghost use Rattle.sacn_packets.specs.declared.framing.packet.Packet.TheVariants.{PagePacket};
ghost use Rattle.sacn_discovery.specs.Pages.{numbers_on, page_of_list};
ghost use Rattle.sacn_c.specs.Pages.{universes_status, universes_count, universes_room, IsPageOf};
ghost use Rattle.sacn_c.specs.Rooms.{room_status, room_with};
ghost use Rattle.sacn_c.specs.declared.status.TheConstants.{DONE, RANGE};

use crate::packets::PacketFields;
use crate::reading::packet_at;
use crate::status::{DONE, LENGTH, RANGE};
use sacn_discovery::{page_count, write_page};
use sacn_packets::{Packet, PageView};

/// Reads the universe numbers of a page as they came, to the front of a room, and tells how many there are. The status is the fault of octets
/// that are no packet, `RANGE` where the packet is no page, and `LENGTH` where there is too little room.
#[unsafe(no_mangle)]
pub extern "C" fn sacn_proved_read_universes(
    octets: &[u8],
    universes: &mut [u16],
    count: &mut usize,
) -> u32
    ensures status { result ≡ universes_status universes.old (reading_packet octets.now) }
    ensures count { count.new ≡ universes_count count.old (reading_packet octets.now) }
    ensures room { universes.new ≡ universes_room universes.old (reading_packet octets.now) }
{
    match packet_at(octets) {
        Ok(Packet::PagePacket(page)) => put_universes(&page, universes, count),
        Ok(_) => RANGE,
        Err(status) => status,
    }
}

fn put_universes(page: &PageView<'_>, universes: &mut [u16], count: &mut usize) -> u32
    ensures status { result ≡ room_status universes.old page.now.numbers }
    ensures count { count.new ≡ length page.now.numbers }
    ensures room { universes.new ≡ room_with universes.old page.now.numbers }
{
    *count = page.count();
    if universes.len() < page.count() {
        return LENGTH;
    }
    copy_numbers(page, universes);
    DONE
}

fn copy_numbers(page: &PageView<'_>, universes: &mut [u16])
    requires { length page.now.numbers ≤ length universes.old }
    ensures { universes.new ≡ page.now.numbers ++ drop (length page.now.numbers) universes.old }
{
    for i in 0..page.count() {
        universes[i] = page.number(i);
    }
}

/// Whether each number is below the next.
fn rises(list: &[u16]) -> bool
    ensures rises { result ≡ true → IsStrictlyIncreasing list.now }
    ensures only { IsStrictlyIncreasing list.now → result ≡ true }
{
    for i in 1..list.len() {
        if list[i - 1] >= list[i] {
            return false;
        }
    }
    true
}

/// Writes a page of a list of universes, as `write_page`: of the fields the CID, the name and the page's number. The status is `RANGE` where the
/// list doesn't ascend, or has no such page.
#[unsafe(no_mangle)]
pub extern "C" fn sacn_proved_write_page(
    packet: &PacketFields,
    list: &[u16],
    out: &mut [u8; 1144],
    count: &mut usize,
) -> u32
    ensures octets { result ≡ DONE → out.new
        ≡ page_text (page_of_list list.now packet.now.page packet.now.cid packet.now.name) unused
        ++ drop count.new out.old }
    ensures count { result ≡ DONE
        → count.new ≡ 120 + 2 * length (numbers_on list.now packet.now.page) }
    ensures reading { result ≡ DONE → (rest : List ℕ)
        → reading_packet (take count.new out.new ++ rest)
        ≡ Ok (PagePacket (page_of_list list.now packet.now.page packet.now.cid packet.now.name)) }
    ensures done { IsPageOf packet.now list.now → result ≡ DONE }
    ensures only { result ≡ DONE → IsPageOf packet.now list.now }
    ensures status { (result ≡ DONE → ⊥) → result ≡ RANGE }
    ensures refused { (result ≡ DONE → ⊥) → (out.new ≡ out.old) × (count.new ≡ count.old) }
{
    let page = usize::from(packet.page);
    if !rises(list) {
        return RANGE;
    }
    if page >= page_count(list.len()) {
        return RANGE;
    }
    let cid = packet.cid;
    let name = packet.name;
    *count = write_page(list, page, &cid, &name, out);
    DONE
}
