//! Laws of the definitions alone.

ghost use Rattle.std.specs.Prelude.{◌≡◌, ℕ, List, ◌++◌, Ok};
ghost use Rattle.sacn_packets.specs.Data.{Data, IsData};
ghost use Rattle.sacn_packets.specs.FramingText.{nothing};
ghost use Rattle.sacn_packets.specs.PacketReading.{reading_packet};
ghost use Rattle.sacn_packets.specs.Page.{Page, IsPage};
ghost use Rattle.sacn_packets.specs.PacketText.{Reads, data_text, page_text, unused};
ghost use Rattle.sacn_packets.specs.declared.framing.packet.Packet.{Packet};
ghost use Rattle.sacn_packets.specs.declared.framing.packet.Packet.TheVariants.{DataPacket, PagePacket};
ghost use Rattle.sacn_packets.specs.declared.framing.extended_layer.TheConstants.{DISCOVERY_VECTOR, LIST_VECTOR, SYNC_VECTOR};
ghost use Rattle.sacn_packets.specs.declared.framing.data_layer.TheConstants.{DATA_PACKET_VECTOR};
ghost use Rattle.sacn_packets.specs.declared.framing.names.TheConstants.{MAX_NAME};
ghost use Rattle.sacn_packets.specs.declared.framing.data.TheConstants.{PREVIEW_DATA, STREAM_TERMINATED};
ghost use Rattle.sacn_packets.specs.declared.framing.page.TheConstants.{PAGE_NUMBERS};

/// No octets are two packets.
pub fn one_reading()
    ensures { (octets : List ℕ) (p q : Packet) → Reads octets p → Reads octets q → p ≡ q }
{}

/// The text of a data packet, as it is written, followed by anything is read as its fields.
pub fn written_is_read()
    ensures { (d : Data) (rest : List ℕ) → IsData d
        → reading_packet (data_text d nothing ++ rest) ≡ Ok (DataPacket d) }
{}

/// The text of a page, as it is written, followed by anything is read as its fields.
pub fn written_page_is_read()
    ensures { (p : Page) (rest : List ℕ) → IsPage p
        → reading_packet (page_text p unused ++ rest) ≡ Ok (PagePacket p) }
{}

/// What the numbers of the packets are.
pub fn numbers()
    ensures page { PAGE_NUMBERS ≡ 512 }
    ensures name { MAX_NAME ≡ 63 }
    ensures data { DATA_PACKET_VECTOR ≡ 2 }
    ensures synchronization { SYNC_VECTOR ≡ 1 }
    ensures discovery { DISCOVERY_VECTOR ≡ 2 }
    ensures list { LIST_VECTOR ≡ 1 }
    ensures preview { PREVIEW_DATA ≡ 128 }
    ensures terminated { STREAM_TERMINATED ≡ 64 }
{}
