//! Laws of the definitions alone.

ghost use Rattle.std.specs.Prelude.{◌≡◌};
ghost use Rattle.sacn_packets.specs.declared.root.octets.TheConstants.{PDU_FLAGS};
ghost use Rattle.sacn_packets.specs.declared.root.reading.TheConstants.{DATA_VECTOR, EXTENDED_VECTOR};

/// What the numbers of the root layer are (5.4, 5.5).
pub fn numbers()
    ensures flags { PDU_FLAGS ≡ 7 }
    ensures data { DATA_VECTOR ≡ 4 }
    ensures extended { EXTENDED_VECTOR ≡ 8 }
{}
