//! The numbers, as contracts say them. It costs nothing when it runs.
ghost use Rattle.std.specs.Prelude.{◌≡◌};
ghost use Rattle.sacn_packets.specs.declared.universe.TheConstants.{FRAME_OCTETS, MAX_PRIORITY, MAX_UNIVERSE, MIN_UNIVERSE, NULL_START_CODE, SLOTS};

/// What the numbers of a universe are.
pub fn numbers()
    ensures least_universe { MIN_UNIVERSE ≡ 1 }
    ensures most_universe { MAX_UNIVERSE ≡ 63999 }
    ensures priority { MAX_PRIORITY ≡ 200 }
    ensures slots { SLOTS ≡ 512 }
    ensures frame { FRAME_OCTETS ≡ 513 }
    ensures start { NULL_START_CODE ≡ 0 }
{}
