//! The numbers of the monitor.

/// The most pairs of a universe and a source that have an account. A packet of a further pair is counted as untracked.
pub const MAX_STREAMS: usize = 1024;

/// How many chains the streams are kept in, by their universes and sources, and in how many bits their numbers are.
pub(crate) const CHAINS: usize = 1024;

pub(crate) const CHAIN_BITS: u32 = 10;

/// After so many steps down a chain all streams are looked at in turn: of 1024 streams whose chains nobody chose less than one in a
/// hundred stands further down.
pub(crate) const LONGEST_WALK: usize = 5;

/// By what the front half of a CID, its back half and a universe count in the number of a chain: odd numbers with many ones.
pub(crate) const FRONT_FACTOR: u64 = 0x587f_d280_3bab_6c39;

pub(crate) const BACK_FACTOR: u64 = 0xad45_f23d_3b1a_11df;

pub(crate) const UNIVERSE_FACTOR: u64 = 0xc2cd_789a_3802_08a9;
