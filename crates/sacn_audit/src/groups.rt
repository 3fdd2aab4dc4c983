//! Multicast groups.

ghost use Rattle.std.specs.Prelude.{◌≡◌};
ghost use Rattle.sacn_audit.specs.Groups.{is_multicast, is_other_group};

use crate::limits::{FIRST_OF_MULTICAST, LAST_OF_MULTICAST};
use sacn_packets::multicast_group;

/// Whether an IPv4 address is a multicast address that isn't the group of this universe (E1.31, 9.3.1).
pub(crate) fn is_other_group(address: &[u8; 4], universe: u16) -> bool
    ensures { result ≡ is_other_group address.now universe }
{
    is_multicast(*address) & (*address != multicast_group(universe))
}

// Whether an IPv4 address is one of 224.0.0.0/4.
fn is_multicast(address: [u8; 4]) -> bool
    ensures { result ≡ is_multicast address }
{
    let [octet, _, _, _] = address;
    (FIRST_OF_MULTICAST <= octet) & (octet <= LAST_OF_MULTICAST)
}
