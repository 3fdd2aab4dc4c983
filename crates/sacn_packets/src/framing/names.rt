//! Source names (E1.31, 6.2.2) and multicast groups (9.3.1).

ghost use Rattle.std.specs.Prelude.{◌≡◌, ◌==◌, ◌≤◌, ◌-◌, ◌++◌, position, length, replicate, IfSome};
ghost use Rattle.std.specs.List.{before_first, list_any};
ghost use Rattle.sacn_packets.specs.Naming.{name_from, padded, group_of};

use crate::root::put;

fn nul_in(name: &[u8]) -> Option<usize>
    ensures { result ≡ position (λ octet. octet == 0) name.now }
{
    name.iter().position(|octet| *octet == 0)
}

/// What stands before the first NUL.
#[tactic(auto, using(crate::proofs::FirstNul::up_to_first, crate::proofs::FirstNul::none_first))]
pub fn up_to_nul(name: &[u8]) -> &[u8]
    ensures { result.now ≡ before_first (λ octet. octet == 0) name.now }
{
    match nul_in(name) {
        Some(len) => &name[..len],
        None => name,
    }
}

/// The most octets of a source name: its field has 64, and the last is NUL.
pub const MAX_NAME: usize = 63;

/// The octets of a source name: the text, and NUL to the end. None over 63 octets, or where the text has a NUL.
pub fn source_name(text: &str) -> Option<[u8; 64]>
    ensures exact { result ≡ name_from text.now }
    // The text is what is read from it.
    ensures back { IfSome result (λ name. before_first (λ octet. octet == 0) name ≡ text.now) }
{
    let octets = text.as_bytes();
    if octets.len() > MAX_NAME {
        return None;
    }
    if has_nul(octets) {
        return None;
    }
    Some(padded(octets))
}

fn has_nul(octets: &[u8]) -> bool
    ensures { result ≡ list_any (λ octet. octet == 0) octets.now }
{
    octets.iter().any(|octet| *octet == 0)
}

fn padded(octets: &[u8]) -> [u8; 64]
    requires { length octets.now ≤ 63 }
    ensures { result ≡ padded octets.now }
{
    let mut name = [0; 64];
    put(&mut name, 0, octets);
    name
}

/// The high half of every group: 239.255, the site-local scope of IPv4 (9.3.1).
const GROUPS: [u8; 2] = [239, 255];

/// The IPv4 multicast group of a universe, 239.255 and its high and low octet (9.3.1).
pub fn multicast_group(universe: u16) -> [u8; 4]
    ensures { result ≡ group_of universe }
{
    [
        GROUPS[0],
        GROUPS[1],
        (universe / 256) as u8,
        (universe % 256) as u8,
    ]
}
