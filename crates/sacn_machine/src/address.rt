//! Addresses in words.
ghost use Rattle.std.specs.Prelude.{◌≡◌, ◌<◌, IfErr};
ghost use Rattle.sacn_machine.specs.declared.address.AddressFault.TheVariants.{Address};
ghost use Rattle.sacn_machine.specs.Addresses.{HostReadsAs, DestinationReadsAs};

use std::net::{Ipv4Addr, SocketAddrV4};
use thiserror::Error;

/// Why a word names no destination.
#[derive(Clone, Copy, Debug, PartialEq, Eq, Error)]
pub enum AddressFault {
    /// It doesn't begin with four decimal numbers of at most 255, a dot between, or doesn't go on with a colon and a
    /// number of at most 65535.
    #[error("not an IPv4 address")]
    Address,
    /// The port is 0.
    #[error("port 0")]
    Port,
}

/// The IPv4 address that a word spells: four decimal numbers, each at most 255 and without a leading zero, and a
/// dot between.
pub fn host_of(word: &str) -> Result<Ipv4Addr, AddressFault>
    ensures reads { HostReadsAs word.now result }
    ensures fault { IfErr result (λ fault. fault ≡ Address) }
{
    match Ipv4Addr::parse_ascii(word.as_bytes()) {
        Ok(address) => Ok(address),
        Err(_) => Err(AddressFault::Address),
    }
}

/// Whether a word goes on with a colon after an address.
fn has_port(word: &str) -> bool {
    match word.split_once(':') {
        Some((host, _)) => host_of(host).is_ok(),
        None => false,
    }
}

/// The destination that a word spells: an address, or an address, a colon and a port, 1 to 65535. Without a port it is
/// this one.
pub fn destination_of(word: &str, port: u16) -> Result<SocketAddrV4, AddressFault>
    requires { 0 < port }
    ensures { DestinationReadsAs port word.now result }
{
    match SocketAddrV4::parse_ascii(word.as_bytes()) {
        Ok(destination) => {
            if destination.port() == 0 {
                Err(AddressFault::Port)
            } else {
                Ok(destination)
            }
        }
        Err(_) => match host_of(word) {
            Ok(host) => Ok(SocketAddrV4::new(host, port)),
            Err(_) => {
                if has_port(word) {
                    Err(AddressFault::Port)
                } else {
                    Err(AddressFault::Address)
                }
            }
        },
    }
}
