//! A setup without a text: a port for each of some universes.
ghost use Rattle.std.specs.Prelude.{◌≡◌, ◌≤◌, ◌&&◌, nat_le, length, IfOk};
ghost use Rattle.std.specs.List.{list_all};
ghost use Rattle.sacn_files.specs.Document.{Gives};
ghost use Rattle.sacn_node.specs.WholeUniverses.{is_universe, whole_ports, setup_of_universes};
ghost use Rattle.sacn_node.specs.declared.limits.TheConstants.{MAX_PORTS, MIN_PORT};

use super::ranges::one_range;
use super::{NodeSetup, PortSetup, SetupFault};
use crate::limits::{MAX_PORTS, MIN_PORT};
use sacn_files::limits::DEFAULT_UDP_PORT;
use sacn_packets::{MAX_UNIVERSE, MIN_UNIVERSE};
use std::alloc::{AllocError, Global};

fn is_universe(universe: u16) -> bool
    ensures { result ≡ is_universe universe }
{
    MIN_UNIVERSE <= universe && universe <= MAX_UNIVERSE
}

fn are_universes(universes: &[u16]) -> bool
    ensures { result ≡ list_all is_universe universes.now }
{
    universes.iter().all(|universe| is_universe(*universe))
}

/// A port for each universe, numbered from 1 on.
fn whole_ports(alloc: Global, universes: &[u16]) -> Result<Vec<PortSetup>, AllocError>
    requires { length universes.now ≤ MAX_PORTS }
    ensures { IfOk result (λ v. v.items ≡ whole_ports MIN_PORT universes.now) }
{
    let mut ports = Vec::new(alloc);
    let mut number = MIN_PORT;
    for universe in universes {
        let ranges = one_range(alloc, *universe)?;
        ports.push(PortSetup::new(number, ranges))?;
        number += 1;
    }
    Ok(ports)
}

/// The setup of a node whose port `i + 1` shows the whole of `universes[i]`, as a text of version 1
/// has it that names no UDP port.
///
/// Errors: `KeyValue` where a universe isn't 1 to 63999, else `Limit` where there are more than
/// `MAX_PORTS`; `OutOfMemory` may stand in place of either where a growth is refused.
pub fn setup_of_universes(alloc: Global, universes: &[u16]) -> Result<NodeSetup, SetupFault>
    ensures { Gives SetupFault.OutOfMemory result (setup_of_universes universes.now) }
{
    if !are_universes(universes) {
        return Err(SetupFault::KeyValue);
    }
    if MAX_PORTS < universes.len() {
        return Err(SetupFault::Limit);
    }
    let ports = whole_ports(alloc, universes)?;
    Ok(NodeSetup::new(DEFAULT_UDP_PORT, ports))
}
