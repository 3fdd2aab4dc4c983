//! Setups of nodes, and the node core.
use crate::Outcome;
use sacn_node::{NodeCore, NodeSetup, PortSetup, SetupFault, SlotRange, read_node};
use std::alloc::Global;

const TEXT: &str = "version = 2
[[port]]
number = 2
[[port.range]]
universe = 7
slot = 1
count = 3
port_slot = 1
[[port.range]]
universe = 8
slot = 5
count = 2
port_slot = 511
[[port]]
number = 1
[[port.range]]
universe = 7
slot = 1
count = 512
port_slot = 1
";

const UPPER: [SlotRange; 2] = [
    SlotRange {
        universe: 7,
        slot: 1,
        count: 3,
        port_slot: 1,
    },
    SlotRange {
        universe: 8,
        slot: 5,
        count: 2,
        port_slot: 511,
    },
];

const LOWER: [SlotRange; 1] = [SlotRange {
    universe: 7,
    slot: 1,
    count: 512,
    port_slot: 1,
}];

fn is_port(port: &PortSetup, number: u8, ranges: &[SlotRange]) -> bool {
    port.number() == number && port.ranges() == ranges
}

/// Whether the setup is that of the text, its ports in ascending number.
fn is_read(setup: &NodeSetup) -> bool {
    match setup.ports() {
        [first, second] => setup.udp_port() == 5568
            && is_port(first, 1, &LOWER)
            && is_port(second, 2, &UPPER),
        _ => false,
    }
}

/// Whether a core is new: its ports are there and dark, and its clock is at 0.
fn is_new(mut core: NodeCore) -> bool {
    let mut frame = [7; 513];
    let dark = core.frame(0, 2, &mut frame).is_ok() && frame == [0; 513];
    dark && core.port_numbers() == [1, 2].as_slice() && core.moment() == 0
}

// A core of the setup's two ports, made again where memory was refused.
fn core_made(alloc: Global, setup: &NodeSetup) -> Outcome {
    match NodeCore::new(alloc, setup) {
        Ok(core) => Outcome::Done.provided(is_new(core), "a new core"),
        Err(_) => match NodeCore::new(alloc, setup) {
            Ok(core) => Outcome::Refused.provided(is_new(core), "a core that is made again"),
            Err(_) => Outcome::Wrong("a core that can't be made again"),
        },
    }
}

// The core of a setup, once it is read as it should be.
fn read_so(alloc: Global, setup: &NodeSetup) -> Outcome {
    if is_read(setup) {
        core_made(alloc, setup)
    } else {
        Outcome::Wrong("a setup")
    }
}

/// `read_node`, which reads its table by `setup_of`, and `NodeCore::new`.
pub fn calls_made(alloc: Global) -> Outcome {
    match read_node(alloc, TEXT) {
        Ok(setup) => read_so(alloc, &setup),
        Err(SetupFault::OutOfMemory) => match read_node(alloc, TEXT) {
            Ok(setup) => Outcome::Refused.then(read_so(alloc, &setup)),
            Err(_) => Outcome::Wrong("a setup that can't be read again"),
        },
        Err(_) => Outcome::Wrong("a setup that is refused"),
    }
}
