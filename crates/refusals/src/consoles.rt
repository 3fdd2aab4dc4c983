//! Shows, scripts and the console core.
use crate::Outcome;
use fixtures::packets::CID;
use sacn_console::limits::MAX_DATAGRAM;
use sacn_console::{Command, ConsoleCore, Show, ShowFault, TextFault, read_script, read_show};
use std::alloc::Global;

const SHOW: &str = "version = 2
cid = \"00010203-0405-0607-0809-0a0b0c0d0e0f\"
name = \"Desk\"
universes = [2, 1]
send_to = [5568, 5569]
[[cue]]
number = 1
up = 1000
down = 2000
levels = [[1, 65535], [2, 7]]
[[cue]]
number = 2
up = 0
down = 0
levels = [[1, 0]]
[[patch]]
channel = 1
universe = 1
slot = 1
wide = true
[[patch]]
channel = 2
universe = 2
slot = 512
";

const SCRIPT: &str = "0 go
# comments say nothing
10 set 1 65535
20 end 1
";

/// Whether the show is that of the text, its universes in ascending number.
fn is_read(show: &Show) -> bool {
    let named = show.cid() == CID && show.name() == "Desk" && show.priority() == 100;
    named && show.universes() == [1, 2].as_slice() && show.send_to() == [5568, 5569].as_slice()
}

/// Whether a core is new, and plays the show: after `go` it sends universe 1 as packet 9, dark at first,
/// since channel 1 takes a second to come up.
fn is_new(mut core: ConsoleCore) -> bool {
    let mut octets = [7; MAX_DATAGRAM];
    let sent = core.command(0, Command::Go).is_ok() && core.poll(0, &mut octets) == Some(638);
    let dark = octets[126..638].iter().all(|level| *level == 0);
    let header = octets[22..38].starts_with(&CID) && octets[111..115].starts_with(&[9, 0, 0, 1]);
    sent && header && dark
}

// A core of the show, made again where memory was refused.
fn core_made(alloc: Global, show: &Show) -> Outcome {
    if !is_read(show) {
        return Outcome::Wrong("a show");
    }
    match ConsoleCore::new(alloc, show, 9) {
        Ok(core) => Outcome::Done.provided(is_new(core), "a new console"),
        Err(ShowFault::OutOfMemory) => match ConsoleCore::new(alloc, show, 9) {
            Ok(core) => Outcome::Refused.provided(is_new(core), "a console that is made again"),
            Err(_) => Outcome::Wrong("a console that can't be made again"),
        },
        Err(_) => Outcome::Wrong("a console that is refused"),
    }
}

const LINES: [(u64, Command); 3] = [
    (0, Command::Go),
    (10, Command::SetLevel(1, 65535)),
    (20, Command::EndUniverse(1)),
];

fn script_read(alloc: Global) -> Outcome {
    match read_script(alloc, SCRIPT) {
        Ok(lines) if lines.as_slice() == LINES.as_slice() => Outcome::Done,
        Err(TextFault::OutOfMemory) => match read_script(alloc, SCRIPT) {
            Ok(lines) if lines.as_slice() == LINES.as_slice() => Outcome::Refused,
            _ => Outcome::Wrong("a script that can't be read again"),
        },
        _ => Outcome::Wrong("a script"),
    }
}

/// `read_show`, which reads its table by `show_of`, `ConsoleCore::new` and `read_script`.
pub fn calls_made(alloc: Global) -> Outcome {
    let script = script_read(alloc);
    match read_show(alloc, SHOW) {
        Ok(show) => script.then(core_made(alloc, &show)),
        Err(ShowFault::OutOfMemory) => match read_show(alloc, SHOW) {
            Ok(show) => Outcome::Refused.then(script).then(core_made(alloc, &show)),
            Err(_) => Outcome::Wrong("a show that can't be read again"),
        },
        Err(_) => Outcome::Wrong("a show that is refused"),
    }
}
