//! The keys of each table, and what has to stand there: a line for each line of the readers' definitions.

use sacn_cues::{FULL, MAX_CHANNELS, MAX_FADE};
use sacn_files::limits::{MAX_UDP_PORT, MIN_UDP_PORT};
use sacn_node::{MAX_PORT, MIN_PORT};
use sacn_packets::{MAX_PRIORITY, MAX_UNIVERSE, MIN_UNIVERSE, SLOTS};

/// The tables that have keys of their own.
#[derive(Clone, Copy)]
pub(crate) enum TableKind {
    Show,
    Cue,
    Patch,
    Setup,
    Port,
    Range,
    World,
    Console,
    Node,
}

/// A span of whole numbers, both ends included.
#[derive(Clone, Copy)]
pub(crate) struct Span {
    pub(crate) low: u32,
    pub(crate) high: u32,
}

/// What has to stand at a key.
#[derive(Clone, Copy)]
pub(crate) enum Shape {
    /// The version of the file, which is looked at before all others.
    Version,
    Number(Span),
    /// Text that is a UUID in any of its forms.
    Cid,
    /// Text that fits a source name.
    Name,
    Flag,
    /// Different universes.
    Universes,
    /// UDP ports.
    Destinations,
    /// Pairs of a channel and a level.
    Levels,
    /// Tables of this kind.
    Rows(TableKind),
    Table,
}

/// What is said to be wanted.
#[derive(Clone, Copy)]
pub(crate) enum Wanted<'a> {
    Text(&'a str),
    /// This is a number of a span.
    Within(&'a str, Span),
    /// This has so many things at most.
    AtMost(&'a str, usize, &'a str),
    /// The keys of a table in a file of this version.
    Keys(TableKind, u8),
}

/// What has to stand at a key of a table.
#[derive(Clone, Copy)]
pub(crate) struct Rule {
    pub(crate) key: &'static str,
    /// Whether the table must have it; the version is looked at before.
    pub(crate) required: bool,
    pub(crate) shape: Shape,
    pub(crate) wanted: Wanted<'static>,
}

/// Numbers that a file may write before they are looked at as channels, slots and so on.
pub(crate) const SHORT: Span = Span {
    low: 0,
    high: 65_535,
};

/// Times that a file may write before they are looked at as fades.
pub(crate) const WHOLE: Span = Span {
    low: 0,
    high: u32::MAX,
};

const BYTES: Span = Span { low: 0, high: 255 };

const PRIORITIES: Span = Span {
    low: 0,
    high: MAX_PRIORITY as u32,
};

pub(crate) const CHANNELS: Span = Span {
    low: 1,
    high: MAX_CHANNELS as u32,
};

pub(crate) const LEVELS: Span = Span {
    low: 0,
    high: FULL as u32,
};

/// Milliseconds of a fade.
pub(crate) const TIMES: Span = Span {
    low: 0,
    high: MAX_FADE,
};

pub(crate) const UNIVERSES: Span = Span {
    low: MIN_UNIVERSE as u32,
    high: MAX_UNIVERSE as u32,
};

pub(crate) const SLOTS_OF_ONE: Span = Span {
    low: 1,
    high: SLOTS as u32,
};

/// Slots that have another one after them.
pub(crate) const WIDE_SLOTS: Span = Span {
    low: 1,
    high: SLOTS as u32 - 1,
};

pub(crate) const UDP_PORTS: Span = Span {
    low: MIN_UDP_PORT as u32,
    high: MAX_UDP_PORT as u32,
};

const PORTS: Span = Span {
    low: MIN_PORT as u32,
    high: MAX_PORT as u32,
};

const SHOW: &[Rule] = &[
    Rule {
        key: "version",
        required: false,
        shape: Shape::Version,
        wanted: Wanted::Text("the version is 1 or 2"),
    },
    Rule {
        key: "cid",
        required: true,
        shape: Shape::Cid,
        wanted: Wanted::Text("a CID is the text of a UUID"),
    },
    Rule {
        key: "name",
        required: true,
        shape: Shape::Name,
        wanted: Wanted::Text("a name is text of at most 63 octets without NUL"),
    },
    Rule {
        key: "priority",
        required: false,
        shape: Shape::Number(PRIORITIES),
        wanted: Wanted::Within("a priority", PRIORITIES),
    },
    Rule {
        key: "universes",
        required: true,
        shape: Shape::Universes,
        wanted: Wanted::Text(
            "the universes are an array of at most 1024 different numbers 1 to 63999",
        ),
    },
    Rule {
        key: "send_to",
        required: false,
        shape: Shape::Destinations,
        wanted: Wanted::Text("the destinations are an array of at most 8 UDP ports 1 to 65535"),
    },
    Rule {
        key: "cue",
        required: false,
        shape: Shape::Rows(TableKind::Cue),
        wanted: Wanted::Text("the cues are an array of tables"),
    },
    Rule {
        key: "patch",
        required: false,
        shape: Shape::Rows(TableKind::Patch),
        wanted: Wanted::Text("the patch is an array of tables"),
    },
];

const OLD_CUE: &[Rule] = &[
    Rule {
        key: "number",
        required: true,
        shape: Shape::Number(SHORT),
        wanted: Wanted::Within("the number of a cue", SHORT),
    },
    Rule {
        key: "fade",
        required: true,
        shape: Shape::Number(WHOLE),
        wanted: Wanted::Within("a fade in milliseconds", TIMES),
    },
    Rule {
        key: "levels",
        required: true,
        shape: Shape::Levels,
        wanted: Wanted::Text("the levels are an array of pairs of a channel and a level"),
    },
];

const CUE: &[Rule] = &[
    Rule {
        key: "number",
        required: true,
        shape: Shape::Number(SHORT),
        wanted: Wanted::Within("the number of a cue", SHORT),
    },
    Rule {
        key: "up",
        required: true,
        shape: Shape::Number(WHOLE),
        wanted: Wanted::Within("an up time in milliseconds", TIMES),
    },
    Rule {
        key: "down",
        required: true,
        shape: Shape::Number(WHOLE),
        wanted: Wanted::Within("a down time in milliseconds", TIMES),
    },
    Rule {
        key: "levels",
        required: true,
        shape: Shape::Levels,
        wanted: Wanted::Text("the levels are an array of pairs of a channel and a level"),
    },
];

const PATCH: &[Rule] = &[
    Rule {
        key: "channel",
        required: true,
        shape: Shape::Number(SHORT),
        wanted: Wanted::Within("a channel", CHANNELS),
    },
    Rule {
        key: "universe",
        required: true,
        shape: Shape::Number(SHORT),
        wanted: Wanted::Text("a universe of the patch is one of the show's"),
    },
    Rule {
        key: "slot",
        required: true,
        shape: Shape::Number(SHORT),
        wanted: Wanted::Within("a slot", SLOTS_OF_ONE),
    },
    Rule {
        key: "wide",
        required: false,
        shape: Shape::Flag,
        wanted: Wanted::Text("wide is true or false"),
    },
];

const SETUP: &[Rule] = &[
    Rule {
        key: "version",
        required: false,
        shape: Shape::Version,
        wanted: Wanted::Text("the version is 1 or 2"),
    },
    Rule {
        key: "udp_port",
        required: false,
        shape: Shape::Number(UDP_PORTS),
        wanted: Wanted::Within("a UDP port", UDP_PORTS),
    },
    Rule {
        key: "port",
        required: false,
        shape: Shape::Rows(TableKind::Port),
        wanted: Wanted::Text("the ports are an array of tables"),
    },
];

const OLD_PORT: &[Rule] = &[
    Rule {
        key: "number",
        required: true,
        shape: Shape::Number(PORTS),
        wanted: Wanted::Within("the number of a port", PORTS),
    },
    Rule {
        key: "universe",
        required: true,
        shape: Shape::Number(UNIVERSES),
        wanted: Wanted::Within("a universe", UNIVERSES),
    },
];

const PORT: &[Rule] = &[
    Rule {
        key: "number",
        required: true,
        shape: Shape::Number(PORTS),
        wanted: Wanted::Within("the number of a port", PORTS),
    },
    Rule {
        key: "range",
        required: true,
        shape: Shape::Rows(TableKind::Range),
        wanted: Wanted::Text("the ranges of a port are an array of 1 to 8 tables"),
    },
];

const RANGE: &[Rule] = &[
    Rule {
        key: "universe",
        required: true,
        shape: Shape::Number(UNIVERSES),
        wanted: Wanted::Within("a universe", UNIVERSES),
    },
    Rule {
        key: "slot",
        required: true,
        shape: Shape::Number(SLOTS_OF_ONE),
        wanted: Wanted::Within("a slot", SLOTS_OF_ONE),
    },
    Rule {
        key: "count",
        required: true,
        shape: Shape::Number(SLOTS_OF_ONE),
        wanted: Wanted::Within("a count of slots", SLOTS_OF_ONE),
    },
    Rule {
        key: "port_slot",
        required: true,
        shape: Shape::Number(SLOTS_OF_ONE),
        wanted: Wanted::Within("a slot of the port", SLOTS_OF_ONE),
    },
];

const WORLD: &[Rule] = &[
    Rule {
        key: "version",
        required: false,
        shape: Shape::Version,
        wanted: Wanted::Text("the version is 1"),
    },
    Rule {
        key: "console",
        required: false,
        shape: Shape::Rows(TableKind::Console),
        wanted: Wanted::Text("the consoles are an array of tables"),
    },
    Rule {
        key: "node",
        required: false,
        shape: Shape::Rows(TableKind::Node),
        wanted: Wanted::Text("the nodes are an array of tables"),
    },
];

const CONSOLE: &[Rule] = &[
    Rule {
        key: "first",
        required: false,
        shape: Shape::Number(BYTES),
        wanted: Wanted::Within("the number of the first packet", BYTES),
    },
    Rule {
        key: "show",
        required: true,
        shape: Shape::Table,
        wanted: Wanted::Text("a show is a table"),
    },
];

const NODE: &[Rule] = &[Rule {
    key: "setup",
    required: true,
    shape: Shape::Table,
    wanted: Wanted::Text("a setup is a table"),
}];

/// The keys of a table in a file of this version, and what stands there.
pub(crate) fn rules_of(kind: TableKind, version: u8) -> &'static [Rule] {
    match (kind, version) {
        (TableKind::Show, _) => SHOW,
        (TableKind::Cue, 1) => OLD_CUE,
        (TableKind::Cue, _) => CUE,
        (TableKind::Patch, _) => PATCH,
        (TableKind::Setup, _) => SETUP,
        (TableKind::Port, 1) => OLD_PORT,
        (TableKind::Port, _) => PORT,
        (TableKind::Range, _) => RANGE,
        (TableKind::World, _) => WORLD,
        (TableKind::Console, _) => CONSOLE,
        (TableKind::Node, _) => NODE,
    }
}
