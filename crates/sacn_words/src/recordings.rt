//! The commands that make recordings, tell them and play them, in the table of commands.
use crate::arguments::{
    BESIDE, BIND, CAPTURE, CLOCK, EACH, FLAG, HELP, HELP_LETTER, JOIN, JSON, LISTEN, MULTICAST,
    OPERAND, OPTION, PAGE, SECONDS, SETUP_HELP, TO, TTL,
};
use crate::manual::{Argument, ArgumentKind, Subcommand};

pub const EXPLAIN: Subcommand<'static> = Subcommand {
    name: "explain",
    about: "Tells what a recording of a network holds: a line for what each source did, on all its universes, then tables",
    usage: "sacn explain [OPTIONS] <CAPTURE>",
    arguments: &[
        CAPTURE,
        Argument {
            name: "setup",
            help: SETUP_HELP,
            value: Some("SETUP"),
            ..OPTION
        },
        Argument {
            name: "port",
            help: "The UDP port of the datagrams that are told; else the setup's, else 5568",
            value: Some("P"),
            ..OPTION
        },
        Argument {
            name: "universe",
            help: "A universe, or several as 1-512, whose lines and rows are told; else all",
            value: Some("U"),
            is_repeated: true,
            ..OPTION
        },
        EACH,
        JSON,
        Argument {
            help: "Puts the recording's time of day in front of each line, to the millisecond, of the time zone that TZ says, or else the machine's",
            ..CLOCK
        },
        PAGE,
        Argument {
            help: "How many seconds it runs with --page, 1 to 1000000000",
            ..SECONDS
        },
        HELP_LETTER,
        HELP,
    ],
};

pub const AUDIT: Subcommand<'static> = Subcommand {
    name: "audit",
    about: "Tells which rules of ANSI E1.31-2018 the packets of each source of a recording break, how often and when",
    usage: "sacn audit [OPTIONS] <CAPTURE>",
    arguments: &[
        CAPTURE,
        Argument {
            name: "port",
            help: "The UDP port of the datagrams that are looked at, else 5568",
            value: Some("P"),
            ..OPTION
        },
        JSON,
        HELP_LETTER,
        HELP,
    ],
};

pub const RECORD: Subcommand<'static> = Subcommand {
    name: "record",
    about: "Hears a network until it is stopped, and writes each datagram with its moment into a recording, of the format pcapng, for explain, audit and Wireshark",
    usage: "sacn record [OPTIONS] <FILE>",
    arguments: &[
        Argument {
            name: "FILE",
            help: "The recording, a new file: one that is there is never written over",
            value: Some("FILE"),
            ..OPERAND
        },
        LISTEN,
        JOIN,
        Argument {
            name: "port",
            help: "The UDP port that it hears at; else 5568",
            value: Some("P"),
            ..OPTION
        },
        Argument {
            name: "universe",
            help: "A universe, or several as 1-512, whose data packets are recorded, beside all that is no data packet; else all",
            value: Some("U"),
            is_repeated: true,
            ..OPTION
        },
        SECONDS,
        Argument {
            name: "ring",
            help: "Keeps the last minutes alone, 1 to 10080 (a week), in two files that take turns: so many at least",
            kind: ArgumentKind::Number(1, 10_080),
            value: Some("MINUTES"),
            ..OPTION
        },
        BESIDE,
        HELP_LETTER,
        HELP,
    ],
};

pub const REPLAY: Subcommand<'static> = Subcommand {
    name: "replay",
    about: "Plays a recording: sends its datagrams as they were recorded, octet by octet, each at its moment, until the recording or standard input ends. Typed while it plays: pause, go, at SECONDS or HH:MM:SS, speed X, status, help, quit",
    usage: "sacn replay [OPTIONS] <CAPTURE>",
    arguments: &[
        CAPTURE,
        Argument {
            help: "A host that it sends to, at most 64, by its name or address; with universes before it, as 1-4,7=HOST, these alone go there, by the numbers under which they are sent; else 127.0.0.1, unless --multicast is given",
            ..TO
        },
        Argument {
            help: "Sends each universe to its group, beside the hosts of --to; what is no packet goes to these alone",
            ..MULTICAST
        },
        TTL,
        BIND,
        Argument {
            name: "as",
            help: "Plays it as the source of a show file, by its CID, name, priority and universes: what a node holds of the recording is sent as a desk sends, beside other sources",
            value: Some("SHOW"),
            ..OPTION
        },
        Argument {
            name: "port",
            help: "The UDP port of the datagrams that are played, else 5568",
            value: Some("P"),
            ..OPTION
        },
        Argument {
            name: "universe",
            help: "Sends universe A under the number B, at most 64, no two of them under one; a universe B that isn't sent elsewhere keeps its number beside A, and is left out with --as",
            value: Some("A=B"),
            is_repeated: true,
            ..OPTION
        },
        Argument {
            name: "from",
            help: "Begins so many seconds behind the first datagram, as 90 or 12.5",
            value: Some("S"),
            ..OPTION
        },
        Argument {
            name: "until",
            help: "Ends so many seconds behind the first datagram",
            value: Some("S"),
            ..OPTION
        },
        Argument {
            name: "speed",
            help: "How fast it plays, 0.001 to 1000, as 2 or 0.5; else 1",
            value: Some("X"),
            ..OPTION
        },
        Argument {
            name: "loop",
            help: "Begins again at its end, a second after the beginning at the earliest",
            ..FLAG
        },
        HELP_LETTER,
        HELP,
    ],
};
