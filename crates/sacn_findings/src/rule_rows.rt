//! The rules that are told, in the order of the standard.

use sacn_audit::Rule;

/// A rule, and how it is told.
#[derive(Clone, Copy)]
pub(crate) struct Row {
    pub(crate) rule: Rule,
    /// The clause of E1.31-2018.
    pub(crate) section: &'static str,
    /// What breaks it.
    pub(crate) words: &'static str,
    /// Whether that is a breach of the clause, and not only told as seen.
    pub(crate) is_breach: bool,
    /// A source that was heard for fewer milliseconds may break it all the time, and it isn't seen.
    pub(crate) least: u64,
}

pub(crate) const ROWS: [Row; 12] = [
    Row {
        rule: Rule::NameNotEnded,
        section: "6.2.2",
        words: "a name without an end",
        is_breach: true,
        least: 0,
    },
    Row {
        rule: Rule::NameNotText,
        section: "6.2.2",
        words: "a name that isn't UTF-8",
        is_breach: true,
        least: 0,
    },
    Row {
        rule: Rule::NumberStays,
        section: "6.2.5",
        words: "numbers that don't go up",
        is_breach: true,
        least: 3000,
    },
    Row {
        rule: Rule::NumberLeftOut,
        section: "6.2.5",
        words: "a number left out in each turn",
        is_breach: true,
        least: 17_400,
    },
    Row {
        rule: Rule::ShortEnd,
        section: "6.2.6",
        words: "ended by fewer than three packets",
        is_breach: true,
        least: 0,
    },
    Row {
        rule: Rule::CloseEnds,
        section: "6.2.6",
        words: "the packets of an end less than 20 ms apart",
        is_breach: false,
        least: 0,
    },
    Row {
        rule: Rule::ReservedBits,
        section: "6.2.6",
        words: "reserved bits of the options set",
        is_breach: true,
        least: 0,
    },
    Row {
        rule: Rule::TooFast,
        section: "6.6.1",
        words: "faster than 44 a second",
        is_breach: true,
        least: 3000,
    },
    Row {
        rule: Rule::Silent,
        section: "6.6.2",
        words: "levels more than 1 s apart",
        is_breach: true,
        least: 1001,
    },
    Row {
        rule: Rule::ShortChange,
        section: "6.6.2",
        words: "changed levels sent fewer than three times",
        is_breach: true,
        least: 501,
    },
    Row {
        rule: Rule::OtherStart,
        section: "7.7",
        words: "a start code other than 0 and 0xDD",
        is_breach: false,
        least: 0,
    },
    Row {
        rule: Rule::OtherGroup,
        section: "9.3.1",
        words: "sent to another multicast group than its universe's",
        is_breach: true,
        least: 0,
    },
];
