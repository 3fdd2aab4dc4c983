//! What a recorder is asked.
use crate::reading::Words;
use crate::spelled::{host, port};
use sacn_files::limits::DEFAULT_UDP_PORT;
use std::net::Ipv4Addr;

/// What a recorder is asked.
#[derive(Drop)]
pub struct RecordAsked<'a> {
    /// The recording; of a ring the first of its two files.
    pub file: &'a str,
    pub listen: Ipv4Addr,
    pub port: u16,
    /// Empty for all.
    pub universes: Vec<u16>,
    pub seconds: Option<u64>,
    /// How many minutes a ring keeps; None where all is kept.
    pub ring: Option<u64>,
    /// Whether it hears also where another receiver has the port.
    pub is_beside: bool,
}

/// What the words of a recorder ask for.
pub fn record_asked<'a>(words: &mut Words<'_, 'a>) -> RecordAsked<'a> {
    words.leave("join");
    // (its end is the recording's)
    words.take_input();
    RecordAsked {
        listen: words.value("listen", host).unwrap_or(Ipv4Addr::UNSPECIFIED),
        seconds: words.seconds(),
        port: words.value("port", port).unwrap_or(DEFAULT_UDP_PORT),
        universes: words.universes(),
        ring: words.given_number("ring"),
        is_beside: words.is_given("beside"),
        file: words.file("FILE"),
    }
}
