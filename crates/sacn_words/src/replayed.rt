//! What a player of recordings is asked.
use crate::commands::{destinations, time_to_live};
use crate::reading::Words;
use crate::spelled::{host, mapping, port};
use sacn_desk::Destination;
use sacn_files::limits::DEFAULT_UDP_PORT;
use std::net::Ipv4Addr;

/// What a player of recordings is asked.
#[derive(Drop)]
pub struct ReplayAsked<'a> {
    pub capture: &'a str,
    /// The show as whose source it is played, where there is one.
    pub show: Option<&'a str>,
    /// Empty where nothing says where. No two have one address.
    pub to: Vec<Destination>,
    pub is_multicast: bool,
    pub ttl: u8,
    pub bind: Ipv4Addr,
    /// The UDP port of the datagrams that are played.
    pub port: u16,
    /// Universes, each with the number under which it goes out, 1 to 63999.
    pub universes: Vec<(u16, u16)>,
    /// Where it begins and ends, in words, as seconds behind the first datagram.
    pub from: Option<&'a str>,
    pub until: Option<&'a str>,
    /// How fast it plays, in a word.
    pub speed: Option<&'a str>,
    pub is_loop: bool,
}

/// What the words of a player of recordings ask for.
pub fn replay_asked<'a>(words: &mut Words<'_, 'a>) -> ReplayAsked<'a> {
    let to = destinations(words);
    let ttl = time_to_live(words, to.as_slice());
    // (its orders are there)
    words.take_input();
    ReplayAsked {
        show: words.optional_file("as"),
        to,
        is_multicast: words.is_given("multicast"),
        ttl,
        bind: words.value("bind", host).unwrap_or(Ipv4Addr::UNSPECIFIED),
        port: words.value("port", port).unwrap_or(DEFAULT_UDP_PORT),
        universes: words.values("universe", mapping),
        from: words.word("from"),
        until: words.word("until"),
        speed: words.word("speed"),
        is_loop: words.is_given("loop"),
        capture: words.file("CAPTURE"),
    }
}
