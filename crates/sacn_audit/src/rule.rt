//! The rules that are looked at.

/// A rule of E1.31 that the packets of a stream may break; and what is told of them that breaks none (`CloseEnds`, `OtherStart`).
#[derive(Clone, Copy, PartialEq, Eq)]
pub enum Rule {
    /// More than 44 packets in each of two whole seconds of the clock that follow one another (6.6.1). Broken once for each
    /// second that completes such a pair, at its 45th packet. 44 is the rate of 512 slots (E1.11), however many this stream has and
    /// whatever rate its user has set; copies that were made on the way count.
    TooFast,
    /// More than 1000 ms between two packets with levels (start code 0) of a stream that goes on (6.6.2): what lies between them has
    /// other start codes, each packet has the number after the one before it, so that none was lost in between (nor, by these
    /// numbers, a multiple of 256), and none before the second ends the stream. Broken at the second.
    Silent,
    /// Levels that changed and were sent fewer than three times before the sender sent less often (6.6.2): a packet, of whatever
    /// start code, comes more than 500 ms after one that has the number before its own and doesn't end the stream, and the levels of
    /// that one were seen to change with it or with the packet before it. Broken at the packet that comes so late. A change is seen
    /// between packets with levels (start code 0) whose numbers follow one another, so what was lost on the way mostly accuses nobody.
    ShortChange,
    /// An end of fewer than three packets with Stream_Terminated in a row (6.2.6). Broken at the packet without it that follows. What
    /// was lost on the way, or came before the audit began, counts as not sent.
    ShortEnd,
    /// No breach, and told as seen: a packet with Stream_Terminated comes less than 20 ms after another one, with nothing of the stream
    /// between them. The standard doesn't say how far apart these are (6.2.6); a full queue may lose all that come in one burst, and
    /// receivers then hold the last look for 2500 ms. Told at each such packet; a copy that was made on the way is one.
    CloseEnds,
    /// The field of the source's name has no NUL (6.2.2). Broken at each such packet.
    NameNotEnded,
    /// The source's name, up to the first NUL of its field, is not UTF-8 (6.2.2). Broken at each such packet.
    NameNotText,
    /// Numbers that don't go up by one (6.2.5): four packets in a row have one number. Broken at the fourth, and at each further one.
    /// A receiver discards all but the first (6.7.2). Up to three are taken for copies of one packet that were made on the way.
    NumberStays,
    /// A number that is left out by habit (6.2.5), so that a receiver counts a packet as lost in each turn of 256: three turns in a row
    /// went from the number before it to the one after it, and all other packets of these turns go up by one. Broken at the third
    /// such step, and at each further one. What is lost on the way at the same number three turns in a row looks the same.
    NumberLeftOut,
    /// A bit of the options below Force_Synchronization (bit 5), which are reserved and sent as 0 (6.2.6). Broken at each such packet.
    ReservedBits,
    /// Sent to a multicast address (224.0.0.0/4) other than 239.255.HIGH.LOW, the group of its universe (9.3.1). Broken at each such
    /// packet. What is sent to one host, or to all of a network, breaks nothing.
    OtherGroup,
    /// No breach, and told as seen: a start code that is neither 0 (levels) nor 0xDD (priorities for slots). The standard has room for
    /// any (7.7), and a node that shows levels alone ignores such packets. Told at each of them.
    OtherStart,
}
