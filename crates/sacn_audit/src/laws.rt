//! Laws of the definitions: functions that do nothing, each of which has a law as its contract.

ghost use Rattle.sacn_audit.specs.Histories.{BreachesAreOfTheirPackets, OrderIsKept, ShortEndsAreOfTheirPackets};
ghost use Rattle.sacn_audit.specs.CounterHistories.{CountersAreOfTheirPackets};
ghost use Rattle.sacn_audit.specs.ListHistories.{MissingListsAreOfTheirPackets};
ghost use Rattle.sacn_audit.specs.NetworkHistories.{AuditsAreOfTheirPackets, SendersAreOfTheirPackets, SourcesAreOfTheirPackets};
ghost use Rattle.sacn_audit.specs.Refusals.{RefusalsAreOfTheirPackets};

/// For any packets of a stream the audit that heard them says of each rule how many of them broke it, and when the first and
/// the latest of these came, each at its moment or, where that was before an earlier one, at the latest.
pub fn breaches_are_of_their_packets()
    ensures { BreachesAreOfTheirPackets }
{}

/// It says that the stream has a short end where the latest packets are one.
pub fn short_ends_are_of_their_packets()
    ensures { ShortEndsAreOfTheirPackets }
{}

/// Where no packet is before an earlier one, each counts at its own moment.
pub fn order_is_kept()
    ensures { OrderIsKept }
{}

/// After any packets of a network the audit of a stream is that of its own packets, whatever else came. Where there is no room for
/// a further one it may have none.
pub fn audits_are_of_their_packets()
    ensures { AuditsAreOfTheirPackets }
{}

/// So is the audit of a source, that of its own packets and pages; but for what its pages say beside its streams, which
/// `Audit::hear_page` tells.
pub fn sources_are_of_their_packets()
    ensures { SourcesAreOfTheirPackets }
{}

/// For any packets of a source its audit says how often a packet came from another address than the one before it, at most 2500 ms
/// later, and when the first and the latest of these came, each at its moment or, where that was before an earlier one, at the latest.
pub fn senders_are_of_their_packets()
    ensures { SendersAreOfTheirPackets }
{}

/// For any packets of a source its audit says how often a packet was at least the eighth in a row on another universe than the packet
/// before it and with the number after that one's, and when the first and the latest of these came, each at its moment or, where that
/// was before an earlier one, at the latest.
pub fn counters_are_of_their_packets()
    ensures { CountersAreOfTheirPackets }
{}

/// After any datagrams that can't be read, what is kept of a sender and a fault is how many of its datagrams had it, the first and the
/// latest moment of these, whatever else came. Where there is no room for a further pair it may be nothing.
pub fn refusals_are_of_their_packets()
    ensures { RefusalsAreOfTheirPackets }
{}

/// For any packets of a source its audit says how often no list of its universes came for more than 12 s, and when that was first and
/// last so, each at the moment of the packet that came so late.
pub fn missing_lists_are_of_their_packets()
    ensures { MissingListsAreOfTheirPackets }
{}
