//! Laws of a world, over every list of commands, sends, deliveries, losses, repeats, delays, clock readings and restarts. They
//! cost nothing when they run.
//!
//! A refused event leaves a world as it was, so each law holds of the lists that a world accepts.

ghost use Rattle.sacn_world.specs.Laws.{NumbersAnswerAsPlacesDo, HeldPlacesAreLater, PlacesNeverGoBack, RowsAreOfPlaces, TwentyOneInARowAreShown, SamePlacesGiveTheSameSlots, SamePlacesGiveTheSameLevels, RunsLeaveTheWorldAfter};
ghost use Rattle.sacn_world.specs.RunLaws.{OwnCidsKeepConsolesApart, ReachedWorldsKeepTheirInvariant, RunsAnswerStepByStep, ListsOfEventsJoin, TwentyOneInARowAreHeld};
ghost use Rattle.sacn_world.specs.Origins.{HeldPlacesWereSent, NodesKeepTheirPorts};
ghost use Rattle.sacn_world.specs.Entries.{NoHeldPacketGivesWay};
ghost use Rattle.sacn_world.specs.Newest.{NewestIsTheGreatestDelivered};
ghost use Rattle.sacn_world.specs.Looks.{FramesAreMergesOfWhatWasSent, EqualHoldingsGiveEqualSlots};
ghost use Rattle.sacn_world.specs.Headline.{Headline};
ghost use Rattle.sacn_world.specs.Lives.{ConsolesDoWhatIsDue};
ghost use Rattle.std.specs.Prelude.{◌≡◌};
ghost use Rattle.sacn_world.specs.declared.limits.TheConstants.{TOO_FAR_BEHIND};

use sacn_console::laws::steps_are_the_list;
use sacn_sources::slots::laws::merge_is_of_a_set;

/// World follows the model: at each delivery that a world accepts, a node core, which reads octets and knows eight-bit numbers
/// alone, answers what the unbounded places say, and then keeps what the places held look like.
pub fn numbers_answer_as_places_do()
    ensures { NumbersAnswerAsPlacesDo }
{}

/// A held place never gives way to an earlier one while its entry lasts, and what a table has is what its places say.
pub fn places_never_go_back()
    ensures later { HeldPlacesAreLater }
    ensures kept { PlacesNeverGoBack }
    ensures entry { RowsAreOfPlaces }
{}

/// Catch-up: a delivery that makes twenty-one live packets of one life come one after another, or more, leaves the node
/// showing its packet.
pub fn twenty_one_in_a_row_are_shown()
    ensures { TwentyOneInARowAreShown }
{}

/// Where the same places of the same sources are shown on a universe, at two looks of one node or two, the universe's slots
/// are equal, and so are any two port slots that ranges fill from the same slot of it.
pub fn same_places_same_slots()
    ensures slots { SamePlacesGiveTheSameSlots }
    ensures levels { SamePlacesGiveTheSameLevels }
{
    merge_is_of_a_set();
}

/// A run that is answered leaves the world after its events, of which the other laws speak.
pub fn runs_leave_the_world_after()
    ensures { RunsLeaveTheWorldAfter }
{}

/// Shows with CIDs of their own make consoles with CIDs of their own, as the other laws ask, and no others do.
pub fn own_cids_keep_consoles_apart()
    ensures { OwnCidsKeepConsolesApart }
{}

/// What is kept of every world that a list of events comes to: each console has its own CID; lives go forward along a stream;
/// each packet has the number of its place; each place held is one of its stream, and at most the newest delivered.
pub fn reached_worlds_keep_their_invariant()
    ensures { ReachedWorldsKeepTheirInvariant }
{}

/// Each event of an accepted run has one answer: that of the step at the world after the events before it. The world after
/// joined lists is the world after one and then the other. So each law about a step is one about a run.
pub fn runs_answer_step_by_step()
    ensures answers { RunsAnswerStepByStep }
    ensures joined { ListsOfEventsJoin }
{}

/// Catch-up from any world of a run on: where a delivery makes twenty-one live packets of one life come one after another, or
/// more, `place` then answers its place, and `held` its priority and levels.
pub fn twenty_one_in_a_row_are_held()
    ensures { TwentyOneInARowAreHeld }
{}

/// Each place that a node holds is that of a packet that was really sent, by the console with that CID, and each node keeps the
/// ports of its setup.
pub fn held_places_were_sent()
    ensures sent { HeldPlacesWereSent }
    ensures ports { NodesKeepTheirPorts }
{}

/// No held packet gives way: through events at none of which its entry has expired, and none of which starts the node anew, a
/// source stays held, at no earlier place; and a delivery that is answered Held or EndedNow takes it to the later place of its
/// packet. (Where an entry expired and the source comes anew, its place may be an earlier one.)
pub fn no_held_packet_gives_way()
    ensures { NoHeldPacketGivesWay }
{}

/// The newest delivered packet of a stream, by which later deliveries are judged, is the greatest place of it that was delivered
/// since the node started, whatever was answered.
pub fn newest_is_the_greatest_delivered()
    ensures { NewestIsTheGreatestDelivered }
{}

/// Each frame that a run answered to a look has start code 0, and each of its slots is, by the ranges of the port, that of the
/// merge of exactly the live packets that the node held there after expiry, each really sent by the console with that CID; a
/// slot that no range fills is 0.
pub fn frames_are_merges_of_what_was_sent()
    ensures { FramesAreMergesOfWhatWasSent }
{}

/// Equal holdings give equal slots: of two looks of one run at which the same places of the same sources are shown, or of two
/// runs at which live packets of the same priorities and levels are held, the frames agree wherever ranges fill two port slots
/// from the same slot of that universe.
pub fn equal_holdings_give_equal_slots()
    ensures { EqualHoldingsGiveEqualSlots }
{
    merge_is_of_a_set();
}

/// What a console does in a world, over any list of events and any restarts, is what is due by the list of its present life's
/// accepted commands and of the datagrams that it gave in it.
pub fn consoles_do_what_is_due()
    ensures { ConsolesDoWhatIsDue }
{
    steps_are_the_list();
}

/// The headline: a new world accepts a list of events exactly where each names a console, node and datagram that there is, no data
/// packet comes twenty or more sends behind the newest of its stream and life that was delivered to the node, or after one of a later
/// life, and no noise is a packet. And of every world that `World::new` makes, and every list of events that its `run` answers,
/// whatever was commanded, sent, delivered, lost, repeated, delayed and restarted, and whatever the clocks read: every frame is the
/// merge of packets that its live sources really sent; no held packet gives way to an earlier one while its entry lasts, and one that
/// is answered Held or EndedNow is held from then on, at a later place; equal holdings give equal slots; and the twenty-first live
/// packet in a row is held.
pub fn headline()
    ensures { Headline }
{
    merge_is_of_a_set();
}

/// What the number of a world is: how many packets sent later a held one is ahead of what comes too far behind.
pub fn numbers()
    ensures behind { TOO_FAR_BEHIND ≡ 20 }
{}
