//! The end of a recording that was played as a source.

ghost use Rattle.std.specs.Prelude.{◌≡◌, List};
ghost use Rattle.sacn_edge.specs.Additions.{Extends};
ghost use Rattle.sacn_edge.specs.ConsoleSends.{Handed, datagrams};
ghost use Rattle.sacn_edge.specs.Hearings.{Hands};
ghost use Rattle.sacn_played_run.specs.Calls.{after, given_by};
ghost use Rattle.sacn_played_run.specs.Endings.{EndRound, IsEnd, end_calls, end_readings, end_talk};

use crate::sending::send_due;
use sacn_desk::DeskLink;
use sacn_edge::Clock;
use sacn_played_source::PlayedSource;
use sacn_replay::PlayOrders;

/// The most rounds in which a source ends. It needs three, and more only where its clock goes back or its waits come back early.
pub const MAX_END_ROUNDS: u64 = 1 << 20;

/// Ends a source: three terminated packets on each universe (E1.31, 6.2.6), each at its moment.
pub(crate) fn end<L: DeskLink, C: Clock, O: PlayOrders>(
    link: &mut L,
    clock: &mut C,
    orders: &mut O,
    source: &mut PlayedSource,
)
    ensures { (es : List EndRound) × (handed : Handed)
        × IsEnd es source.old
        × Extends (C.readings clock.old) (C.readings clock.new) (end_readings es)
        × Extends (O.told orders.old) (O.told orders.new) (end_talk es source.old)
        × Hands (L.told link.old) (L.told link.new) handed
        × (datagrams handed ≡ given_by (end_calls es) source.old)
        × (source.new ≡ after (end_calls es) source.old) }
{
    source.end_all();
    for _round in 0..MAX_END_ROUNDS {
        let now = clock.now();
        send_due(link, source, now);
        if source.has_ended() {
            return;
        }
        orders.rest(source.wakes());
    }
}
