//! The loop.

ghost use Rattle.std.specs.Prelude.{◌≡◌, ◌∷◌, ◌++◌, [], ℕ, List, IfOk, Option, Some, map, min};
ghost use Rattle.sacn_edge.specs.Additions.{Extends};
ghost use Rattle.sacn_edge.specs.ConsoleSends.{Handed, datagrams};
ghost use Rattle.sacn_edge.specs.Hearings.{Hands};
ghost use Rattle.sacn_replay.specs.Reels.{Reel};
ghost use Rattle.sacn_replay.specs.Runs.{Player, Holds, IsRun, AreRounds, after_round, after_rounds, begun_player, is_last};
ghost use Rattle.sacn_played_run.specs.Calls.{after, given_by};
ghost use Rattle.sacn_replay.specs.Heads as head;
ghost use Rattle.sacn_played_run.specs.Rounds.{SourceRound, AreSourceRounds, IsSourceRound, IsNextLoss, Sleeps, advance_calls, bare, loss_reading, readings, round_calls, run_calls, run_talk, sooner, source_talk};
ghost use Rattle.sacn_played_run.specs.Endings.{EndRound, IsEnd, end_calls, end_readings, end_talk};

use crate::ending::end;
use crate::sending::send_due;
use crate::taking::take_due;
use sacn_desk::DeskLink;
use sacn_edge::Clock;
use sacn_played_source::PlayedSource;
use sacn_replay::{
    Next, PlayOrders, RecordReader, ReplayCore, ReplayCounts, ReplayPlan, Step, close, next_of,
    take_order,
};
use sacn_source::SourceFault;
use std::alloc::Global;

/// Plays a recording as a source, until its end, until its orders have ended, or for so many rounds; then it ends the source, and sends its
/// terminated packets at their moments.
///
/// A round reads the clock once, and takes record after record that is due at that reading, until one has to wait or 4096 steps were made;
/// a record of more than 2500 ms ago isn't taken. Once all that is due is taken the recording is at the moment that is played, and a source of
/// it that was silent for 2500 ms by then is lost. Where a record has to wait, the round takes an order, which holds from that reading on. Last it sends what
/// is due at the reading, and waits until the next record is due, a datagram is, or a source is lost. While the recording is paused its
/// light stays, and is kept alive.
///
/// The result counts what was done with the records.
///
/// Errors: `OutOfMemory` where a request was refused when the recording began anew; the source is ended then too.
pub fn run_as_source<T: RecordReader, L: DeskLink, C: Clock, O: PlayOrders>(
    alloc: Global,
    tape: &mut T,
    link: &mut L,
    clock: &mut C,
    orders: &mut O,
    plan: &ReplayPlan,
    source: &mut PlayedSource,
    rounds: u64,
) -> Result<ReplayCounts, SourceFault>
    ensures { IfOk result (λ counts. (reel : Reel) → T.told tape.old ≡ Some reel
        → (start : ℕ) × (rs : List SourceRound) × (es : List EndRound) × (handed : Handed)
        × IsRun rounds (map bare rs)
        × AreSourceRounds (begun_player start plan.now reel) source.old rs
        × IsEnd es (after (run_calls (begun_player start plan.now reel) rs) source.old)
        × Extends (C.readings clock.old) (C.readings clock.new)
        (start ∷ (readings rs ++ end_readings es))
        × Extends (O.told orders.old) (O.told orders.new)
        (run_talk (begun_player start plan.now reel) rs
        ++ end_talk es (after (run_calls (begun_player start plan.now reel) rs) source.old))
        × Hands (L.told link.old) (L.told link.new) handed
        × (datagrams handed
        ≡ given_by (end_calls es ++ run_calls (begun_player start plan.now reel) rs) source.old)
        × (source.new
        ≡ after (end_calls es ++ run_calls (begun_player start plan.now reel) rs) source.old)
        × (T.told tape.new
        ≡ Some (after_rounds (begun_player start plan.now reel) (map bare rs)).reel)
        × (counts ≡ (after_rounds (begun_player start plan.now reel) (map bare rs)).core.counts)) }
{
    let mut core = ReplayCore::new(clock.now(), plan);
    let played = run_rounds(alloc, tape, link, clock, orders, &mut core, source, rounds);
    end(link, clock, orders, source);
    match played {
        Ok(()) => Ok(core.counts()),
        Err(fault) => Err(fault),
    }
}

/// Makes rounds until the last, or so many.
fn run_rounds<T: RecordReader, L: DeskLink, C: Clock, O: PlayOrders>(
    alloc: Global,
    tape: &mut T,
    link: &mut L,
    clock: &mut C,
    orders: &mut O,
    core: &mut ReplayCore,
    source: &mut PlayedSource,
    rounds: u64,
) -> Result<(), SourceFault>
    ensures { IfOk result (λ _. (p : Player) → Holds (T.told tape.old) core.old p
        → (rs : List SourceRound) × (handed : Handed)
        × IsRun rounds (map bare rs)
        × AreSourceRounds p source.old rs
        × Extends (C.readings clock.old) (C.readings clock.new) (readings rs)
        × Extends (O.told orders.old) (O.told orders.new) (run_talk p rs)
        × Hands (L.told link.old) (L.told link.new) handed
        × (datagrams handed ≡ given_by (run_calls p rs) source.old)
        × (source.new ≡ after (run_calls p rs) source.old)
        × Holds (T.told tape.new) core.new (after_rounds p (map bare rs))) }
{
    for _round in 0..rounds {
        let is_last = play_round(alloc, tape, link, clock, orders, core, source)?;
        if is_last {
            return Ok(());
        }
    }
    Ok(())
}

/// Makes a round. Returns whether it was the last.
fn play_round<T: RecordReader, L: DeskLink, C: Clock, O: PlayOrders>(
    alloc: Global,
    tape: &mut T,
    link: &mut L,
    clock: &mut C,
    orders: &mut O,
    core: &mut ReplayCore,
    source: &mut PlayedSource,
) -> Result<bool, SourceFault>
    ensures { IfOk result (λ last. (p : Player) → Holds (T.told tape.old) core.old p
        → (r : SourceRound) × (handed : Handed)
        × IsSourceRound r p source.old
        × Extends (C.readings clock.old) (C.readings clock.new) (r.round.now ∷ [])
        × Extends (O.told orders.old) (O.told orders.new) (source_talk r p)
        × Hands (L.told link.old) (L.told link.new) handed
        × (datagrams handed ≡ given_by (round_calls r p) source.old)
        × (source.new ≡ after (round_calls r p) source.old)
        × Holds (T.told tape.new) core.new (after_round r.round p) × (last ≡ is_last r.round)) }
{
    let now = clock.now();
    let came_to = take_due(alloc, tape, source, core, now)?;
    advance(source, core, came_to);
    let is_ordered = take_order(orders, core, now, came_to);
    send_due(link, source, now);
    orders.look(core);
    let next = sooner(next_of(came_to, is_ordered), next_wake(source, core));
    Ok(close(orders, next))
}

/// The recording is at the moment that is played, unless records that are due by then are left to take: these may hold what would else be
/// lost.
fn advance(source: &mut PlayedSource, core: &ReplayCore, came_to: Option<Step>)
    ensures { source.new
        ≡ after (advance_calls came_to (head.played core.now.head)) source.old }
{
    if came_to.is_some() {
        source.advance(core.head().moment());
    }
}

/// The reading of the clock before which no datagram of the source is due, and no source of the recording is lost.
fn next_wake(source: &PlayedSource, core: &ReplayCore) -> u64
    ensures { (wakes : ℕ) × (loss : Option ℕ)
        × Sleeps wakes source.now × IsNextLoss loss source.now.universes
        × (result ≡ min wakes (loss_reading loss core.now.head)) }
{
    let loss = match source.next_loss() {
        Some(moment) => core.head().due_at(moment).unwrap_or(u64::MAX),
        None => u64::MAX,
    };
    source.wakes().min(loss)
}

/// What comes after a round, where something else is due by then.
fn sooner(next: Next, wake: u64) -> Next
    ensures { result ≡ sooner wake next }
{
    match next {
        Next::Wait(until) => Next::Wait(until.min(wake)),
        Next::Round => Next::Round,
        Next::Nothing => Next::Nothing,
    }
}
