//! The loop of a player.

ghost use Rattle.std.specs.Prelude.{◌≡◌, ◌∷◌, [], ℕ, Bool, List, IfSome, Option, Some, is_some};
ghost use Rattle.std.specs.Option.{option_map};
ghost use Rattle.sacn_edge.specs.Additions.{Extends};
ghost use Rattle.sacn_edge.specs.ConsoleSends.{Handed, datagrams};
ghost use Rattle.sacn_edge.specs.Hearings.{Hands};
ghost use Rattle.sacn_replay.specs.declared.orders.PlayOrder.{PlayOrder as Order};
ghost use Rattle.sacn_replay.specs.Reels.{Reel, next_octets};
ghost use Rattle.sacn_replay.specs.Runs.{Player, Round, Holds, Comes, IsOrder, IsRound, IsRun, AreRounds, after_round, after_rounds, asked_for, begun_player, closing, octets_sent, has_to_wait, is_last, is_over, next_of, ordered_core, played, readings, round_talk, run_sends, run_talk, sends, sent_at, step_taken, stepped, wound};

use crate::counts::ReplayCounts;
use crate::orders::{PlayOrder, PlayOrders};
use crate::plan::ReplayPlan;
use crate::record_reader::RecordReader;
use crate::replay::ReplayCore;
use crate::step::Step;
use sacn_edge::{Clock, Link};

/// The most steps of a round. What is due behind them waits for the next one, which comes at once.
pub const MAX_STEPS: usize = 4096;

/// What comes after a round.
#[derive(Clone, Copy)]
pub enum Next {
    /// The next round, at once.
    Round,
    /// The next round, once this moment is there or an order.
    Wait(u64),
    /// Nothing: the recording is at its end.
    Nothing,
}

/// Plays a recording until its end, until its orders have ended, or for so many rounds.
///
/// A round reads the clock once and does with record after record what is due at that reading, until one has to wait or 4096 steps
/// were made. Only where one has to wait it takes an order, which holds from that reading on. It waits after it where there was none,
/// and ends at the recording's end. What a link answers to a datagram changes nothing. The result counts what was done.
pub fn run_replay<T: RecordReader, L: Link, C: Clock, O: PlayOrders>(
    tape: &mut T,
    link: &mut L,
    clock: &mut C,
    orders: &mut O,
    plan: &ReplayPlan,
    rounds: u64,
) -> ReplayCounts
    ensures { (reel : Reel) → T.told tape.old ≡ Some reel
        → (start : ℕ) × (rs : List Round) × (handed : Handed)
        × IsRun rounds rs × AreRounds (begun_player start plan.now reel) rs
        × Extends (C.readings clock.old) (C.readings clock.new) (start ∷ readings rs)
        × Extends (O.told orders.old) (O.told orders.new)
        (run_talk (begun_player start plan.now reel) rs)
        × Hands (L.told link.old) (L.told link.new) handed
        × (datagrams handed ≡ run_sends (begun_player start plan.now reel) rs)
        × (T.told tape.new ≡ Some (after_rounds (begun_player start plan.now reel) rs).reel)
        × (result ≡ (after_rounds (begun_player start plan.now reel) rs).core.counts) }
{
    let mut core = ReplayCore::new(clock.now(), plan);
    run_rounds(tape, link, clock, orders, &mut core, rounds);
    core.counts()
}

/// Makes rounds until the last, or so many.
fn run_rounds<T: RecordReader, L: Link, C: Clock, O: PlayOrders>(
    tape: &mut T,
    link: &mut L,
    clock: &mut C,
    orders: &mut O,
    core: &mut ReplayCore,
    rounds: u64,
)
    ensures { (p : Player) → Holds (T.told tape.old) core.old p
        → (rs : List Round) × (handed : Handed) × IsRun rounds rs × AreRounds p rs
        × Extends (C.readings clock.old) (C.readings clock.new) (readings rs)
        × Extends (O.told orders.old) (O.told orders.new) (run_talk p rs)
        × Hands (L.told link.old) (L.told link.new) handed
        × (datagrams handed ≡ run_sends p rs)
        × Holds (T.told tape.new) core.new (after_rounds p rs) }
{
    for _round in 0..rounds {
        let is_last = play_round(tape, link, clock, orders, core);
        if is_last {
            return;
        }
    }
}

/// Makes a round. Returns whether it was the last.
fn play_round<T: RecordReader, L: Link, C: Clock, O: PlayOrders>(
    tape: &mut T,
    link: &mut L,
    clock: &mut C,
    orders: &mut O,
    core: &mut ReplayCore,
) -> bool
    ensures { (p : Player) → Holds (T.told tape.old) core.old p
        → (r : Round) × (handed : Handed) × IsRound r p
        × Extends (C.readings clock.old) (C.readings clock.new) (r.now ∷ [])
        × Extends (O.told orders.old) (O.told orders.new) (round_talk r p)
        × Hands (L.told link.old) (L.told link.new) handed
        × (datagrams handed ≡ sends r.now r.steps p)
        × Holds (T.told tape.new) core.new (after_round r p) × (result ≡ is_last r) }
{
    let now = clock.now();
    let came_to = play_due(tape, link, core, now);
    let is_ordered = take_order(orders, core, now, came_to);
    orders.look(core);
    close(orders, next_of(came_to, is_ordered))
}

/// Does what is due at a reading, until something has to wait. Returns what it has to wait for; None where it made the most steps.
fn play_due<T: RecordReader, L: Link>(
    tape: &mut T,
    link: &mut L,
    core: &mut ReplayCore,
    now: u64,
) -> Option<Step>
    ensures { (p : Player) → Holds (T.told tape.old) core.old p
        → (n : ℕ) × (handed : Handed) × Comes now n p result
        × Hands (L.told link.old) (L.told link.new) handed
        × (datagrams handed ≡ sends now n p)
        × Holds (T.told tape.new) core.new (played now n p) }
{
    for _count in 0..MAX_STEPS {
        let step = make_step(tape, link, core, now);
        if has_to_wait(step) {
            return Some(step);
        }
    }
    None
}

/// Does with the next record what is to be done with it at a reading.
fn make_step<T: RecordReader, L: Link>(
    tape: &mut T,
    link: &mut L,
    core: &mut ReplayCore,
    now: u64,
) -> Step
    ensures { (p : Player) → Holds (T.told tape.old) core.old p
        → (handed : Handed) × Hands (L.told link.old) (L.told link.new) handed
        × (datagrams handed ≡ sent_at now p) × (result ≡ step_taken now p)
        × Holds (T.told tape.new) core.new (stepped now p) }
{
    let moment = tape.moment();
    let step = core.next(now, moment);
    hand_over(tape, link, step);
    wind(tape, step);
    step
}

/// Hands over the datagram of the next record, where a step sends it.
fn hand_over<T: RecordReader, L: Link>(tape: &T, link: &mut L, step: Step)
    ensures { (handed : Handed) × Hands (L.told link.old) (L.told link.new) handed
        × IfSome (T.told tape.now)
        (λ reel. datagrams handed ≡ octets_sent step (next_octets reel.left)) }
{
    match step {
        Step::Send => {
            link.send(tape.octets());
        }
        Step::Skip | Step::Pass | Step::Again | Step::Wait(_) | Step::End | Step::Rest => {}
    }
}

/// Winds the tape to the record that is next after a step.
pub fn wind<T: RecordReader>(tape: &mut T, step: Step)
    ensures { T.told tape.new ≡ option_map (wound step) (T.told tape.old) }
{
    match step {
        Step::Send | Step::Skip | Step::Pass => tape.pass(),
        Step::Again => tape.rewind(),
        Step::Wait(_) | Step::End | Step::Rest => {}
    }
}

/// Whether no other step is made at the same reading.
pub fn has_to_wait(step: Step) -> bool
    ensures { result ≡ has_to_wait step }
{
    match step {
        Step::Wait(_) | Step::End | Step::Rest => true,
        Step::Send | Step::Skip | Step::Pass | Step::Again => false,
    }
}

/// Takes an order, where the player has to wait. Returns whether one was there.
pub fn take_order<O: PlayOrders>(
    orders: &mut O,
    core: &mut ReplayCore,
    now: u64,
    came_to: Option<Step>,
) -> bool
    ensures { (order : Option Order) × IsOrder came_to order
        × Extends (O.told orders.old) (O.told orders.new) (asked_for now came_to order)
        × (core.new ≡ ordered_core now order core.old) × (result ≡ is_some order) }
{
    if came_to.is_none() {
        return false;
    }
    match orders.next(now) {
        Some(order) => {
            give(core, now, order);
            true
        }
        None => false,
    }
}

/// Does what is ordered, at a reading.
fn give(core: &mut ReplayCore, now: u64, order: PlayOrder)
    ensures { core.new ≡ ordered_core now (Some order) core.old }
{
    match order {
        PlayOrder::Pause => core.pause(now),
        PlayOrder::Go => core.go(now),
        PlayOrder::SetSpeed(speed) => core.set_speed(now, speed),
        PlayOrder::Seek(moment) => core.seek(now, moment),
    }
}

/// What comes after a round: after an order, and after the most steps, the next one at once.
pub fn next_of(came_to: Option<Step>, is_ordered: bool) -> Next
    ensures { result ≡ next_of came_to is_ordered }
{
    if is_ordered {
        return Next::Round;
    }
    match came_to {
        Some(Step::Wait(until)) => Next::Wait(until),
        Some(Step::Rest) => Next::Wait(u64::MAX),
        Some(Step::End) => Next::Nothing,
        _ => Next::Round,
    }
}

/// Ends a round, and waits where the player has to. Returns whether it was the last.
pub fn close<O: PlayOrders>(orders: &mut O, next: Next) -> bool
    ensures { (ends : Bool) × Extends (O.told orders.old) (O.told orders.new)
        (closing next ends) × (result ≡ is_over next ends) }
{
    if let Next::Nothing = next {
        return true;
    }
    if orders.has_ended() {
        return true;
    }
    if let Next::Wait(until) = next {
        orders.wait(until);
    }
    false
}
