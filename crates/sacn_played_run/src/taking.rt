//! What is due of a recording.

ghost use Rattle.std.specs.Prelude.{◌≡◌, ℕ, IfOk, IfSome, Option};
ghost use Rattle.sacn_replay.specs.Reels.{next_octets};
ghost use Rattle.sacn_replay.specs.Runs.{Player, Holds, Comes, played, step_taken, stepped};
ghost use Rattle.sacn_played_run.specs.Calls.{after};
ghost use Rattle.sacn_played_run.specs.Taking.{calls_at, due_calls, step_calls};

use sacn_played_source::PlayedSource;
use sacn_replay::{MAX_STEPS, RecordReader, ReplayCore, Step, has_to_wait, wind};
use sacn_source::SourceFault;
use std::alloc::Global;

/// Takes what is due at a reading of the clock, until something has to wait. Returns what it has to wait for; None where it made the most
/// steps of a round.
///
/// Errors: `OutOfMemory` where the recording began anew.
pub(crate) fn take_due<T: RecordReader>(
    alloc: Global,
    tape: &mut T,
    source: &mut PlayedSource,
    core: &mut ReplayCore,
    now: u64,
) -> Result<Option<Step>, SourceFault>
    ensures { IfOk result (λ (came_to : Option _). (p : Player) → Holds (T.told tape.old) core.old p
        → (n : ℕ) × Comes now n p came_to
        × Holds (T.told tape.new) core.new (played now n p)
        × (source.new ≡ after (due_calls now n p) source.old)) }
{
    for _count in 0..MAX_STEPS {
        let step = make_step(alloc, tape, source, core, now)?;
        if has_to_wait(step) {
            return Ok(Some(step));
        }
    }
    Ok(None)
}

/// Does with the next record what is to be done with it at a reading.
fn make_step<T: RecordReader>(
    alloc: Global,
    tape: &mut T,
    source: &mut PlayedSource,
    core: &mut ReplayCore,
    now: u64,
) -> Result<Step, SourceFault>
    ensures { IfOk result (λ step. (p : Player) → Holds (T.told tape.old) core.old p
        → (step ≡ step_taken now p)
        × Holds (T.told tape.new) core.new (stepped now p)
        × (source.new ≡ after (calls_at now p) source.old)) }
{
    let moment = tape.moment();
    let step = core.next(now, moment);
    take(alloc, tape, source, step, moment.unwrap_or(0))?;
    wind(tape, step);
    Ok(step)
}

/// Takes the next record, of this moment, where a step sends it; forgets what was taken where the recording begins anew.
fn take<T: RecordReader>(
    alloc: Global,
    tape: &T,
    source: &mut PlayedSource,
    step: Step,
    moment: u64,
) -> Result<(), SourceFault>
    ensures { IfOk result (λ _. IfSome (T.told tape.now)
        (λ reel. source.new ≡ after (step_calls step moment (next_octets reel.left)) source.old)) }
{
    match step {
        Step::Send => source.take(moment, tape.octets()),
        Step::Again => source.rewind(alloc)?,
        Step::Skip | Step::Pass | Step::Wait(_) | Step::End | Step::Rest => {}
    }
    Ok(())
}
