//! How steep a fade is.
ghost use Rattle.std.specs.Prelude.{◌≡◌, ◌<◌, ◌≤◌};
ghost use Rattle.sacn_cues.specs.Levels.{part_of};
ghost use Rattle.sacn_cues.specs.Slopes.{slope_of, steepness, distance};

/// The parts of a step of level: a slope is a number of them, 2 to the power 44.
pub(crate) const PARTS: u64 = 17_592_186_044_416;

/// The longest time in milliseconds of which a slope gives each level exactly, 2 to the power 22:
/// longer than the longest fade of a cue.
pub(crate) const LONGEST: u32 = 4_194_304;

/// By how many parts of a step a level moves in a millisecond, rounded up.
#[tactic(auto, unfolding(crate::specs::Slopes::slope_of, crate::specs::Slopes::steepness))]
pub(crate) fn slope_of(from: u16, to: u16, time: u32) -> u64
    ensures { result ≡ slope_of from to time }
{
    if time == 0 || time > LONGEST {
        return 0;
    }
    let far = distance(from, to) as u64;
    (far * PARTS + (time as u64 - 1)) / time as u64
}

fn distance(from: u16, to: u16) -> u16
    ensures { result ≡ distance from to }
{
    if from < to { to - from } else { from - to }
}

/// The part of the distance that lies behind.
pub(crate) fn share(far: u16, elapsed: u64, time: u32, slope: u64) -> u16
    requires early { elapsed < time }
    requires slope { time ≤ LONGEST → slope ≡ steepness far time }
    ensures part { result ≡ part_of far elapsed time }
    ensures bound { result ≤ far }
{
    if time > LONGEST {
        (far as u64 * elapsed / time as u64) as u16
    } else {
        (elapsed * slope / PARTS) as u16
    }
}
