//! The sequence rule of streaming ACN: which packets of a source come out of sequence.
//!
//! A source numbers the packets that it sends on a universe by one octet, which wraps at 256. A receiver keeps the
//! number of the latest packet that it took from that source there, and asks [`in_sequence`] of the next one. The rule
//! is that of E1.31, 6.7.2. Nothing else of a packet counts for it.

ghost use Rattle.std.specs.Prelude.{◌≡◌, ◌↔◌, ◌≤◌, ◌+◌, ◌-◌, ◌%◌, IsTrue, false, not};
ghost use Rattle.sacn_sources.specs.Sequence.{step, is_late, IsStep, IsOutOfSequence};

pub mod laws;

/// A step above this one, up to 0, is out of sequence.
///
/// The number is the standard's (E1.31, 6.7.2). A packet that seems to lie twenty or more behind is
/// taken, since its source more likely began its numbers anew.
pub const LATE_ABOVE: i8 = -20;

/// The step from the number `a` to the number `b`: `b - a` in signed eight-bit arithmetic.
///
/// It is the one number from -128 to 127 that is congruent to `b - a` modulo 256, for every pair of numbers: 1 where
/// `b` is the next number after `a`, 0 where they are equal, and below 0 where `b` seems to be the earlier one.
/// (E1.31, 6.7.2.)
pub fn signed_step(a: u8, b: u8) -> i8
    ensures value { result ≡ step a b }
    ensures congruent { IsStep a b result }
{
    b.wrapping_sub(a).cast_signed()
}

/// Whether a packet with the number `arrived` is in sequence, where `held` is the number of the latest packet that was
/// taken from the same source on the same universe.
///
/// The answer is false exactly where `-20 < arrived - held <= 0` in signed eight-bit arithmetic: the receiver is to
/// discard such a packet. Of the 256 numbers 20 are out of sequence, from 19 behind to the held one itself; the
/// others, from 1 to 236 ahead, are in sequence. (E1.31, 6.7.2.)
pub fn in_sequence(held: u8, arrived: u8) -> bool
    ensures value { result ≡ not (is_late held arrived) }

    // the standard's own words
    ensures discarded { (result ≡ false) ↔ IsOutOfSequence held arrived }
    // the same in numbers that do not go below 0
    ensures ahead { IsTrue result
        ↔ (1 ≤ (arrived + 256 - held) % 256) × ((arrived + 256 - held) % 256 ≤ 236) }
{
    let step = signed_step(held, arrived);
    step <= LATE_ABOVE || 0 < step
}
