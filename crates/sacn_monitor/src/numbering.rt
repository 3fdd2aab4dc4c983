//! How a source numbers its packets: by which steps, and which number it leaves out.

ghost use Rattle.std.specs.Prelude.{◌≡◌, ◌<◌};
ghost use Rattle.sacn_monitor.specs.Numberings.{digit, first_numbering, further, begins, goes_back, is_left_out, is_missing, is_settled, lost_in, numbering_after, omission_in, passes_over, skipped_by, turns_after};

/// A source that has left out the same number so many turns in a row leaves it out by a rule of its own.
pub(crate) const OMISSION_TURNS: u8 = 3;

/// A sender may begin a stream with two copies of one packet whose numbers stand so far apart: whatever number a
/// receiver holds of an earlier stream, one of them is in sequence (E1.31, 6.7.2).
pub(crate) const OPENING_STEP: u8 = 20;

/// A packet out of sequence lies less than so many numbers behind the latest taken one (E1.31, 6.7.2).
pub(crate) const LATE_NUMBERS: u8 = 20;

/// What is known of how a source numbers its packets on a universe.
#[derive(Clone, Copy, PartialEq, Eq)]
pub struct Numbering {
    /// The latest taken packet is the first one of its stream, or begins the numbers anew.
    pub opens: bool,
    /// The number that the source left out at its latest turns, where `turns` isn't 0.
    pub left_out: u8,
    /// So many turns in a row it did so: 3 for three or more.
    pub turns: u8,
}

/// What a taken packet's number tells, as `News` has it.
#[derive(Clone, Copy)]
pub(crate) struct NumberNews {
    pub(crate) skipped: u8,
    pub(crate) began_anew: bool,
    pub(crate) leaves_out: Option<u8>,
}

impl Numbering {
    /// That of a stream whose first packet was just taken.
    pub(crate) fn first() -> Self
        ensures { result ≡ first_numbering }
    {
        Numbering {
            opens: true,
            left_out: 0,
            turns: 0,
        }
    }

    /// What is known after the step from one taken number to the next.
    pub(crate) fn after(self, held: u8, arrived: u8) -> Self
        ensures { result ≡ numbering_after held arrived self }
    {
        let opens = goes_back(held, arrived);
        if self.turns == 0 && skipped(held, arrived) == 1 {
            return Numbering {
                opens,
                left_out: held.wrapping_add(1),
                turns: 1,
            };
        }
        Numbering {
            opens,
            left_out: self.left_out,
            turns: self.turns_after(held, arrived),
        }
    }

    // The turns in a row that left out the number, after a step.
    fn turns_after(self, held: u8, arrived: u8) -> u8
        ensures { result ≡ turns_after held arrived self }
    {
        if self.turns == 0 {
            return 0;
        }
        if passes_over(held, arrived, self.left_out) {
            return self.turns.saturating_add(1).min(OMISSION_TURNS);
        }
        if arrived == self.left_out {
            0
        } else {
            self.turns
        }
    }

    /// Whether a step to the very next number, this one, changes nothing of it.
    pub(crate) fn is_settled(self, arrived: u8) -> bool
        ensures { result ≡ is_settled arrived self }
    {
        !self.opens && (self.turns == 0 || arrived != self.left_out)
    }

    /// How many packets were lost in that step. None is where a stream begins so, nor is the number that the source is
    /// known to leave out.
    pub(crate) fn lost(self, held: u8, arrived: u8) -> u8
        ensures { result ≡ lost_in held arrived self }
    {
        let skipped = skipped(held, arrived);
        if skipped == 0 || self.begins(held, arrived) {
            return 0;
        }
        let after = self.after(held, arrived);
        if after.turns == OMISSION_TURNS && passes_over(held, arrived, after.left_out) {
            return skipped.saturating_sub(1);
        }
        skipped
    }

    /// The number that the source is known to leave out from this step on, and wasn't before.
    pub(crate) fn omission(self, after: Self) -> Option<u8>
        ensures { result ≡ omission_in self after }
    {
        if self.turns < OMISSION_TURNS && after.turns == OMISSION_TURNS {
            Some(after.left_out)
        } else {
            None
        }
    }

    /// Whether the source is known to leave out this number.
    pub(crate) fn leaves_out(self, number: u8) -> bool
        ensures { result ≡ is_left_out number self }
    {
        (self.turns == OMISSION_TURNS) & (self.left_out == number)
    }

    // Whether a stream begins with this step.
    fn begins(self, held: u8, arrived: u8) -> bool
        ensures { result ≡ begins held arrived self }
    {
        self.opens & (arrived.wrapping_sub(held) == OPENING_STEP)
    }
}

/// The digit of the number so far behind the latest taken one, in the word of what is missing.
pub(crate) fn digit(behind: u8) -> u32
    requires { behind < 32 }
    ensures { result ≡ digit behind }
{
    1 << behind
}

/// The word of what is missing so many numbers further, where those in between are lost or not.
pub(crate) fn further(lost: bool, ahead: u8, word: u32) -> u32
    ensures { result ≡ further lost ahead word }
{
    if ahead >= 32 {
        return if lost { u32::MAX - 1 } else { 0 };
    }
    let between = if lost {
        digit(ahead).saturating_sub(2)
    } else {
        0
    };
    (word << ahead).wrapping_add(between)
}

/// Whether a number is missing so far behind the latest taken one.
pub(crate) fn is_missing(behind: u8, word: u32) -> bool
    ensures { result ≡ is_missing behind word }
{
    if behind >= LATE_NUMBERS {
        return false;
    }
    (word >> behind) % 2 == 1
}

/// Whether the second of two numbers seems to lie behind the first.
pub(crate) fn goes_back(held: u8, arrived: u8) -> bool
    ensures { result ≡ goes_back held arrived }
{
    arrived.wrapping_sub(held) >= 128
}

// The numbers between two that follow one another; none where the second seems to lie behind.
fn skipped(held: u8, arrived: u8) -> u8
    ensures { result ≡ skipped_by held arrived }
{
    let ahead = arrived.wrapping_sub(held);
    if ahead < 128 {
        ahead.saturating_sub(1)
    } else {
        0
    }
}

// Whether a number lies between two that follow one another.
fn passes_over(held: u8, arrived: u8, number: u8) -> bool
    ensures { result ≡ passes_over held arrived number }
{
    let ahead = arrived.wrapping_sub(held);
    let place = number.wrapping_sub(held);
    (ahead < 128) & (0 < place) & (place < ahead)
}
