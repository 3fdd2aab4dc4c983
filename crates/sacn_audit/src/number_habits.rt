//! By which numbers the packets of a stream come.

ghost use Rattle.std.specs.Prelude.{◌≡◌};
ghost use Rattle.sacn_audit.specs.Arrivals.{number_after};
ghost use Rattle.sacn_audit.specs.Audits.{first_habits, habits_after, passes_over, turns_after};

use crate::limits::{COPIES_IN_A_ROW, TURNS};

/// By which numbers the packets of a stream come.
#[derive(Clone, Copy, PartialEq, Eq)]
pub struct NumberHabits {
    /// The latest number that was passed over alone; 0 where none was.
    pub left_out: u8,
    /// So many turns in a row passed it over, while all else went up by one: 3 for three or more, 0 where that isn't so.
    pub turns: u8,
    /// So many packets in a row have the latest number: 4 for four or more.
    pub same: u8,
}

impl NumberHabits {
    /// Those of a first packet.
    pub(crate) fn first() -> Self
        ensures { result ≡ first_habits }
    {
        NumberHabits {
            left_out: 0,
            turns: 0,
            same: 1,
        }
    }

    /// One packet more, which has the number that arrived, after one that has the number held.
    pub(crate) fn after(self, held: u8, arrived: u8) -> Self
        ensures { result ≡ habits_after held arrived self }
    {
        let left_out = if passes_over(held, arrived) {
            number_after(held)
        } else {
            self.left_out
        };
        let same = if arrived == held {
            self.same.saturating_add(1).min(COPIES_IN_A_ROW)
        } else {
            1
        };
        NumberHabits {
            left_out,
            turns: self.turns_after(held, arrived),
            same,
        }
    }

    // The turns in a row that passed over a number, after a packet more.
    fn turns_after(self, held: u8, arrived: u8) -> u8
        ensures { result ≡ turns_after held arrived self }
    {
        if passes_over(held, arrived) {
            if number_after(held) == self.left_out {
                return self.turns.saturating_add(1).min(TURNS);
            }
            return 1;
        }
        if arrived == number_after(held) && arrived != self.left_out {
            self.turns
        } else {
            0
        }
    }
}

/// The number after this one: they go round in turns of 256.
pub(crate) fn number_after(number: u8) -> u8
    ensures { result ≡ number_after number }
{
    number.wrapping_add(1)
}

/// Whether a number passes over the one before it alone.
pub(crate) fn passes_over(held: u8, arrived: u8) -> bool
    ensures { result ≡ passes_over held arrived }
{
    arrived == number_after(number_after(held))
}
