//! One universe of a source.
ghost use Rattle.std.specs.Prelude.{◌≡◌, ◌≤◌, length, None};
ghost use Rattle.sacn_console.specs.declared.line.State.TheVariants as State;
ghost use Rattle.sacn_console.specs.declared.limits.TheConstants.{TERMINATIONS};
ghost use Rattle.sacn_source.specs.Wakes.{row_wake};
ghost use Rattle.sacn_source.specs.Rows.{row_due, row_sent, row_in, row_ended, row_showing, row_prior, new_row, dark, slots_of, end_answer, add_answer};

use crate::fault::SourceFault;
use sacn_console::limits::{KEEP_ALIVE, MIN_GAP, TERMINATIONS};
use sacn_console::{State, UniverseLine, asks, has_passed, same, when_passed};
use sacn_packets::SLOTS;

/// One universe: what its packets count, the levels that it shows, and its priority.
#[derive(Clone, Copy)]
pub struct SourceUniverse {
    /// The universe, its state, the number of its next packet, and the moment of its latest one.
    pub line: UniverseLine,
    /// The levels of its slots, 1 to 512.
    pub levels: [u8; SLOTS],
    /// The priority of its packets, 0 to 200 (E1.31, 6.2.3).
    pub priority: u8,
}

impl SourceUniverse {
    /// A universe that begins: its levels are 0.
    pub(crate) fn new(universe: u16, first: u8, priority: u8) -> Self
        ensures { result ≡ new_row first priority universe }
    {
        let line = UniverseLine {
            universe,
            state: State::Running(None),
            sequence_number: first,
            last: None,
        };
        let levels = dark();
        SourceUniverse {
            line,
            levels,
            priority,
        }
    }

    /// Whether its packet is due at a moment.
    #[tactic(auto, unfolding(crate::specs::Rows::row_due))]
    pub(crate) fn is_due(&self, moment: u64) -> bool
        ensures { result ≡ row_due moment self.now }
    {
        has_passed(MIN_GAP, moment, self.line.last)
            && asks(&self.line.state, moment, self.line.last, &self.levels)
    }

    /// Its packet was sent.
    #[tactic(auto, unfolding(crate::specs::Rows::row_sent))]
    pub(crate) fn note_packet(&mut self, moment: u64)
        ensures { self.new ≡ row_sent moment self.old }
    {
        self.line.note_packet(moment, &self.levels);
    }

    /// Whether it can begin again.
    pub(crate) fn can_begin(&self) -> Result<(), SourceFault>
        ensures { result ≡ add_answer self.now.line.state }
    {
        match self.line.state {
            State::Running(_) => Err(SourceFault::Running),
            State::Ending(_) => Err(SourceFault::Ending),
            State::Stopped => Ok(()),
        }
    }

    /// Whether it can be ended.
    pub(crate) fn can_end(&self) -> Result<(), SourceFault>
        ensures { result ≡ end_answer self.now.line.state }
    {
        match self.line.state {
            State::Running(_) => Ok(()),
            State::Ending(_) => Err(SourceFault::Ending),
            State::Stopped => Err(SourceFault::Stopped),
        }
    }

    /// It begins again. Its numbers go on, and its levels stay.
    pub(crate) fn begin(&mut self)
        ensures { self.new ≡ row_in (State.Running None) self.old }
    {
        self.line.state = State::Running(None);
    }

    /// It owes terminations from now on.
    pub(crate) fn end(&mut self)
        ensures { self.new ≡ row_in (State.Ending TERMINATIONS) self.old }
    {
        self.line.state = State::Ending(TERMINATIONS);
    }

    /// The same, where it runs.
    pub(crate) fn end_running(&mut self)
        ensures { self.new ≡ row_ended self.old }
    {
        if let State::Running(_) = self.line.state {
            self.end();
        }
    }

    /// When it is due next.
    #[tactic(auto, unfolding(crate::specs::Wakes::row_wake))]
    pub(crate) fn wake(&self) -> u64
        ensures { result ≡ row_wake self.now }
    {
        match &self.line.state {
            State::Running(None) => when_passed(MIN_GAP, self.line.last),
            State::Running(Some(run)) => {
                if run.owed > 0 {
                    return when_passed(MIN_GAP, self.line.last);
                }
                if same(&run.frame, &self.levels) {
                    return when_passed(KEEP_ALIVE, self.line.last);
                }
                when_passed(MIN_GAP, self.line.last)
            }
            State::Ending(_) => when_passed(MIN_GAP, self.line.last),
            State::Stopped => u64::MAX,
        }
    }

    /// It shows these levels on its first slots, and 0 on all others.
    pub(crate) fn show(&mut self, levels: &[u8])
        requires { length levels.now ≤ 512 }
        ensures { self.new ≡ row_showing (slots_of levels.now) self.old }
    {
        fill(&mut self.levels, levels);
    }

    /// Its packets have this priority from now on. Where that is another one, and it runs, its next
    /// packet is sent as its first.
    #[tactic(auto, unfolding(crate::specs::Rows::row_prior))]
    pub(crate) fn set_priority(&mut self, priority: u8)
        ensures { self.new ≡ row_prior priority self.old }
    {
        if self.priority == priority {
            return;
        }
        self.priority = priority;
        if let State::Running(_) = self.line.state {
            self.line.state = State::Running(None);
        }
    }
}

// The levels of a universe that begins.
#[tactic(auto, unfolding(crate::specs::Rows::dark))]
fn dark() -> [u8; SLOTS]
    ensures { result ≡ dark }
{
    [0; SLOTS]
}

// Writes levels to the first slots, and 0 to all others.
fn fill(slots: &mut [u8; SLOTS], levels: &[u8])
    requires { length levels.now ≤ 512 }
    ensures { slots.new ≡ slots_of levels.now }
{
    let (given, others) = slots.split_at_mut(levels.len());
    given.copy_from_slice(levels);
    others.fill(0);
}
