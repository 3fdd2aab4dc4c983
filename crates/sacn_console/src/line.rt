//! What a console keeps of one universe.
ghost use Rattle.std.specs.Prelude.{◌≡◌, true, false};
ghost use Rattle.sacn_cues.specs.Playing.{StaysAsItIs};
ghost use Rattle.sacn_cues.specs.Playing as play;
ghost use Rattle.sacn_console.specs.Lights.{frame_now};
ghost use Rattle.sacn_console.specs.Lines.{same, has_passed, asks, is_stopped, is_ending, state_sent, line_sent};
ghost use Rattle.sacn_console.specs.Wakes.{Finds, FrameStays, when_passed, wake_sent};
ghost use Rattle.sacn_console.specs.Core.{end_answer, start_answer};
ghost use Rattle.sacn_console.specs.declared.limits.TheConstants as limits;

use crate::command::ConsoleFault;
use crate::limits::{KEEP_ALIVE, MIN_GAP, REPEATS};
use sacn_cues::PlayerAt;
use sacn_packets::SLOTS;
use sacn_patch::FlatPatch;

/// The frame of the latest packet, and how many repeats of it are owed.
#[derive(Clone, Copy)]
pub struct Run {
    pub frame: [u8; SLOTS],
    pub owed: u8,
}

/// Whether a universe is sent. A running one has no run before its first packet; an ending one owes
/// so many terminations.
#[derive(Clone, Copy)]
pub enum State {
    Running(Option<Run>),
    Ending(u8),
    Stopped,
}

/// One universe: its state, the sequence number of its next packet, and the moment of its latest one.
#[derive(Clone, Copy)]
pub struct UniverseLine {
    pub universe: u16,
    pub state: State,
    pub sequence_number: u8,
    pub last: Option<u64>,
}

/// What a look at a universe finds: it is due, or nothing is due before a moment.
#[derive(Clone, Copy)]
pub enum Look {
    Due,
    Asleep(u64),
}

/// A discovery cycle: the moment of its first page, and the page that comes next.
#[derive(Clone, Copy)]
pub struct Begun {
    pub moment: u64,
    pub next: usize,
}

/// Whether so many milliseconds have passed at a moment since the latest packet, or there was none.
pub fn has_passed(wait: u64, moment: u64, last: Option<u64>) -> bool
    ensures { result ≡ has_passed wait moment last }
{
    match last {
        None => true,
        Some(last) => moment.saturating_sub(last) >= wait,
    }
}

/// The first moment at which so many milliseconds have passed since the latest packet; 0 where there was none.
pub fn when_passed(wait: u64, last: Option<u64>) -> u64
    ensures { result ≡ when_passed wait last }
{
    match last {
        None => 0,
        Some(last) => last.saturating_add(wait),
    }
}

/// Whether two frames have the same slots.
#[tactic(auto, unfolding(crate::specs::Lines::same))]
pub fn same(a: &[u8; SLOTS], b: &[u8; SLOTS]) -> bool
    ensures { result ≡ same a.now b.now }
{
    a == b
}

#[tactic(auto, unfolding(crate::specs::Lights::frame_now))]
fn fill(patch: &FlatPatch, player: &PlayerAt<'_>, universe: u16, slots: &mut [u8; SLOTS])
    ensures { slots.new
        ≡ frame_now (record { patch = patch.now; player = player.now.player.now }) universe }
{
    match player.octets() {
        Some(octets) => patch.fill_octets(universe, octets, slots),
        None => patch.fill(universe, player, slots),
    }
}

// Whether none of the channels that the universe shows fades.
fn rests(patch: &FlatPatch, player: &PlayerAt<'_>, universe: u16) -> bool
    ensures { result ≡ true
        → FrameStays (record { patch = patch.now; player = player.now.player.now }) universe }
{
    patch.rests(universe, player)
}

/// Whether a universe in this state asks for a packet of these slots at a moment, where the least gap has passed.
pub fn asks(state: &State, moment: u64, last: Option<u64>, slots: &[u8; SLOTS]) -> bool
    ensures { result ≡ asks moment last slots.now state.now }
{
    match state {
        State::Running(None) => true,
        State::Running(Some(run)) => {
            if run.owed > 0 {
                return true;
            }
            if has_passed(KEEP_ALIVE, moment, last) {
                return true;
            }
            !same(&run.frame, slots)
        }
        State::Ending(_) => true,
        State::Stopped => false,
    }
}

impl UniverseLine {
    /// Looks whether this universe is due at the player's moment. Its frame is made only where the
    /// timers don't decide. Where none of its own channels fades it sleeps until its next keep-alive
    /// packet, whatever fades elsewhere.
    pub(crate) fn look(
        &self,
        patch: &FlatPatch,
        player: &PlayerAt<'_>,
        is_still: bool,
        moment: u64,
        slots: &mut [u8; SLOTS],
    ) -> Look
        requires clock { player.now.player.now.moment ≡ moment }
        requires tells { is_still ≡ play.is_still player.now.player.now }
        requires still { is_still ≡ true → StaysAsItIs player.now.player.now }
        ensures { Finds (record { patch = patch.now; player = player.now.player.now }) moment
            self.now slots.new result }
    {
        if self.is_stopped() {
            return Look::Asleep(u64::MAX);
        }
        if !has_passed(MIN_GAP, moment, self.last) {
            return self.look_early(patch, player, is_still, moment, slots);
        }
        fill(patch, player, self.universe, slots);
        if asks(&self.state, moment, self.last, slots) {
            return Look::Due;
        }
        if is_still {
            return Look::Asleep(when_passed(KEEP_ALIVE, self.last));
        }
        if rests(patch, player, self.universe) {
            return Look::Asleep(when_passed(KEEP_ALIVE, self.last));
        }
        Look::Asleep(moment.saturating_add(1))
    }

    // A look before the least gap has passed. A frame is made only while no fade runs, to tell a
    // change that waits from a keep-alive packet.
    fn look_early(
        &self,
        patch: &FlatPatch,
        player: &PlayerAt<'_>,
        is_still: bool,
        moment: u64,
        slots: &mut [u8; SLOTS],
    ) -> Look
        requires clock { player.now.player.now.moment ≡ moment }
        requires tells { is_still ≡ play.is_still player.now.player.now }
        requires still { is_still ≡ true → StaysAsItIs player.now.player.now }
        requires early { has_passed limits.MIN_GAP moment self.now.last ≡ false }
        requires goes { is_stopped self.now.state ≡ false }
        ensures { Finds (record { patch = patch.now; player = player.now.player.now }) moment
            self.now slots.new result }
    {
        let gap = when_passed(MIN_GAP, self.last);
        if !is_still {
            return Look::Asleep(gap);
        }
        fill(patch, player, self.universe, slots);
        if asks(&self.state, moment, self.last, slots) {
            return Look::Asleep(gap);
        }
        Look::Asleep(when_passed(KEEP_ALIVE, self.last))
    }

    /// When it has to be looked at again, right after its packet.
    pub fn wake_sent(&self, is_still: bool) -> u64
        ensures { result ≡ wake_sent is_still self.now.last self.now.state }
    {
        match &self.state {
            State::Running(None) => when_passed(MIN_GAP, self.last),
            State::Running(Some(run)) => {
                if is_still && run.owed == 0 {
                    when_passed(KEEP_ALIVE, self.last)
                } else {
                    when_passed(MIN_GAP, self.last)
                }
            }
            State::Ending(_) => when_passed(MIN_GAP, self.last),
            State::Stopped => u64::MAX,
        }
    }

    /// Whether nothing is sent on it.
    pub fn is_stopped(&self) -> bool
        ensures { result ≡ is_stopped self.now.state }
    {
        match self.state {
            State::Stopped => true,
            _ => false,
        }
    }

    /// Whether it owes terminations.
    pub fn is_ending(&self) -> bool
        ensures { result ≡ is_ending self.now.state }
    {
        match self.state {
            State::Ending(_) => true,
            _ => false,
        }
    }

    /// Its packet with these slots was sent.
    #[tactic(auto, unfolding(crate::specs::Lines::line_sent))]
    pub fn note_packet(&mut self, moment: u64, slots: &[u8; SLOTS])
        ensures { self.new ≡ line_sent moment slots.now self.old }
    {
        note_sent(&mut self.state, slots);
        self.sequence_number = self.sequence_number.wrapping_add(1);
        self.last = Some(moment);
    }
}

// A packet with these slots was sent in this state. A frame is copied only where it changed.
#[tactic(auto, unfolding(crate::specs::Lines::state_sent))]
fn note_sent(state: &mut State, slots: &[u8; SLOTS])
    ensures { state.new ≡ state_sent slots.now state.old }
{
    match state {
        State::Running(None) => *state = first_run(slots),
        State::Running(Some(run)) => note_run(run, slots),
        State::Ending(left) => {
            if *left < 2 {
                *state = State::Stopped;
            } else {
                *left -= 1;
            }
        }
        State::Stopped => {}
    }
}

#[tactic(auto, unfolding(crate::specs::Lines::state_sent))]
fn note_run(run: &mut Run, slots: &[u8; SLOTS])
    ensures { State.Running (Some run.new) ≡ state_sent slots.now (State.Running (Some run.old)) }
{
    if same(&run.frame, slots) {
        run.owed = run.owed.saturating_sub(1);
    } else {
        run.frame = *slots;
        run.owed = REPEATS;
    }
}

fn first_run(slots: &[u8; SLOTS]) -> State
    ensures { result ≡ State.Running (Some (record { frame = slots.now; owed = REPEATS })) }
{
    let frame = *slots;
    State::Running(Some(Run {
        frame,
        owed: REPEATS,
    }))
}

/// Whether a universe in this state can be ended.
pub fn can_end(state: &State) -> Result<(), ConsoleFault>
    ensures { result ≡ end_answer state.now }
{
    match state {
        State::Running(_) => Ok(()),
        State::Ending(_) => Err(ConsoleFault::Ending),
        State::Stopped => Err(ConsoleFault::Stopped),
    }
}

/// Whether a universe in this state can be started.
pub fn can_start(state: &State) -> Result<(), ConsoleFault>
    ensures { result ≡ start_answer state.now }
{
    match state {
        State::Running(_) => Err(ConsoleFault::Running),
        State::Ending(_) => Err(ConsoleFault::Ending),
        State::Stopped => Ok(()),
    }
}
