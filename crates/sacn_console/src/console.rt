//! The core of a console.
ghost use Rattle.std.specs.Prelude.{◌≡◌, ◌<◌, ◌≤◌, ◌^◌, length, ◌++◌, drop, IfOk, IfErr};
ghost use Rattle.std.specs.List.{AllByRecursion};
ghost use Rattle.sacn_cues.specs.Playing as play;
ghost use Rattle.sacn_console.specs.Lights.{console_answer};

mod giving;

use crate::command::{Command, ConsoleFault};
use crate::limits::{CONSOLE_UNIVERSES, MAX_DATAGRAM, TERMINATIONS};
use crate::line::{Begun, State, UniverseLine, can_end, can_start};
use crate::sender::Sender;
use crate::show::{Show, ShowFault};
use crate::universe_lines::{first_lines, place_of};
use crate::waking::Wakes;
use arrayvec::ArrayVec;
use sacn_cues::{CueFault, PlayFault, Player};
use sacn_patch::FlatPatch;
use std::alloc::Global;
use std::marker::Model;

/// What a console sends, and when.
///
/// Its value is what the rule of sending asks of the list of earlier accepted commands and of the
/// datagrams given in this life; `laws` states that over every list of calls.
#[derive(Drop)]
pub struct ConsoleCore {
    sender: Sender,
    lines: Vec<UniverseLine>,
    wakes: Wakes,
    cycle: Option<Begun>,
    listed: ArrayVec<u16, CONSOLE_UNIVERSES>,
    patch: FlatPatch,
    player: Player,
    moment: u64,
}

/// What a poll says of the datagram that it gives.
#[derive(Clone, Copy)]
pub struct DueDatagram {
    /// How many octets it has, 120 to 1144.
    pub len: usize,
    /// The universe of a data packet, 1 to 63999; None for a discovery page.
    pub universe: Option<u16>,
}

impl Model for ConsoleCore {
    ghost use Rattle.sacn_console.specs.Core.{Core};
    ghost use Rattle.sacn_console.specs.Wakes.{Sound};
    ghost use Rattle.std.specs.Coded.{codes};
    ghost use Rattle.sacn_patch.specs.Patch.{patch_code};
    ghost use Rattle.sacn_cues.specs.Playing.{played_code};

    ghost Value = { Core };

    ghost coded = { Prim.hlevel (codes, patch_code, played_code) };

    ghost view = { λ c. record { sender = c.sender; lines = c.lines.items; cycle = c.cycle; listed = c.listed.items; lights = record { patch = c.patch; player = c.player }; moment = c.moment } };

    ghost invariant = { λ c. Sound c.wakes (record { sender = c.sender; lines = c.lines.items; cycle = c.cycle; listed = c.listed.items; lights = record { patch = c.patch; player = c.player }; moment = c.moment }) };
}

impl ConsoleCore {
    ghost use Rattle.std.specs.Prelude.{[], find, slice_set, Some, None, slice_index_or, MatchOption, List, ℕ, is_ok, is_some, true, ◌<◌, ◌+◌, min};
    ghost use Rattle.sacn_cues.specs.Playing.{is_still};
    ghost use Rattle.sacn_console.specs.Wakes.{last_moment};
    ghost use Rattle.std.specs.Option.{option_map};
    ghost use Rattle.sacn_discovery.specs.Pages.{page_count as pages_of};
    ghost use Rattle.sacn_console.specs.Lights.{frame};
    ghost use Rattle.sacn_console.specs.Due.{life_of};
    ghost use Rattle.sacn_console.specs.Runs.{core_by};
    ghost use Rattle.sacn_packets.specs.Universe.{Rising};
    ghost use Rattle.sacn_console.specs.Core.{Core, universes_of, taken, is_of, end_answer, start_answer, line_found, line_at, packet_at, page_due, standing, due, due_datagram, IsLawful, at, after, after_poll, after_command, given, answer, over, size, text};
    ghost use Rattle.sacn_console.specs.Lines.{line_in, Datagram, Packet, Paged, Gave, Accepted, Page};
    ghost use Rattle.sacn_console.specs.declared.line.UniverseLine.{UniverseLine as KeptLine};
    ghost use Rattle.sacn_console.specs.declared.show.fault.ShowFault.TheVariants.{OutOfMemory};

    /// A console as its life begins: nothing was sent, every universe runs, and the first packet on
    /// each universe will have the number `first`. The show is copied.
    ///
    /// The only fault is `OutOfMemory`. `command` and `poll` take no memory.
    pub fn new(alloc: Global, show: &Show, first: u8) -> Result<Self, ShowFault>
        ensures made { IfOk result (λ core. core ≡ core_by (life_of show.now first) 0 []) }
        ensures refused { IfErr result (λ fault. fault ≡ OutOfMemory) }
    {
        let lines = first_lines(alloc, show.universes.as_slice(), first)?;
        let wakes = Wakes::new(alloc, show.universes.as_slice())?;
        let patch = show.patch.flat(alloc)?;
        let player = new_player(alloc, show)?;
        Ok(ConsoleCore {
            sender: show.sender,
            lines,
            wakes,
            cycle: None,
            listed: ArrayVec::new(),
            patch,
            player,
            moment: 0,
        })
    }

    /// Gives the datagram that is due at the moment in use, the greatest that was handed in: its
    /// octets at the front of `out`, and their number. The least-numbered due universe goes first;
    /// where none is due, the next discovery page. Octets past the answer, and all after None, are
    /// as they were.
    pub fn poll(&mut self, now: u64, out: &mut [u8; MAX_DATAGRAM]) -> Option<usize>
        ensures answer { result ≡ option_map size (due (at now self.old)) }
        ensures octets { out.new ≡ over self.old.sender (due (at now self.old)) out.old }
        ensures core { self.new ≡ after_poll now self.old }
        ensures lawful { (d : Datagram) → due (at now self.old) ≡ Some d
            → IsLawful self.old.sender d }
    {
        match self.poll_with_universe(now, out) {
            Some(given) => Some(given.len),
            None => None,
        }
    }

    /// Does what `poll` does, and says also of which universe the datagram is.
    pub fn poll_with_universe(
        &mut self,
        now: u64,
        out: &mut [u8; MAX_DATAGRAM],
    ) -> Option<DueDatagram>
        ensures answer { result ≡ option_map due_datagram (due (at now self.old)) }
        ensures octets { out.new ≡ over self.old.sender (due (at now self.old)) out.old }
        ensures core { self.new ≡ after_poll now self.old }
        ensures lawful { (d : Datagram) → due (at now self.old) ≡ Some d
            → IsLawful self.old.sender d }
    {
        self.tell_lawful(now);
        self.move_clock(now);
        self.give(out)
    }

    // What is due at a moment can be said by a packet. This costs nothing.
    fn tell_lawful(&self, now: u64)
        ensures { (d : Datagram) → due (at now self.now) ≡ Some d → IsLawful self.now.sender d }
    {
        tell_ranges(&self.sender, self.listed.as_slice());
    }

    /// Takes a command at the moment in use. After a refusal only the clock has moved.
    pub fn command(&mut self, now: u64, command: Command) -> Result<(), ConsoleFault>
        ensures answer { result ≡ answer command (at now self.old) }
        ensures core { self.new ≡ after_command now command self.old }
    {
        self.move_clock(now);
        match command {
            Command::Go => self.go(),
            Command::GoTo(number) => self.go_to(number),
            Command::SetLevel(channel, level) => self.set_level(channel, level),
            Command::Master(master) => self.set_master(master),
            Command::EndUniverse(universe) => self.end(universe),
            Command::StartUniverse(universe) => self.start(universe),
        }
    }

    /// The number of the cue that was gone to last; None before the first.
    pub fn cue(&self) -> Option<u16>
        ensures { result ≡ self.now.lights.player.current }
    {
        self.player.current()
    }

    /// The grand master, 0 to 65535.
    pub fn grand_master(&self) -> u16
        ensures { result ≡ self.now.lights.player.master }
    {
        self.player.grand_master()
    }

    /// What is kept of each universe, in ascending order of number: its state, the number of its next packet, and the moment of
    /// its latest one.
    pub fn lines(&self) -> &[UniverseLine]
        ensures lines { result.now ≡ self.now.lines }
        ensures ascending { Rising (universes_of self.now.lines) }
    {
        self.lines.as_slice()
    }

    fn move_clock(&mut self, now: u64)
        ensures { self.new ≡ at now self.old }
    {
        let was_still = self.player.is_still();
        let is_later = self.moment < now;
        self.moment = self.moment.max(now);
        move_player(&mut self.player, now);
        let rests = self.player.is_still();
        if rests != was_still {
            self.wakes.clear();
        } else if is_later {
            self.wakes.start_at(0);
        }
    }

    fn go(&mut self) -> Result<(), ConsoleFault>
        ensures answer { result ≡ answer Command.Go self.old }
        ensures core { self.new ≡ taken Command.Go (answer Command.Go self.old) self.old }
    {
        self.wakes.clear();
        console_answer(self.player.go(self.moment))
    }

    fn go_to(&mut self, number: u16) -> Result<(), ConsoleFault>
        ensures answer { result ≡ answer (Command.GoTo number) self.old }
        ensures core { self.new
            ≡ taken (Command.GoTo number) (answer (Command.GoTo number) self.old) self.old }
    {
        self.wakes.clear();
        console_answer(self.player.go_to(self.moment, number))
    }

    fn set_level(&mut self, channel: u16, level: u16) -> Result<(), ConsoleFault>
        ensures answer { result ≡ answer (Command.SetLevel channel level) self.old }
        ensures core { self.new ≡ taken (Command.SetLevel channel level)
            (answer (Command.SetLevel channel level) self.old) self.old }
    {
        self.wakes.clear();
        console_answer(self.player.set(self.moment, channel, level))
    }

    fn set_master(&mut self, master: u16) -> Result<(), ConsoleFault>
        ensures answer { result ≡ answer (Command.Master master) self.old }
        ensures core { self.new
            ≡ taken (Command.Master master) (answer (Command.Master master) self.old) self.old }
    {
        self.wakes.clear();
        self.player.master(self.moment, master);
        Ok(())
    }

    fn end(&mut self, universe: u16) -> Result<(), ConsoleFault>
        ensures answer { result ≡ answer (Command.EndUniverse universe) self.old }
        ensures core { self.new ≡ taken (Command.EndUniverse universe)
            (answer (Command.EndUniverse universe) self.old) self.old }
    {
        let place = self.place_of(universe).ok_or(ConsoleFault::NoUniverse)?;
        self.can_end(place)?;
        self.set_state(place, State::Ending(TERMINATIONS));
        Ok(())
    }

    fn start(&mut self, universe: u16) -> Result<(), ConsoleFault>
        ensures answer { result ≡ answer (Command.StartUniverse universe) self.old }
        ensures core { self.new ≡ taken (Command.StartUniverse universe)
            (answer (Command.StartUniverse universe) self.old) self.old }
    {
        let place = self.place_of(universe).ok_or(ConsoleFault::NoUniverse)?;
        self.can_start(place)?;
        self.set_state(place, State::Running(None));
        Ok(())
    }

    fn place_of(&self, universe: u16) -> Option<usize>
        ensures rising { Rising (universes_of self.now.lines) }
        ensures found { MatchOption result (find (is_of universe) self.now.lines ≡ None)
            (λ i. (i < length self.now.lines) × (find (is_of universe) self.now.lines
            ≡ Some (line_at self.now i)) × ((line_at self.now i).universe ≡ universe)) }
    {
        place_of(&self.lines, universe)
    }

    fn can_end(&self, place: usize) -> Result<(), ConsoleFault>
        requires { place < length self.now.lines }
        ensures { result ≡ end_answer (line_at self.now place).state }
    {
        can_end(&self.lines[place].state)
    }

    fn can_start(&self, place: usize) -> Result<(), ConsoleFault>
        requires { place < length self.now.lines }
        ensures { result ≡ start_answer (line_at self.now place).state }
    {
        can_start(&self.lines[place].state)
    }

    fn set_state(&mut self, place: usize, state: State)
        requires { place < length self.old.lines }
        ensures { self.new ≡ record self.old {
          lines = slice_set self.old.lines place (line_in state (line_at self.old place));
        } }
    {
        let line = &mut self.lines[place];
        line.state = state;
        self.wakes.put(place, 0);
        self.wakes.start_at(0);
    }
}

// A player of a copy of the show's cues. The only fault is `OutOfMemory`.
fn new_player(alloc: Global, show: &Show) -> Result<Player, CueFault>
    ensures made { IfOk result (λ player. player ≡ play.new_player show.now.cues) }
    ensures refused { IfErr result (λ fault. fault ≡ CueFault.OutOfMemory) }
{
    Player::new(alloc, show.cues.try_copy()?)
}

// What the types of a sender and of numbers say. This costs nothing.
fn tell_ranges(sender: &Sender, listed: &[u16])
    ensures cid { length sender.now.cid ≡ 16 }
    ensures name { length sender.now.name ≡ 64 }
    ensures listed { AllByRecursion (λ n. n < 2 ^ 16) listed.now }
{
    let _sender = sender;
    let _listed = listed;
}

// The player's answer, as the console's.
fn console_answer(answer: Result<(), PlayFault>) -> Result<(), ConsoleFault>
    ensures { result ≡ console_answer answer }
{
    Ok(answer?)
}

fn move_player(player: &mut Player, now: u64)
    ensures { player.new ≡ play.moved now player.old }
{
    let _at = player.at(now);
}
