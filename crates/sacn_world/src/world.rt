//! The world.

ghost use Rattle.std.specs.Prelude.{◌≡◌, ◌≤◌, [], take, vec_capacity, Some, OnOk, IfOk, IfErr, map, true, false, ◌⊎◌};
ghost use Rattle.sacn_world.specs.Invariants.{Stepped, SteppedWithRoom, SteppedBy};
ghost use Rattle.sacn_world.specs.Watches.{new_watch};
ghost use Rattle.sacn_world.specs.declared.fault.NewFault.TheVariants.{SameCid, OutOfMemory};
ghost use Rattle.sacn_world.specs.Runs.{ran, Stopped};
ghost use Rattle.sacn_schedule.specs.Cids.{has_same_cid};
ghost use Rattle.sacn_world.specs.Worlds.{step, new_world, new_console, Apart, answer_to_look, place_at, row_at};

use crate::answer::Answer;
use crate::console::Console;
use crate::datagram::SentDatagram;
use crate::fault::{NewFault, RunFault, WorldFault};
use crate::world_node::WorldNode;
use sacn_console::limits::MAX_DATAGRAM;
use sacn_console::{Command, Show};
use sacn_node::NodeSetup;
use sacn_node::laws::universes_are_those_of_ranges;
use sacn_packets::framing::laws::{written_is_read, written_page_is_read};
use sacn_packets::read_packet;
use sacn_schedule::{Event, has_same_cid};
use sacn_sources::HeldView;
use std::alloc::{AllocError, Global};
use std::marker::Model;

/// Consoles, nodes, and all that was sent.
#[derive(Drop)]
pub struct World {
    alloc: Global,
    consoles: Vec<Console>,
    sent: Vec<SentDatagram>,
    nodes: Vec<WorldNode>,
}

impl Model for World {
    ghost use Rattle.std.specs.Coded.{codes};
    ghost use Rattle.sacn_patch.specs.Patch.{patch_code};
    ghost use Rattle.sacn_cues.specs.Cues.{cues_code};
    ghost use Rattle.sacn_cues.specs.Playing.{played_code};
    ghost use Rattle.sacn_world.specs.Worlds.{World as Places};
    ghost use Rattle.sacn_world.specs.Invariants.{seen_world, Kept};

    ghost Value = { Places };

    ghost coded = { Prim.hlevel (codes, patch_code, cues_code, played_code) };

    ghost view = { λ w. seen_world w.consoles.items w.sent.items w.nodes.items };

    ghost invariant = { λ w. Kept w.consoles.items w.sent.items w.nodes.items };
}

impl World {
    /// A world of these shows, each with the first number of its console's first life, and of nodes of these setups. Nothing was
    /// sent yet. No two of its consoles have one CID, in the form in which `laws` ask it. The two lists are consumed, also by a
    /// refusal.
    ///
    /// `SameCid` where two shows have one CID, and then `OutOfMemory`.
    pub fn new(
        alloc: Global,
        consoles: Vec<(Show, u8)>,
        nodes: Vec<NodeSetup>,
    ) -> Result<Self, NewFault>
        ensures made { IfOk result (λ world. (world ≡ new_world consoles.items
            (map (λ n. n.ports) nodes.items)) × (has_same_cid consoles.items ≡ false)) }
        ensures apart { OnOk result (Apart (map new_console consoles.items)) }
        ensures refused { IfErr result
            (λ fault. ((fault ≡ SameCid) × (has_same_cid consoles.items ≡ true))
            ⊎ ((fault ≡ OutOfMemory) × (has_same_cid consoles.items ≡ false))) }
    {
        universes_are_those_of_ranges();
        if has_same_cid(consoles.as_slice()) {
            return Err(NewFault::SameCid);
        }
        let Ok(consoles) = new_consoles(alloc, consoles) else {
            return Err(NewFault::OutOfMemory);
        };
        let Ok(nodes) = new_nodes(alloc, nodes) else {
            return Err(NewFault::OutOfMemory);
        };
        Ok(World {
            alloc,
            consoles,
            sent: Vec::new(alloc),
            nodes,
        })
    }

    /// Takes an event. A refused one leaves the whole world as it was, clocks too.
    ///
    /// The faults, in the order of the checks: `NoConsole`, `NoNode`, `NoDatagram`; `TooFarBehind` and `OldLife`, by the newest
    /// data packet of the source and universe that was delivered to the node since it started, whatever it answered, also on
    /// universes that the node does not have; `NoiseIsPacket`; last `OutOfMemory`, which `Order`, `Look` and `Noise` never give.
    pub fn step(&mut self, event: &Event) -> Result<Answer, WorldFault>
        ensures { SteppedBy event.now (step self.old event.now) result self.old self.new }
    {
        match event {
            Event::Order(console, now, command) => self.order(*console, *now, *command),
            Event::Poll(console, now) => self.poll(*console, *now),
            Event::Deliver(datagram, node, now) => self.deliver(*datagram, *node, *now),
            Event::Look(node, port, now) => self.look(*node, *port, *now),
            Event::RestartConsole(console, first) => self.restart_console(*console, *first),
            Event::RestartNode(node) => self.restart_node(*node),
            Event::Noise(node, now, octets) => self.noise(*node, *now, octets),
        }
    }

    /// Takes a list of events, up to the first that is refused. Room for all answers is taken first.
    pub fn run(&mut self, events: &[Event]) -> Result<Vec<Answer>, RunFault>
        ensures answers { IfOk result (λ answers. ran self.old events.now
            ≡ Some (record { answers = answers.items; world = self.new })) }
        ensures stopped { IfErr result (λ fault. Stopped self.old events.now fault self.new) }
    {
        let Ok(mut answers) = Vec::with_capacity(self.alloc, events.len()) else {
            return Err(RunFault {
                step: 0,
                fault: WorldFault::OutOfMemory,
            });
        };
        for place in 0..events.len() {
            let answer = match self.step(&events[place]) {
                Ok(answer) => answer,
                Err(fault) => return Err(RunFault { step: place, fault }),
            };
            answers.push_reserved(answer);
        }
        Ok(answers)
    }

    /// The place that a node holds of a source on a universe: the index, in the list of all data packets that the source ever
    /// sent there, of the latest one that was answered Held or EndedNow. None where it holds none, or there is no such node.
    pub fn place(&self, node: usize, cid: &[u8; 16], universe: u16) -> Option<usize>
        ensures { result ≡ place_at node cid.now universe self.now }
    {
        if node >= self.nodes.len() {
            return None;
        }
        self.nodes[node].place(universe, cid)
    }

    /// What a node holds of a source on a universe: the number, priority and levels of the packet at that place, and when it was
    /// renewed. None where it holds none, or there is no such node.
    pub fn held(&self, node: usize, universe: u16, cid: &[u8; 16]) -> Option<HeldView<'_>>
        ensures { result ≡ row_at node cid.now universe self.now }
    {
        if node >= self.nodes.len() {
            return None;
        }
        self.nodes[node].held(universe, cid)
    }

    fn order(&mut self, console: usize, now: u64, command: Command) -> Result<Answer, WorldFault>
        ensures { Stepped
            (step self.old (Event.Order console now command)) result self.old self.new }
    {
        if console >= self.consoles.len() {
            return Err(WorldFault::NoConsole);
        }
        let console = &mut self.consoles[console];
        Ok(Answer::Ordered(console.core.command(now, command)))
    }

    fn poll(&mut self, console: usize, now: u64) -> Result<Answer, WorldFault>
        ensures { SteppedWithRoom
            (step self.old (Event.Poll console now)) result self.old self.new }
    {
        written_is_read();
        written_page_is_read();
        if console >= self.consoles.len() {
            return Err(WorldFault::NoConsole);
        }
        let Ok(room) = Vec::with_capacity(self.alloc, MAX_DATAGRAM) else {
            return Err(WorldFault::OutOfMemory);
        };
        let Ok(()) = self.sent.reserve(1) else {
            return Err(WorldFault::OutOfMemory);
        };
        let mut out = [0; MAX_DATAGRAM];
        let Some(given) = self.consoles[console]
            .core
            .poll_with_universe(now, &mut out)
        else {
            return Ok(Answer::Idle);
        };
        let octets = in_own_length(self.alloc, room, &out, given.len);
        let place = self.sent.len();
        let datagram = self.consoles[console].sent_datagram(
            self.sent.as_slice(),
            given.universe,
            octets,
        );
        self.sent.push_reserved(datagram);
        Ok(Answer::Sent(place))
    }

    fn restart_console(&mut self, console: usize, first: u8) -> Result<Answer, WorldFault>
        ensures { SteppedWithRoom
            (step self.old (Event.RestartConsole console first)) result self.old self.new }
    {
        if console >= self.consoles.len() {
            return Err(WorldFault::NoConsole);
        }
        let alloc = self.alloc;
        let Ok(()) = self.consoles[console].restart(alloc, first) else {
            return Err(WorldFault::OutOfMemory);
        };
        Ok(Answer::Restarted)
    }

    fn restart_node(&mut self, node: usize) -> Result<Answer, WorldFault>
        ensures { SteppedWithRoom
            (step self.old (Event.RestartNode node)) result self.old self.new }
    {
        universes_are_those_of_ranges();
        if node >= self.nodes.len() {
            return Err(WorldFault::NoNode);
        }
        let alloc = self.alloc;
        let Ok(()) = self.nodes[node].restart(alloc) else {
            return Err(WorldFault::OutOfMemory);
        };
        Ok(Answer::Restarted)
    }

    fn deliver(&mut self, datagram: usize, node: usize, now: u64) -> Result<Answer, WorldFault>
        ensures { SteppedWithRoom
            (step self.old (Event.Deliver datagram node now)) result self.old self.new }
    {
        if node >= self.nodes.len() {
            return Err(WorldFault::NoNode);
        }
        if datagram >= self.sent.len() {
            return Err(WorldFault::NoDatagram);
        }
        let sent = &self.sent[datagram];
        if let Some(fault) = sent.refusal(&self.nodes[node]) {
            return Err(fault);
        }
        let Ok(reply) = self.nodes[node].take(now, sent.octets.as_slice(), sent.mark()) else {
            return Err(WorldFault::OutOfMemory);
        };
        Ok(Answer::Taken(reply))
    }

    fn look(&mut self, node: usize, port: u8, now: u64) -> Result<Answer, WorldFault>
        ensures { Stepped (step self.old (Event.Look node port now)) result self.old self.new }
    {
        if node >= self.nodes.len() {
            return Err(WorldFault::NoNode);
        }
        let frame = self.nodes[node].look(now, port);
        Ok(look_answer(frame))
    }

    fn noise(&mut self, node: usize, now: u64, octets: &Vec<u8>) -> Result<Answer, WorldFault>
        ensures { Stepped
            (step self.old (Event.Noise node now octets.now)) result self.old self.new }
    {
        if node >= self.nodes.len() {
            return Err(WorldFault::NoNode);
        }
        if read_packet(octets.as_slice()).is_ok() {
            return Err(WorldFault::NoiseIsPacket);
        }
        Ok(Answer::Taken(self.nodes[node].hear(now, octets.as_slice())))
    }
}

/// The first octets of a datagram, in a vector of their own length; in the room that there is, where memory for one is refused.
fn in_own_length(alloc: Global, room: Vec<u8>, out: &[u8; MAX_DATAGRAM], len: usize) -> Vec<u8>
    requires empty { room.items ≡ [] }
    requires room { MAX_DATAGRAM ≤ vec_capacity room }
    requires len { len ≤ MAX_DATAGRAM }
    ensures { result.items ≡ take len out.now }
{
    match Vec::from_slice(alloc, &out[..len]) {
        Ok(octets) => octets,
        Err(_) => {
            let mut octets = room;
            let _ = octets.extend_from_slice(&out[..len]);
            octets
        }
    }
}

/// The answer to a look: a frame, where the node has the port.
fn look_answer(frame: Option<[u8; 513]>) -> Answer
    ensures { result ≡ answer_to_look frame }
{
    match frame {
        Some(frame) => Answer::Shown(frame),
        None => Answer::NoSuchPort,
    }
}

/// The consoles of these shows, in their life 0.
fn new_consoles(alloc: Global, shows: Vec<(Show, u8)>) -> Result<Vec<Console>, AllocError>
    ensures { IfOk result (λ consoles. consoles.items ≡ map new_console shows.items) }
{
    let mut consoles = Vec::new(alloc);
    for (show, first) in shows {
        let console = Console::new(alloc, show, first)?;
        if consoles.push(console).is_err() {
            return Err(AllocError);
        }
    }
    Ok(consoles)
}

/// The nodes of these setups, which hold nothing.
fn new_nodes(alloc: Global, setups: Vec<NodeSetup>) -> Result<Vec<WorldNode>, AllocError>
    ensures { IfOk result (λ nodes. nodes.items ≡ map (λ n. new_watch n.ports) setups.items) }
{
    let mut nodes = Vec::new(alloc);
    for setup in setups {
        let node = WorldNode::new(alloc, setup)?;
        if nodes.push(node).is_err() {
            return Err(AllocError);
        }
    }
    Ok(nodes)
}
