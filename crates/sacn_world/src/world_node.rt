//! A node of a world.

ghost use Rattle.std.specs.Prelude.{◌≡◌, IfOk, OnOk, OnErr, Some, None, Ok, []};
ghost use Rattle.sacn_packets.specs.PacketReading.{reading_packet};
ghost use Rattle.sacn_node.specs.Cores.{core_at, core_row, node_frame};
ghost use Rattle.sacn_node.specs.Readings.{reply_to, after_reading};
ghost use Rattle.sacn_world.specs.Watches.{mark_of, held_place, place_noted, mark_refusal, marks_after, with_core, new_watch, taken_by};

use crate::fault::WorldFault;
use crate::limits::TOO_FAR_BEHIND;
use crate::mark::{Mark, mark_of, moves, note};
use sacn_node::{NodeCore, NodeSetup, NodeTaken};
use sacn_sources::HeldView;
use std::alloc::{AllocError, Global};
use std::marker::Model;

/// A node: its setup, its core, and the streams that were sent to it.
#[derive(Drop)]
pub(crate) struct WorldNode {
    setup: NodeSetup,
    core: NodeCore,
    marks: Vec<Mark>,
}

impl Model for WorldNode {
    ghost use Rattle.std.specs.Prelude.{◌≡◌};
    ghost use Rattle.sacn_world.specs.Watches.{Watch};

    ghost Value = { Watch };

    ghost view = { λ w. record { node = w.core; marks = w.marks.items } };

    ghost invariant = { λ w. w.setup.ports ≡ w.core.ports };
}

impl WorldNode {
    /// A node that holds nothing and was sent nothing.
    pub(crate) fn new(alloc: Global, setup: NodeSetup) -> Result<Self, AllocError>
        ensures { IfOk result (λ w. w ≡ new_watch setup.ports) }
    {
        match NodeCore::new(alloc, &setup) {
            Ok(core) => Ok(WorldNode {
                setup,
                core,
                marks: Vec::new(alloc),
            }),
            Err(_) => Err(AllocError),
        }
    }

    /// Starts the node anew. Nothing changes where there is no room for a new core.
    pub(crate) fn restart(&mut self, alloc: Global) -> Result<(), AllocError>
        ensures anew { OnOk result (self.new ≡ new_watch self.old.node.ports) }
        ensures unchanged { OnErr result (self.new ≡ self.old) }
    {
        let Ok(core) = NodeCore::new(alloc, &self.setup) else {
            return Err(AllocError);
        };
        self.core = core;
        self.marks = Vec::new(alloc);
        Ok(())
    }

    /// Why a packet of this stream, life and place may not come.
    pub(crate) fn refusal(
        &self,
        source: &[u8; 16],
        universe: u16,
        life: u64,
        place: usize,
    ) -> Option<WorldFault>
        ensures { result ≡ mark_refusal life place (mark_of source.now universe self.now.marks) }
    {
        match mark_of(&self.marks, source, universe) {
            None => None,
            Some(mark) => mark_refusal(&mark, life, place),
        }
    }

    /// A datagram comes, of which `came` is noted. Nothing changes where there is no room for the note.
    pub(crate) fn take(
        &mut self,
        now: u64,
        octets: &[u8],
        came: Option<Mark>,
    ) -> Result<NodeTaken, AllocError>
        ensures reply { IfOk result
            (λ reply. reply ≡ reply_to (reading_packet octets.now) now self.old.node.core) }
        ensures taken { OnOk result
            (self.new ≡ taken_by (reading_packet octets.now) now came self.old) }
        ensures unchanged { OnErr result (self.new ≡ self.old) }
    {
        self.marks.reserve(1)?;
        let reply = self.core.take(now, octets);
        match came {
            None => Ok(reply),
            Some(came) => {
                note(&mut self.marks, moves(&reply), &came);
                Ok(reply)
            }
        }
    }

    /// Octets that are no packet come.
    pub(crate) fn hear(&mut self, now: u64, octets: &[u8]) -> NodeTaken
        ensures reply { result ≡ reply_to (reading_packet octets.now) now self.old.node.core }
        ensures taken { self.new ≡ taken_by (reading_packet octets.now) now None self.old }
    {
        self.core.take(now, octets)
    }

    /// The frame of a port, where the node has it.
    pub(crate) fn look(&mut self, now: u64, port: u8) -> Option<[u8; 513]>
        ensures frame { result ≡ node_frame port self.new.node }
        ensures core { self.new ≡ with_core (core_at now self.old.node.core) self.old }
    {
        let mut frame = [0; 513];
        match self.core.frame(now, port, &mut frame) {
            Ok(()) => Some(frame),
            Err(_) => None,
        }
    }

    /// What the node holds of a source on a universe.
    pub(crate) fn held(&self, universe: u16, cid: &[u8; 16]) -> Option<HeldView<'_>>
        ensures { result ≡ core_row universe cid.now self.now.node.core }
    {
        self.core.held(universe, cid)
    }

    /// The place of what the node holds of a source on a universe.
    pub(crate) fn place(&self, universe: u16, cid: &[u8; 16]) -> Option<usize>
        ensures { result ≡ place_noted universe cid.now self.now }
    {
        match self.held(universe, cid) {
            Some(_) => Some(self.place_noted(universe, cid)),
            None => None,
        }
    }

    /// The place that is noted as held.
    fn place_noted(&self, universe: u16, cid: &[u8; 16]) -> usize
        ensures { result ≡ held_place (mark_of cid.now universe self.now.marks) }
    {
        match mark_of(&self.marks, cid, universe) {
            Some(mark) => mark.held,
            None => 0,
        }
    }
}

/// Why a packet of this life and place may not come after the newest one.
fn mark_refusal(newest: &Mark, life: u64, place: usize) -> Option<WorldFault>
    ensures { result ≡ mark_refusal life place (Some newest.now) }
{
    if life == newest.life
        && newest.newest >= TOO_FAR_BEHIND
        && place <= newest.newest - TOO_FAR_BEHIND
    {
        return Some(WorldFault::TooFarBehind);
    }
    if life < newest.life {
        return Some(WorldFault::OldLife);
    }
    None
}
