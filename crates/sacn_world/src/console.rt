//! A console of a world.

ghost use Rattle.std.specs.Prelude.{◌≡◌, ◌+◌, OnOk, OnErr, IfOk};
ghost use Rattle.sacn_world.specs.Wire.{AreFiled, sent_datagram};
ghost use Rattle.sacn_world.specs.Worlds.{new_life};

use crate::datagram::{SentDatagram, stream_next};
use sacn_console::{ConsoleCore, Show};
use std::alloc::{AllocError, Global};

/// A console: its show, the index of its life and that life's first number, and what it does in this life.
#[derive(Drop)]
pub struct Console {
    pub(crate) show: Show,
    pub(crate) life: u64,
    pub(crate) first: u8,
    pub(crate) core: ConsoleCore,
}

impl Console {
    /// A console in its life 0.
    pub(crate) fn new(alloc: Global, show: Show, first: u8) -> Result<Self, AllocError>
        ensures { IfOk result (λ c. c ≡ new_life show 0 first) }
    {
        match ConsoleCore::new(alloc, &show, first) {
            Ok(core) => Ok(Console {
                show,
                life: 0,
                first,
                core,
            }),
            Err(_) => Err(AllocError),
        }
    }

    /// Begins a new life. Nothing changes where there is no room for its core, or no number for it.
    pub(crate) fn restart(&mut self, alloc: Global, first: u8) -> Result<(), AllocError>
        ensures begun { OnOk result (self.new ≡ new_life self.old.show (self.old.life + 1) first) }
        ensures unchanged { OnErr result (self.new ≡ self.old) }
    {
        let Some(life) = self.life.checked_add(1) else {
            return Err(AllocError);
        };
        let Ok(core) = ConsoleCore::new(alloc, &self.show, first) else {
            return Err(AllocError);
        };
        self.life = life;
        self.first = first;
        self.core = core;
        Ok(())
    }

    /// These octets as a datagram of this console, which is sent next; of a data packet with its universe.
    pub(crate) fn sent_datagram(
        &self,
        sent: &[SentDatagram],
        universe: Option<u16>,
        octets: Vec<u8>,
    ) -> SentDatagram
        requires filed { AreFiled sent.now }
        ensures { result ≡ sent_datagram self.now sent.now universe octets }
    {
        let source = self.show.cid();
        let stream = stream_next(sent, &source, universe);
        SentDatagram {
            source,
            life: self.life,
            first: self.first,
            stream,
            octets,
        }
    }
}
