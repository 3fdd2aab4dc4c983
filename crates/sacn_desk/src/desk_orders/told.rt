//! What universes are told, one after another: to end, or to start.
use sacn_console::{Command, State, UniverseLine};
use std::alloc::{AllocError, Global};

/// Universes, and what each of them is told.
#[derive(Drop)]
pub(super) struct Told {
    universes: Vec<u16>,
    // Those from this place on aren't told yet.
    next: usize,
    is_start: bool,
}

impl Told {
    /// These universes, each of which is told to end; or room for them, where nothing is to be told.
    pub(super) fn of(alloc: Global, universes: &[u16], end: bool) -> Result<Told, AllocError> {
        let mut list = Vec::with_capacity(alloc, universes.len())?;
        list.extend_from_slice(universes)?;
        let next = if end { 0 } else { universes.len() };
        Ok(Told {
            universes: list,
            next,
            is_start: false,
        })
    }

    /// Whether a universe is still to be told.
    pub(super) fn has_more(&self) -> bool {
        self.next < self.universes.len()
    }

    /// What the next universe is told.
    pub(super) fn next(&mut self) -> Option<Command> {
        let universe = *self.universes.get(self.next)?;
        self.next = self.next.saturating_add(1);
        Some(if self.is_start {
            Command::StartUniverse(universe)
        } else {
            Command::EndUniverse(universe)
        })
    }

    /// From now on every universe that runs is told to end.
    pub(super) fn end_all(&mut self, lines: &[UniverseLine]) {
        self.universes.clear();
        self.next = 0;
        self.is_start = false;
        for line in lines {
            if let State::Running(_) = &line.state {
                let _ = self.universes.push(line.universe);
            }
        }
    }

    /// From now on every universe that has stopped is told to start.
    pub(super) fn start_all(&mut self, lines: &[UniverseLine]) {
        self.universes.clear();
        self.next = 0;
        self.is_start = true;
        for line in lines {
            if let State::Stopped = &line.state {
                let _ = self.universes.push(line.universe);
            }
        }
    }

    /// The universes that are told.
    pub(super) fn universes(&self) -> &[u16] {
        self.universes.as_slice()
    }
}
