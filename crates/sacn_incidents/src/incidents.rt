//! Incidents as they are gathered.

ghost use Rattle.std.specs.Prelude.{◌≡◌, [], IfOk, drop, false, slice_get};
ghost use Rattle.std.specs.List.{list_any, position};
ghost use Rattle.sacn_incidents.specs.Gathering.{after_pass, after_take, given_for, given_by_pass, left_for, lacks_room, next_pass, takes, with_deed};

use crate::deed::Deed;
use crate::incident::Incident;
use crate::limits::{MAX_OPEN, SPAN};
use std::alloc::{AllocError, Global};
use std::marker::Model;

/// Gathers deeds into incidents, of which up to `MAX_OPEN` are open at once. It hands out each in the order in which they began.
///
/// Its value is the list of the incidents that are open. No call but `new` takes memory.
#[derive(Drop)]
pub struct Incidents {
    open: Vec<Incident>,
}

impl Model for Incidents {
    ghost use Rattle.std.specs.Prelude.{◌≤◌, List, length, vec_capacity};
    ghost use Rattle.sacn_incidents.specs.declared.incident.Incident.{Incident};
    ghost use Rattle.sacn_incidents.specs.declared.limits.TheConstants.{MAX_OPEN};

    ghost Value = { List Incident };

    ghost view = { λ i. i.open.items };

    ghost invariant = { λ i. (MAX_OPEN ≤ vec_capacity i.open) × (length i.open.items ≤ MAX_OPEN) };
}

impl Incidents {
    /// No incident, with all room taken.
    ///
    /// Errors: the request for it was refused.
    pub fn new(alloc: Global) -> Result<Self, AllocError>
        ensures { IfOk result (λ i. i ≡ []) }
    {
        Ok(Incidents {
            open: Vec::with_capacity(alloc, MAX_OPEN)?,
        })
    }

    /// Takes a deed: it is a part of the first open incident that takes it, or begins one. Where that finds no room, the oldest
    /// is handed out.
    pub fn take(&mut self, deed: &Deed) -> Option<Incident>
        ensures given { result ≡ given_for deed.now self.old }
        ensures open { self.new ≡ after_take deed.now self.old }
    {
        let oldest = self.make_room(deed);
        self.add(deed);
        oldest
    }

    /// Hands out the oldest incident, where no deed from a moment on is a part of it. Called again it hands out the next one.
    pub fn pass(&mut self, now: u64) -> Option<Incident>
        ensures given { result ≡ given_by_pass now self.old }
        ensures open { self.new ≡ after_pass now self.old }
    {
        match self.open.first() {
            Some(oldest) if oldest.has_passed(now) => self.finish(),
            _ => None,
        }
    }

    /// The first moment at which the oldest incident has passed; 2^64 - 1 where none is open.
    pub fn next_pass(&self) -> u64
        ensures { result ≡ next_pass self.now }
    {
        match self.open.first() {
            Some(oldest) => oldest.first.saturating_add(SPAN + 1),
            None => u64::MAX,
        }
    }

    /// Hands out the oldest incident, as it is.
    pub fn finish(&mut self) -> Option<Incident>
        ensures given { result ≡ slice_get self.old 0 }
        ensures open { self.new ≡ drop 1 self.old }
    {
        if self.open.is_empty() {
            return None;
        }
        Some(self.open.remove(0))
    }

    // Hands out the oldest incident where a deed begins one for which there is no room.
    fn make_room(&mut self, deed: &Deed) -> Option<Incident>
        ensures given { result ≡ given_for deed.now self.old }
        ensures open { self.new ≡ left_for deed.now self.old }
        ensures room { lacks_room deed.now self.new ≡ false }
    {
        if (self.open.len() < MAX_OPEN) | self.is_taken(deed) {
            return None;
        }
        self.finish()
    }

    fn is_taken(&self, deed: &Deed) -> bool
        ensures { result ≡ list_any (takes deed.now) self.now }
    {
        self.open.iter().any(|incident| incident.takes(deed))
    }

    // Puts a deed where it belongs.
    fn add(&mut self, deed: &Deed)
        requires { lacks_room deed.now self.old ≡ false }
        ensures { self.new ≡ with_deed deed.now self.old }
    {
        match place_in(self.open.as_slice(), deed) {
            Some(place) => self.open[place].add(deed),
            None => self.open.push_reserved(Incident::begin(deed)),
        }
    }
}

// The place of the first incident that takes a deed.
fn place_in(open: &[Incident], deed: &Deed) -> Option<usize>
    ensures { result ≡ position (takes deed.now) open.now }
{
    open.iter().position(|incident| incident.takes(deed))
}
