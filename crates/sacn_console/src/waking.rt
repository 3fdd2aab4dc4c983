//! When the universes of a console have to be looked at.
ghost use Rattle.std.specs.Prelude.{◌≡◌, ◌<◌, ◌≤◌, ℕ, length, slice_index_or, slice_set, map, min, replicate, IfOk};
ghost use Rattle.sacn_console.specs.Wakes.{IsLeast, awake, last_moment};

use std::alloc::{AllocError, Global};
use std::marker::Model;

/// For each universe the moment before which it isn't due as long as no command comes, and what
/// spares looking at them all.
#[derive(Drop)]
pub struct Wakes {
    each: Vec<u64>,
    // None of them is earlier.
    least: u64,
    // No universe before this place is due at the clock's moment.
    from: usize,
}

impl Model for Wakes {
    ghost use Rattle.sacn_console.specs.Wakes.{Waking, IsLeast};

    ghost Value = { Waking };

    ghost view = { λ w. record { each = w.each.items; least = w.least; from = w.from } };

    ghost invariant = { λ w. IsLeast w.each.items w.least };
}

impl Wakes {
    ghost use Rattle.sacn_console.specs.Wakes.{Waking, IsLeast, awake, last_moment, passed_over};

    /// Every universe has to be looked at.
    pub fn new(alloc: Global, universes: &[u16]) -> Result<Self, AllocError>
        ensures { IfOk result
            (λ w. w ≡ record { each = map awake universes.now; least = 0; from = 0 }) }
    {
        let each = first_wakes(alloc, universes)?;
        Ok(Wakes {
            each,
            least: 0,
            from: 0,
        })
    }

    /// Every universe has to be looked at again.
    pub fn clear(&mut self)
        ensures { self.new
            ≡ record { each = replicate (length self.old.each) 0; least = 0; from = 0 } }
    {
        self.each.fill(0);
        self.least = 0;
        self.from = 0;
    }

    /// The wake of the universe at this place.
    pub fn at(&self, place: usize) -> u64
        requires { place < length self.now.each }
        ensures { result ≡ slice_index_or self.now.each place 0 }
    {
        self.each[place]
    }

    /// Gives the universe at this place a wake.
    pub fn put(&mut self, place: usize, wake: u64)
        requires { place < length self.old.each }
        ensures { self.new ≡ record {
          each = slice_set self.old.each place wake;
          least = min self.old.least wake;
          from = self.old.from;
        } }
    {
        self.each[place] = wake;
        self.least = self.least.min(wake);
    }

    /// No wake is earlier.
    pub fn least(&self) -> u64
        ensures { IsLeast self.now.each result }
    {
        self.least
    }

    /// No universe before this place is due at the clock's moment.
    pub fn from(&self) -> usize
        ensures { result ≡ self.now.from }
    {
        self.from
    }

    /// No universe before this place is due at the clock's moment.
    pub fn start_at(&mut self, place: usize)
        ensures { self.new ≡ record { each = self.old.each; least = self.old.least; from = place } }
    {
        self.from = place;
    }

    /// The universe at this place isn't due at the clock's moment.
    pub fn pass(&mut self, place: usize)
        requires { place < usize.MAX }
        ensures { self.new ≡ record {
          each = self.old.each;
          least = self.old.least;
          from = passed_over place self.old.from;
        } }
    {
        if self.from == place {
            self.from = place + 1;
        }
    }

    /// Notes the earliest wake.
    pub fn note_least(&mut self)
        ensures each { self.new.each ≡ self.old.each }
        ensures from { self.new.from ≡ self.old.from }
    {
        self.least = earliest(&self.each);
    }

    /// The earliest wake, or the last moment that a clock can show.
    pub fn first(&self) -> u64
        ensures least { IsLeast self.now.each result }
        ensures attained { result < last_moment
            → (i : ℕ) × (i < length self.now.each) × (slice_index_or self.now.each i 0 ≡ result) }
    {
        earliest(&self.each)
    }
}

// The earliest of some moments, or the last that a clock can show.
fn earliest(moments: &[u64]) -> u64
    ensures least { IsLeast moments.now result }
    ensures attained { result < last_moment
        → (i : ℕ) × (i < length moments.now) × (slice_index_or moments.now i 0 ≡ result) }
{
    let mut least = u64::MAX;
    for place in 0..moments.len() {
        let moment = moments[place];
        if moment < least {
            least = moment;
        }
    }
    least
}

// Every universe has to be looked at.
fn first_wakes(alloc: Global, universes: &[u16]) -> Result<Vec<u64>, AllocError>
    ensures { IfOk result (λ v. v.items ≡ map awake universes.now) }
{
    let mut wakes = Vec::new(alloc);
    for _place in 0..universes.len() {
        wakes.push(0)?;
    }
    Ok(wakes)
}
