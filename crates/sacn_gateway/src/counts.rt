//! Messages that could come often.
ghost use Rattle.std.specs.Prelude.{◌≡◌, ◌≤◌, ◌+◌, true, false};
ghost use Rattle.sacn_gateway.specs.declared.limits.TheConstants.{SOURCE_LINES};

use crate::limits::SOURCE_LINES;
use arrayvec::ArrayVec;
use sacn_machine::limits::SAID_EACH;
use std::io::Write;

/// The most names that are counted apart.
const MAX_NAMES: usize = 32;

/// How often something happened since it was said, and when it was said.
#[derive(Clone, Copy, Default)]
struct Counted {
    name: &'static str,
    count: u64,
    said: Option<u64>,
}

impl Counted {
    /// Whether there is something to say, and nothing was said for a second.
    fn is_due(&self, now: u64) -> bool {
        if self.count == 0 {
            return false;
        }
        match self.said {
            Some(said) => now.saturating_sub(said) >= SAID_EACH,
            None => true,
        }
    }
}

/// Counts what happens by name, and says it, each name at most once a second.
#[derive(Drop)]
pub struct Counts {
    counted: ArrayVec<Counted, MAX_NAMES>,
}

impl Counts {
    /// Nothing happened yet.
    pub fn new() -> Counts {
        Counts {
            counted: ArrayVec::new(),
        }
    }

    /// Counts something of this name.
    pub fn count(&mut self, name: &'static str) {
        for counted in self.counted.iter_mut() {
            if counted.name == name {
                counted.count = counted.count.saturating_add(1);
                return;
            }
        }
        let _ = self.counted.try_push(Counted {
            name,
            count: 1,
            said: None,
        });
    }

    /// Says what was counted since it was said, each name at most once a second.
    pub fn say<E: Write>(&mut self, now: u64, err: &mut E) {
        for counted in self.counted.iter_mut() {
            if counted.is_due(now) {
                let _ = writeln!(err, "{} {}", counted.name, counted.count);
                counted.count = 0;
                counted.said = Some(now);
            }
        }
    }
}

/// How many lines of one kind a second may have: a few, and the others are counted.
#[derive(Clone, Copy, Default)]
pub struct Allowance {
    // The moment of the second's first line.
    begun: u64,
    said: u64,
    passed: u64,
}

impl Allowance {
    /// Nothing was said or passed over.
    pub fn new() -> Allowance
        ensures { result.said ≡ 0 }
    {
        Allowance {
            begun: 0,
            said: 0,
            passed: 0,
        }
    }

    fn is_over(&self, now: u64) -> bool {
        now.saturating_sub(self.begun) >= SAID_EACH
    }

    /// Whether one more line may be written at a moment. One that may not is counted.
    pub fn admits(&mut self, now: u64) -> bool
        ensures few { self.old.said ≤ SOURCE_LINES → self.new.said ≤ SOURCE_LINES }
        ensures said { result ≡ true → self.new.passed ≡ self.old.passed }
        ensures passed { result ≡ false → self.old.passed ≤ self.new.passed }
    {
        if self.is_over(now) {
            self.begun = now;
            self.said = 0;
        }
        if self.said < SOURCE_LINES {
            self.said += 1;
            return true;
        }
        self.passed = self.passed.saturating_add(1);
        false
    }

    /// Says once the second is over how many lines were passed over in it.
    pub fn say<E: Write>(&mut self, now: u64, err: &mut E) {
        if self.passed > 0 && self.is_over(now) {
            let _ = writeln!(err, "{} source lines not written", self.passed);
            self.passed = 0;
        }
    }
}
