//! Which universes of a source have to be looked at.
ghost use Rattle.std.specs.Prelude.{◌≡◌, ◌≤◌, min, nat_lt, nat_le, false, if◌then◌else◌};
ghost use Rattle.sacn_console.specs.Wakes.{passed_over};

/// What spares looking at all universes: none is due before a moment, one at that moment where it is
/// exact, and none before a place at the clock's moment.
#[derive(Clone, Copy)]
pub(crate) struct Looks {
    pub(crate) least: u64,
    pub(crate) is_exact: bool,
    pub(crate) from: usize,
}

impl Looks {
    /// Every universe has to be looked at.
    pub(crate) fn anew() -> Self
        ensures { result ≡ record { least = 0; is_exact = false; from = 0 } }
    {
        Looks {
            least: 0,
            is_exact: false,
            from: 0,
        }
    }

    /// Whether none is due at a moment.
    pub(crate) fn rests_at(&self, moment: u64) -> bool
        ensures { result ≡ nat_lt moment self.now.least }
    {
        moment < self.least
    }

    /// The clock moves.
    pub(crate) fn moved(self, moment: u64, now: u64) -> Self
        ensures { result ≡ record {
          least = self.least;
          is_exact = self.is_exact;
          from = if nat_lt moment now then 0 else self.from;
        } }
    {
        Looks {
            least: self.least,
            is_exact: self.is_exact,
            from: if moment < now { 0 } else { self.from },
        }
    }

    /// The universe at a place has other levels, and is due next at `wake`.
    pub(crate) fn stirred(self, place: usize, wake: u64) -> Self
        ensures { result ≡ record {
          least = min self.least wake;
          is_exact = nat_le wake self.least;
          from = min self.from place;
        } }
    {
        Looks {
            least: self.least.min(wake),
            is_exact: wake <= self.least,
            from: self.from.min(place),
        }
    }

    /// The packet of the universe at a place was sent.
    pub(crate) fn passed(self, place: usize) -> Self
        ensures least { result.least ≡ 0 }
        ensures exact { result.is_exact ≡ false }
        ensures from { result.from ≤ passed_over place self.from }
    {
        Looks {
            least: 0,
            is_exact: false,
            from: if self.from == place {
                place.saturating_add(1)
            } else {
                self.from
            },
        }
    }
}
