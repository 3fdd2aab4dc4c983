//! Where moments come from.
ghost use Rattle.std.specs.Prelude.{List, ℕ, [], ◌∷◌, None, Option};
ghost use Rattle.sacn_edge.specs.Additions.{Extends};

/// A clock that reads milliseconds. It may go back.
pub trait Clock {
    /// Its readings so far, where it tells them. The machine's clock tells nothing.
    ghost readings: { Self → Option (List ℕ) } = { λ _. None };

    /// Reads it once.
    fn now(&mut self) -> u64
        ensures told { Extends (readings self.old) (readings self.new) (result ∷ []) };
}
