//! A sink of octets.
ghost use Rattle.std.specs.Prelude.{◌≡◌, ◌<◌, ◌≤◌, ◌==◌, ℕ, List, length, take, Bool, false};
ghost use Rattle.sacn_edge.specs.Additions.{Adds};

/// A sink of octets that takes some from the front of what it is handed, or fails for good.
pub trait Out {
    /// It has failed.
    ghost failed: { Self → Bool };

    /// It tells that these are the octets taken so far. One that tells nothing makes this false.
    ghost Tells: { Self → List ℕ → Type 0 } = { λ _ _. ⊥ };

    /// Takes that many octets from the front; or answers 0, takes none and has failed for good.
    fn put(&mut self, bytes: &[u8]) -> usize
        requires some { 0 < length bytes.now }
        requires works { failed self.old ≡ false }
        ensures bound { result ≤ length bytes.now }
        ensures fails { failed self.new ≡ (result == 0) }
        ensures taken { Adds (Tells self.old) (Tells self.new) (take result bytes.now) };

    /// Whether it has failed.
    fn has_failed(&self) -> bool
        ensures { result ≡ failed self.now };
}
