//! Octets that wait to be sent.

ghost use Rattle.std.specs.Prelude.{◌≡◌, ◌≤◌, [], length, drop, OnOk};

use std::alloc::{AllocError, Global};
use std::marker::Model;

/// Octets that wait to be sent. Its value is the list of those that are left.
#[derive(Drop)]
pub struct Outbox {
    octets: Vec<u8>,
    sent: usize,
}

impl Model for Outbox {
    ghost use Rattle.std.specs.Prelude.{◌≤◌, List, ℕ, length, drop};

    ghost Value = { List ℕ };

    ghost view = { λ o. drop o.sent o.octets.items };

    ghost invariant = { λ o. o.sent ≤ length o.octets.items };
}

impl Outbox {
    /// None.
    pub fn new(alloc: Global) -> Self
        ensures { result ≡ [] }
    {
        Outbox {
            octets: Vec::new(alloc),
            sent: 0,
        }
    }

    /// Those that are left.
    pub fn rest(&self) -> &[u8]
        ensures { result.now ≡ self.now }
    {
        &self.octets.as_slice()[self.sent..]
    }

    /// These, in place of those that are left.
    ///
    /// Errors: a growth was refused.
    pub fn fill(&mut self, octets: &[u8]) -> Result<(), AllocError>
        ensures { OnOk result (self.new ≡ octets.now) }
    {
        self.octets.clear();
        self.sent = 0;
        self.octets.extend_from_slice(octets)
    }

    /// So many went.
    pub fn advance(&mut self, count: usize)
        requires { count ≤ length self.old }
        ensures { self.new ≡ drop count self.old }
    {
        self.sent += count;
    }
}
