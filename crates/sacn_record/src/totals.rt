//! What was recorded.

ghost use Rattle.std.specs.Prelude.{◌≡◌};

/// What was recorded.
#[derive(Clone, Copy)]
pub struct Totals {
    /// How many datagrams.
    pub datagrams: u64,
    /// The octets of all files that were begun, also of those that are no more.
    pub octets: u64,
    /// For how many milliseconds.
    pub millis: u64,
}

impl Totals {
    /// Nothing.
    pub fn new() -> Self
        ensures { result ≡ record { datagrams = 0; octets = 0; millis = 0 } }
    {
        Totals {
            datagrams: 0,
            octets: 0,
            millis: 0,
        }
    }
}
