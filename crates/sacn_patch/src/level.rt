//! Where levels come from, and whether they stay.
ghost use Rattle.std.specs.Prelude.{◌≡◌, ℕ, true};

/// What gives a level to each channel.
///
/// The law: the answer is the value of one definition, `level`, at the implementor and the channel.
/// So asking twice gives the same, in any order, and `Patch::fill` may ask once where two slots show
/// one channel.
pub trait LevelOf {
    /// The level of a channel, by definition.
    ghost level: { Self → ℕ → ℕ };

    /// The level of this channel, from 0 to 65535. Every channel may be asked for.
    fn level_of(&self, channel: u16) -> u16
        ensures { result ≡ level self.now channel };
}

/// What says of a channel whether its level stays.
pub trait RestOf {
    /// The level of a channel stays, by definition.
    ghost stays: { Self → ℕ → Type 0 };

    /// Whether the level of this channel is known to stay. Every channel may be asked for.
    fn rests(&self, channel: u16) -> bool
        ensures { result ≡ true → stays self.now channel };
}
