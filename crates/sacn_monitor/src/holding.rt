//! What a node holds of a source on a universe.

ghost use Rattle.std.specs.Prelude.{◌≡◌};
ghost use Rattle.sacn_monitor.specs.Holdings.{begins_holding, held_after, is_held, is_relit, lasts, light_at, light_end, same_light};

use sacn_sources::{Kind, NETWORK_DATA_LOSS};

/// What a node holds of a source on a universe, where it has room for it. Moments are in milliseconds; what was renewed 2500 ms
/// ago or earlier is lost (E1.31, 6.7.1).
#[derive(Clone, Copy, Debug, PartialEq, Eq)]
pub enum Holding {
    /// Nothing.
    Nothing,
    /// That its stream ended at this moment (E1.31, 6.2.6).
    Ended(u64),
    /// Levels of this moment, at this priority, 0 to 200 (E1.31, 6.2.3).
    Levels(u64, u8),
}

impl Holding {
    /// What is held after a packet of this kind and priority that is taken.
    pub(crate) fn after(self, moment: u64, kind: Kind, priority: u8) -> Self
        ensures { result ≡ held_after moment kind priority self }
    {
        match kind {
            Kind::Live => Holding::Levels(moment, priority),
            Kind::Termination if self.is_held(moment) => Holding::Ended(moment),
            Kind::Termination => Holding::Nothing,
            Kind::Preview | Kind::Other => self,
        }
    }

    /// Whether a packet of this kind would be held where nothing is, so that a node takes it whatever its number.
    pub(crate) fn is_begun_by(self, moment: u64, kind: Kind) -> bool
        ensures { result ≡ begins_holding moment kind self }
    {
        match kind {
            Kind::Live => !self.is_held(moment),
            Kind::Termination | Kind::Preview | Kind::Other => false,
        }
    }

    // Whether something is held at a moment.
    fn is_held(self, moment: u64) -> bool
        ensures { result ≡ is_held moment self }
    {
        match self {
            Holding::Nothing => false,
            Holding::Ended(renewed) => lasts(moment, renewed),
            Holding::Levels(renewed, _) => lasts(moment, renewed),
        }
    }

    /// The priority at which the source lights the universe at a moment, if it does.
    pub(crate) fn light(self, moment: u64) -> Option<u8>
        ensures { result ≡ light_at moment self }
    {
        match self {
            Holding::Levels(renewed, priority) if lasts(moment, renewed) => Some(priority),
            _ => None,
        }
    }

    /// The moment at which levels that are held at another one are lost where none follow; else `u64::MAX`.
    pub(crate) fn light_end(self, moment: u64) -> u64
        ensures { result ≡ light_end moment self }
    {
        match self {
            Holding::Levels(renewed, _) if lasts(moment, renewed) => {
                renewed.saturating_add(NETWORK_DATA_LOSS)
            }
            _ => u64::MAX,
        }
    }

    /// Whether the light is another one with what is held after a packet, or went out since the packet before.
    pub(crate) fn is_relit(self, latest: u64, moment: u64, after: Self) -> bool
        ensures { result ≡ is_relit latest moment self after }
    {
        let light = self.light(moment);
        !same_light(self.light(latest), light) | !same_light(light, after.light(moment))
    }
}

/// Whether what was renewed at a moment isn't lost at another one.
pub(crate) fn lasts(moment: u64, renewed: u64) -> bool
    ensures { result ≡ lasts moment renewed }
{
    moment.saturating_sub(renewed) < NETWORK_DATA_LOSS
}

fn same_light(a: Option<u8>, b: Option<u8>) -> bool
    ensures { result ≡ same_light a b }
{
    match (a, b) {
        (None, None) => true,
        (Some(a), Some(b)) => a == b,
        _ => false,
    }
}
