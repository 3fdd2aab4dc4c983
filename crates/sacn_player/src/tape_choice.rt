//! What of a recording is played.
use sacn_replay::{UniverseMap, universe_in};

/// Which datagrams of a recording are played, and under which numbers.
#[derive(Drop)]
pub struct TapeChoice {
    /// The UDP port that they went to.
    pub port: u16,
    /// The numbers under which universes go out.
    pub universes: UniverseMap,
    /// The universes of a show, whose data packets alone are played, by their numbers of the map; None for all datagrams.
    pub only: Option<Vec<u16>>,
}

/// What a choice says of a datagram.
#[derive(Clone, Copy)]
pub(crate) enum Chosen {
    Played,
    /// It is a data packet of another universe than those of the show.
    OtherUniverse,
    /// It is no data packet, and a show's are played alone.
    NoData,
}

impl TapeChoice {
    /// What is said of a datagram's octets.
    pub(crate) fn of(&self, octets: &[u8]) -> Chosen {
        let Some(only) = &self.only else {
            return Chosen::Played;
        };
        match universe_in(octets) {
            Some(universe) if self.is_shown(only, universe) => Chosen::Played,
            Some(_) => Chosen::OtherUniverse,
            None => Chosen::NoData,
        }
    }

    // Whether a universe goes out as one of these. One to whose number another one is sent doesn't.
    fn is_shown(&self, only: &[u16], universe: u16) -> bool {
        let number = self.universes.of(universe);
        let is_displaced = self.universes.has_to(universe) && !self.universes.has_from(universe);
        !is_displaced && only.iter().any(|one| *one == number)
    }
}
