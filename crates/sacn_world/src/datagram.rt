//! A datagram that was sent.

ghost use Rattle.std.specs.Prelude.{◌≡◌, ◌≤◌, ◌<◌, Some, None, count_by};
ghost use Rattle.sacn_world.specs.Wire.{came_of, refusal_by, is_filed, place_in, AreFiled, stream_next};
ghost use Rattle.sacn_world.specs.Watches.{Watch};

use crate::fault::WorldFault;
use crate::mark::{Mark, is_same};
use crate::world_node::WorldNode;

/// The stream's universe, and the place in it.
#[derive(Clone, Copy)]
pub struct InStream {
    pub(crate) universe: u16,
    pub(crate) place: usize,
}

/// A datagram that was sent: by whom, in which life and with which first number of it, where it stands in its stream (a page
/// stands in none), and its octets.
#[derive(Drop)]
pub struct SentDatagram {
    pub(crate) source: [u8; 16],
    pub(crate) life: u64,
    pub(crate) first: u8,
    pub(crate) stream: Option<InStream>,
    pub(crate) octets: Vec<u8>,
}

impl SentDatagram {
    /// What a node notes of it.
    pub(crate) fn mark(&self) -> Option<Mark>
        ensures { result ≡ came_of self.now }
    {
        match self.stream {
            None => None,
            Some(stream) => {
                let source = self.source;
                Some(Mark {
                    source,
                    universe: stream.universe,
                    newest: stream.place,
                    life: self.life,
                    held: stream.place,
                })
            }
        }
    }

    /// Why it may not come to a node.
    pub(crate) fn refusal(&self, node: &WorldNode) -> Option<WorldFault>
        ensures { result ≡ refusal_by self.now node.now.marks }
    {
        match self.stream {
            None => None,
            Some(stream) => node.refusal(&self.source, stream.universe, self.life, stream.place),
        }
    }
}

impl SentDatagram {
    /// Its place, where it stands in this stream.
    fn place_in(&self, source: &[u8; 16], universe: u16) -> Option<usize>
        ensures { result ≡ place_in source.now universe self.now }
    {
        match self.stream {
            None => None,
            Some(stream) => {
                if stream.universe == universe && is_same(source, &self.source) {
                    Some(stream.place)
                } else {
                    None
                }
            }
        }
    }
}

/// Where a datagram of this source that is sent next stands: a data packet of a universe in its stream, right after those that were
/// sent there; a page in none.
pub(crate) fn stream_next(
    sent: &[SentDatagram],
    source: &[u8; 16],
    universe: Option<u16>,
) -> Option<InStream>
    requires filed { AreFiled sent.now }
    ensures { result ≡ stream_next sent.now source.now universe }
{
    match universe {
        Some(universe) => Some(InStream {
            universe,
            place: count_filed(sent, source, universe),
        }),
        None => None,
    }
}

/// How many packets were sent in this stream: one more than the place of the latest of them, which is looked for from the end.
fn count_filed(sent: &[SentDatagram], source: &[u8; 16], universe: u16) -> usize
    requires filed { AreFiled sent.now }
    ensures { result ≡ count_by (is_filed source.now universe) sent.now }
{
    for later in 0..sent.len() {
        let datagram = &sent[sent.len() - 1 - later];
        if let Some(place) = datagram.place_in(source, universe) {
            return place + 1;
        }
    }
    0
}
