//! What a world notes of a stream that comes to a node.

ghost use Rattle.std.specs.Prelude.{◌≡◌, ◌<◌, true, ◌∷◌, [], find, length, vec_len, vec_capacity};
ghost use Rattle.std.specs.Option.{option_map};
ghost use Rattle.sacn_sources.specs.Order.{same};
ghost use Rattle.sacn_world.specs.Watches.{is_mark_of, mark_of, first_mark, marked, mark_after, moves};

use sacn_node::NodeTaken;

/// A stream of a source and a universe at a node: the newest place that was delivered and its life, and the place that the
/// node last held.
#[derive(Clone, Copy)]
pub struct Mark {
    pub(crate) source: [u8; 16],
    pub(crate) universe: u16,
    pub(crate) newest: usize,
    pub(crate) life: u64,
    pub(crate) held: usize,
}

/// Whether the reply moves the place that is held.
pub(crate) fn moves(reply: &NodeTaken) -> bool
    ensures { result ≡ moves reply.now }
{
    match reply {
        NodeTaken::FromTable(taken) => taken.renews(),
        NodeTaken::OtherUniverse => false,
        NodeTaken::Discovery => false,
        NodeTaken::Sync => false,
        NodeTaken::Refused(_) => false,
    }
}

impl Mark {
    /// Whether it is of this stream.
    pub(crate) fn is_of(&self, source: &[u8; 16], universe: u16) -> bool
        ensures { result ≡ is_mark_of source.now universe self.now }
    {
        self.universe == universe && is_same(source, &self.source)
    }

    /// As the first of its stream.
    fn first(&self, moves: bool) -> Mark
        ensures { result ≡ first_mark moves self.now }
    {
        let mut mark = *self;
        if !moves {
            mark.held = 0;
        }
        mark
    }

    /// After the delivery that `came` is of.
    fn mark_after(&self, moves: bool, came: &Mark) -> Mark
        ensures { result ≡ mark_after moves came.now self.now }
    {
        let life = if self.newest <= came.newest {
            came.life
        } else {
            self.life
        };
        let held = if moves { came.held } else { self.held };
        let source = self.source;
        Mark {
            source,
            universe: self.universe,
            newest: came.newest.max(self.newest),
            life,
            held,
        }
    }
}

/// Whether two CIDs are the same: their octets, all at once.
#[tactic(auto, using(crate::proofs::SameCids::same_octets))]
pub(crate) fn is_same(a: &[u8; 16], b: &[u8; 16]) -> bool
    ensures { result ≡ same a.now b.now }
{
    a == b
}

/// The mark of a stream.
pub(crate) fn mark_of(marks: &[Mark], source: &[u8; 16], universe: u16) -> Option<Mark>
    ensures { result ≡ mark_of source.now universe marks.now }
{
    for mark in marks {
        if mark.is_of(source, universe) {
            return Some(*mark);
        }
    }
    None
}

/// Notes a delivery. There is room for one mark more.
pub(crate) fn note(marks: &mut Vec<Mark>, moves: bool, came: &Mark)
    requires { vec_len marks.old < vec_capacity marks.old }
    ensures { marks.new.items ≡ marked moves came.now marks.old.items }
{
    for place in 0..marks.len() {
        let mark = marks[place];
        if mark.is_of(&came.source, came.universe) {
            marks[place] = mark.mark_after(moves, came);
            return;
        }
    }
    marks.push_reserved(came.first(moves));
}
