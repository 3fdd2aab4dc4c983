//! What a recording says of the interfaces that it was taken from.

ghost use Rattle.std.specs.Prelude.{◌<◌};

use crate::clock::Shift;
use crate::links::LinkType;

/// An interface that a section describes.
#[derive(Clone, Copy)]
pub struct Described {
    /// Its link; none where frames of that link aren't read here.
    pub link: Option<LinkType>,
    /// The most octets of a frame that were kept; 0 for all.
    pub longest: u32,
    /// The ticks of a second.
    pub units: u64,
    /// How much later or earlier its moments are than its ticks say.
    pub shift: Option<Shift>,
    ghost some: { 0 < units },
}
