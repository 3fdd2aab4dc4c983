//! The file of a world.

mod fault;
mod members;
mod reading;

pub use fault::WorldTextFault;
pub use reading::{read_world, world_of};

/// The newest version of world files, and the only one. The tables of shows and setups in it have
/// versions of their own.
pub const NEWEST_WORLD: u8 = 1;
