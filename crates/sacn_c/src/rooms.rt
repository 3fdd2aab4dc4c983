//! Lists, in rooms of C's.
ghost use Rattle.std.specs.Prelude.{◌≡◌, length};
ghost use Rattle.sacn_c.specs.Collecting.{ShowsList};
ghost use Rattle.sacn_c.specs.Rooms.{room_status, room_with};
ghost use Rattle.sacn_c.specs.declared.status.TheConstants.{DONE};

use crate::status::{DONE, LENGTH};

/// Copies a list to the front of a room, and tells its length. The status is `LENGTH`, and the room as it was, where there is too little
/// of it.
pub(crate) fn put_list<T: Copy>(list: &[T], room: &mut [T], count: &mut usize) -> u32
    ensures status { result ≡ room_status room.old list.now }
    ensures count { count.new ≡ length list.now }
    ensures shown { result ≡ DONE → ShowsList list.now count.new room.new }
    ensures room { room.new ≡ room_with room.old list.now }
{
    *count = list.len();
    if room.len() < list.len() {
        return LENGTH;
    }
    room[..list.len()].copy_from_slice(list);
    DONE
}
