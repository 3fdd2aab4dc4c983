//! Laws of the lists that files have.
ghost use Rattle.std.specs.Prelude.{◌≡◌, false, map, IsPermutation};
ghost use Rattle.std.specs.List.Sorted.{IsNonDecreasingBy, IsStrictlyIncreasing};
ghost use Rattle.sacn_files.specs.Numbers.{in_order, has_repeat};
ghost use Rattle.sacn_files.specs.declared.limits.TheConstants.{DEFAULT_UDP_PORT, MIN_UDP_PORT, MAX_UDP_PORT};

use crate::numbers::Numbered;

/// Putting items in order keeps them all, and their numbers don't fall; they rise where none stands
/// twice.
pub fn order_rises<T: Numbered>(items: &[T])
    ensures same { IsPermutation items.now (in_order T.number_of items.now) }
    ensures rising { IsNonDecreasingBy T.number_of (in_order T.number_of items.now) }
    ensures strictly { has_repeat (map T.number_of items.now) ≡ false
        → IsStrictlyIncreasing (map T.number_of (in_order T.number_of items.now)) }
{}

/// What the numbers of the files are.
pub fn numbers()
    ensures default_port { DEFAULT_UDP_PORT ≡ 5568 }
    ensures least_port { MIN_UDP_PORT ≡ 1 }
    ensures most_port { MAX_UDP_PORT ≡ 65535 }
{}
