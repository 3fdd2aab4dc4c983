//! Octets put to the end of what is built.

ghost use Rattle.std.specs.Prelude.{◌≡◌, ◌+◌, ◌*◌, ◌≤◌, ◌++◌, length};
ghost use Rattle.arrayvec.specs.ArrayVec.{array_vec_len};
ghost use Rattle.sacn_record.specs.Writing.{shorts, words};

use arrayvec::ArrayVec;

/// Puts octets to the end.
pub fn put<const N: usize>(out: &mut ArrayVec<u8, N>, octets: &[u8])
    requires { array_vec_len out.old + length octets.now ≤ N }
    ensures items { out.new.items ≡ out.old.items ++ octets.now }
    ensures len { array_vec_len out.new ≡ array_vec_len out.old + length octets.now }
{
    let _fits = out.try_extend_from_slice(octets);
}

/// Puts numbers to the end, each with its high octet first.
pub fn put_shorts<const N: usize>(out: &mut ArrayVec<u8, N>, numbers: &[u16])
    requires { array_vec_len out.old + 2 * length numbers.now ≤ N }
    ensures items { out.new.items ≡ out.old.items ++ shorts numbers.now }
    ensures len { array_vec_len out.new ≡ array_vec_len out.old + 2 * length numbers.now }
{
    for number in numbers {
        put(out, &number.to_be_bytes());
    }
}

/// Puts numbers to the end, each with its low octet first.
pub fn put_words<const N: usize>(out: &mut ArrayVec<u8, N>, numbers: &[u32])
    requires { array_vec_len out.old + 4 * length numbers.now ≤ N }
    ensures items { out.new.items ≡ out.old.items ++ words numbers.now }
    ensures len { array_vec_len out.new ≡ array_vec_len out.old + 4 * length numbers.now }
{
    for number in numbers {
        put(out, &number.to_le_bytes());
    }
}
