//! Whole inputs, up to a limit.
ghost use Rattle.std.specs.Prelude.{◌≡◌, ◌≤◌, ◌<◌, ◌^◌, length, IfOk, IfErr, IfSome};
ghost use Rattle.sacn_text.specs.declared.input.ReadFault.TheVariants.{TooLarge};

use std::alloc::Allocator;
use std::io::{ErrorKind, Read};
use thiserror::Error;

/// The most octets of a file or of standard input, 1 MiB.
pub const MAX_FILE_OCTETS: u64 = 1_048_576;

/// Why an input isn't read.
#[derive(Clone, Copy, Debug, Error)]
pub enum ReadFault {
    /// No memory is left.
    #[error("out of memory")]
    OutOfMemory,
    /// The device failed.
    #[error("the device failed")]
    Device,
    /// The input has more octets than the limit. One more than the limit is read.
    #[error("the input is too large")]
    TooLarge,
}

/// The whole input, if it has at most `limit` octets; `TooLarge` comes only where it has more. At most one octet more
/// than the limit is read.
pub fn read_limited<A: Allocator + Clone + Drop, R: Read + Drop>(
    alloc: A,
    reader: R,
    limit: u64,
) -> Result<Vec<u8, A>, ReadFault>
    requires { limit < 2 ^ 32 }
    ensures small { IfOk result (λ v. length v.items ≤ limit) }
    ensures whole { IfOk result (λ v. IfSome (R.remaining reader) (λ xs. v.items ≡ xs)) }
    ensures large { IfErr result
        (λ fault. fault ≡ TooLarge → IfSome (R.remaining reader) (λ xs. limit < length xs)) }
{
    let mut octets = Vec::new(alloc);
    let mut reader = reader.take(limit + 1);
    match reader.read_to_end(&mut octets) {
        Ok(_) => {
            if octets.len() as u64 > limit {
                Err(ReadFault::TooLarge)
            } else {
                Ok(octets)
            }
        }
        Err(error) => {
            if error.kind() == ErrorKind::OutOfMemory {
                Err(ReadFault::OutOfMemory)
            } else {
                Err(ReadFault::Device)
            }
        }
    }
}
