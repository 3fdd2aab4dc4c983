//! Text written to a sink.
ghost use Rattle.std.specs.Prelude.{◌≡◌, ◌<◌, ℕ, length, take, true, false, OnOk, OnErr};
ghost use Rattle.sacn_edge.specs.Additions.{Adds};

use crate::out::Out;
use thiserror::Error;

/// The sink failed.
#[derive(Clone, Copy, Debug, PartialEq, Eq, Error)]
#[error("the device failed")]
pub struct WriteFailed;

/// Writes the text, until it is all taken or `out` has failed. What stands there after a failure is
/// a proper prefix.
pub fn write_text<O: Out>(out: &mut O, text: &[u8]) -> Result<(), WriteFailed>
    requires { O.failed out.old ≡ false }
    ensures ok { OnOk result
        ((O.failed out.new ≡ false) × Adds (O.Tells out.old) (O.Tells out.new) text.now) }
    ensures err { OnErr result ((O.failed out.new ≡ true) × ((n : ℕ) × (n < length text.now)
        × Adds (O.Tells out.old) (O.Tells out.new) (take n text.now))) }
{
    let mut done = 0;
    while done < text.len() {
        let n = out.put(&text[done..]);
        if n == 0 {
            return Err(WriteFailed);
        }
        done += n;
    }
    Ok(())
}
