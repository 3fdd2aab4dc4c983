//! Where recordings are kept.

ghost use Rattle.std.specs.Prelude.{◌∷◌, [], List, None, Option, OnErr, OnOk};
ghost use Rattle.sacn_edge.specs.Additions.{Extends};
ghost use Rattle.sacn_record.specs.Sessions.{Deed, Begun, Put, PutsFront};

use std::io;

/// The files of a recording.
pub trait Tapes {
    /// What was done so far, where it tells that. The machine's files tell nothing.
    ghost told: { Self → Option (List Deed) } = { λ _. None };

    /// Begins a file, which is empty.
    ///
    /// Errors: those of the machine's files.
    fn begin(&mut self) -> io::Result<()>
        ensures begun { OnOk result (Extends (told self.old) (told self.new) (Begun ∷ [])) }
        ensures still { OnErr result (Extends (told self.old) (told self.new) []) };

    /// Puts octets to the end of the file that was begun last. When it comes back they are the machine's.
    ///
    /// Errors: those of the machine's files; the first of the octets, however many, were put then.
    fn put(&mut self, octets: &[u8]) -> io::Result<()>
        ensures all { OnOk result (Extends (told self.old) (told self.new) (Put octets.now ∷ [])) }
        ensures front { OnErr result (PutsFront (told self.old) (told self.new) octets.now) };
}
