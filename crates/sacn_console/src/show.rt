//! A show.
ghost use Rattle.std.specs.Prelude.{◌≡◌};

use crate::sender::Sender;
use sacn_cues::CueList;
use sacn_patch::Patch;
use std::marker::Model;

mod cues;
mod draft;
mod fault;
mod identity;
mod patches;
mod phases;
mod ports;
mod show_rows;
mod universes;

pub use fault::ShowFault;
use identity::Identity;
pub use patches::PatchRow;
pub use phases::{read_show, show_of};
use ports::Destinations;
use universes::Universes;

/// A show: who sends, on which universes and to which ports, and its cues and patch.
#[derive(Drop)]
pub struct Show {
    pub(crate) sender: Sender,
    name: String,
    pub(crate) universes: Vec<u16>,
    send_to: Vec<u16>,
    pub(crate) cues: CueList,
    pub(crate) patch: Patch,
}

impl Model for Show {
    ghost use Rattle.std.specs.Prelude.{◌≡◌, string_bytes};
    ghost use Rattle.sacn_packets.specs.Naming.{padded};
    ghost use Rattle.sacn_console.specs.Shows.{ShowContent, ShowOk};
    ghost use Rattle.std.specs.Coded.{codes};
    ghost use Rattle.sacn_patch.specs.Patch.{patch_code};
    ghost use Rattle.sacn_cues.specs.Cues.{cues_code};

    ghost Value = { ShowContent };

    ghost coded = { Prim.hlevel (codes, patch_code, cues_code) };

    ghost view = { λ s. record { cid = s.sender.cid; name = string_bytes s.name; priority = s.sender.priority; universes = s.universes.items; send_to = s.send_to.items; cues = s.cues; patch = s.patch } };

    ghost invariant = { λ s. (s.sender.name ≡ padded (string_bytes s.name)) × ShowOk (record { cid = s.sender.cid; name = string_bytes s.name; priority = s.sender.priority; universes = s.universes.items; send_to = s.send_to.items; cues = s.cues; patch = s.patch }) };
}

impl Show {
    ghost use Rattle.std.specs.Prelude.{◌≤◌, true, length};
    ghost use Rattle.std.specs.List.{AllByRecursion};
    ghost use Rattle.std.specs.List.Sorted.{IsStrictlyIncreasing};
    ghost use Rattle.sacn_packets.specs.Naming.{padded, is_nameable};
    ghost use Rattle.sacn_packets.specs.Universe.{IsUniverse};
    ghost use Rattle.sacn_console.specs.Shows.{ShowContent, ShowOk};
    ghost use Rattle.sacn_console.specs.declared.limits.TheConstants.{CONSOLE_UNIVERSES, MAX_DESTINATIONS};

    fn new(
        identity: Identity,
        universes: Universes,
        send_to: Destinations,
        cues: CueList,
        patch: Patch,
    ) -> Self
        ensures { result
            ≡ record {
              cid = identity.cid;
              name = identity.name;
              priority = identity.priority;
              universes = universes;
              send_to = send_to;
              cues = cues;
              patch = patch;
            } }
    {
        let Identity { sender, name } = identity;
        Show {
            sender,
            name,
            universes: universes.numbers,
            send_to: send_to.ports,
            cues,
            patch,
        }
    }

    /// The CID of the show's packets (E1.31, 5.6).
    pub fn cid(&self) -> [u8; 16]
        ensures { result ≡ self.now.cid }
    {
        self.sender.cid
    }

    /// The source name of its packets (E1.31, 6.2.2): at most 63 octets, none of them NUL.
    pub fn name(&self) -> &str
        ensures text { result.now ≡ self.now.name }
        ensures nameable { is_nameable result.now ≡ true }
    {
        self.name.as_str()
    }

    /// The priority of its packets, 0 to 200 (E1.31, 6.2.3).
    pub fn priority(&self) -> u8
        ensures priority { result ≡ self.now.priority }
        ensures most { result ≤ 200 }
    {
        self.sender.priority
    }

    /// Its universes, ascending: at most `CONSOLE_UNIVERSES`, each 1 to 63999.
    pub fn universes(&self) -> &[u16]
        ensures universes { result.now ≡ self.now.universes }
        ensures ascending { IsStrictlyIncreasing result.now }
        ensures range { AllByRecursion IsUniverse result.now }
        ensures few { length result.now ≤ CONSOLE_UNIVERSES }
    {
        self.universes.as_slice()
    }

    /// Its cues.
    pub fn cues(&self) -> &CueList
        ensures { result.now ≡ self.now.cues }
    {
        &self.cues
    }

    /// Its patch.
    pub fn patch(&self) -> &Patch
        ensures { result.now ≡ self.now.patch }
    {
        &self.patch
    }

    /// The UDP ports to which its packets are sent, in the file's order: at most `MAX_DESTINATIONS`; a port may stand
    /// twice.
    pub fn send_to(&self) -> &[u16]
        ensures ports { result.now ≡ self.now.send_to }
        ensures few { length result.now ≤ MAX_DESTINATIONS }
    {
        self.send_to.as_slice()
    }
}
