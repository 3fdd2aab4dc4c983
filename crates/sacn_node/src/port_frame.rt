//! A port of a node, and the frame of the latest look.
ghost use Rattle.std.specs.Prelude.{◌≡◌, false, Some, None, if◌then◌else◌};
ghost use Rattle.std.specs.Option.{option_map};
ghost use Rattle.sacn_node.specs.Showings.{IsCurrent, is_shown, port_after, with_found};

use crate::answer::NoPort;
use crate::node::NodeCore;
use sacn_packets::FRAME_OCTETS;

/// A port of a node, and its frame at the latest look.
#[derive(Clone, Copy, Default)]
pub struct PortFrame {
    /// The port's number: 1 to 255.
    pub port: u8,
    /// A start code and 512 slots; None before the first look.
    pub last: Option<[u8; FRAME_OCTETS]>,
    /// Whether that is another frame than at the look before.
    pub is_new: bool,
}

impl PortFrame {
    /// The frame, where it is another one than at the look before.
    pub fn news(&self) -> Option<&[u8; FRAME_OCTETS]>
        ensures { option_map (λ f. f.now) result ≡ (if self.now.is_new then self.now.last else None) }
    {
        if self.is_new {
            self.last.as_ref()
        } else {
            None
        }
    }

    /// Looks at the port, whose frame is made only where it may be another one.
    pub(crate) fn look(&mut self, core: &mut NodeCore, may_differ: bool)
        requires current { may_differ ≡ false → IsCurrent core.old self.old }
        ensures port { self.new ≡ port_after core.old self.old }
        ensures core { core.new ≡ core.old }
    {
        if !may_differ {
            self.is_new = false;
            return;
        }
        let mut frame = [0; FRAME_OCTETS];
        match core.frame_now(self.port, &mut frame) {
            Ok(()) => self.set(&frame),
            Err(NoPort) => self.is_new = false,
        }
    }

    /// Notes the frame that a look found.
    fn set(&mut self, frame: &[u8; FRAME_OCTETS])
        ensures { self.new ≡ with_found self.old (Some frame.now) }
    {
        self.is_new = !is_shown(&self.last, frame);
        if self.is_new {
            self.last = Some(*frame);
        }
    }
}

/// Whether this is the frame of the latest look.
#[tactic(auto, unfolding(crate::specs::Showings::same))]
fn is_shown(last: &Option<[u8; FRAME_OCTETS]>, frame: &[u8; FRAME_OCTETS]) -> bool
    ensures { result ≡ is_shown last.now frame.now }
{
    match last {
        Some(last) => last == frame,
        None => false,
    }
}
