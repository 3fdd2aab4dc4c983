//! Why a reader refuses a file, and whose part of a file a table is.
ghost use Rattle.std.specs.Prelude.{◌≡◌};

use sacn_console::ShowFault;
use sacn_files::faults::{FileFault, TextFault};
use sacn_node::SetupFault;
use sacn_schedule::WorldTextFault;

/// Why the reader of a file refuses it, by the reader's own names.
#[derive(Clone, Copy, PartialEq, Eq)]
pub enum Refusal {
    Show(ShowFault),
    Setup(SetupFault),
    World(WorldTextFault),
    /// Of a script or a schedule.
    Text(TextFault),
}

/// What a table and the tables below it are read as.
#[derive(Clone, Copy)]
pub(crate) enum Owner {
    Show,
    Setup,
    World,
    /// The show of this console of a world.
    Console(usize),
    /// The setup of this node of a world.
    Node(usize),
}

impl Owner {
    /// How this part's reader refuses for a fault that every file may have.
    pub(crate) fn file(self, fault: FileFault) -> Refusal {
        match self {
            Owner::Show | Owner::Console(_) => self.show(show_fault(fault)),
            Owner::Setup | Owner::Node(_) => self.setup(SetupFault::from(fault)),
            Owner::World => Refusal::World(WorldTextFault::from(fault)),
        }
    }

    /// How a show of this owner is refused.
    pub(crate) fn show(self, fault: ShowFault) -> Refusal {
        match self {
            Owner::Console(index) => Refusal::World(WorldTextFault::Console(index, fault)),
            _ => Refusal::Show(fault),
        }
    }

    /// How a setup of this owner is refused.
    pub(crate) fn setup(self, fault: SetupFault) -> Refusal {
        match self {
            Owner::Node(index) => Refusal::World(WorldTextFault::Node(index, fault)),
            _ => Refusal::Setup(fault),
        }
    }
}

fn show_fault(fault: FileFault) -> ShowFault {
    match fault {
        FileFault::OutOfMemory => ShowFault::OutOfMemory,
        FileFault::Toml => ShowFault::Toml,
        FileFault::MissingKey => ShowFault::MissingKey,
        FileFault::UnknownKey => ShowFault::UnknownKey,
        FileFault::KeyValue => ShowFault::KeyValue,
        FileFault::Version => ShowFault::Version,
    }
}
