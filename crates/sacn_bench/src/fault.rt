//! Why a workload isn't done.
use sacn_check::ReportFault;
use sacn_console::ShowFault;
use sacn_node::SetupFault;
use sacn_sources::TableFault;
use sacn_tell::ExplainFault;
use sacn_text::SimFault;
use std::alloc::AllocError;
use thiserror::Error;

/// Why a workload isn't done: each is a fault of the workload itself, or of the machine.
#[derive(Debug, Drop, Error)]
pub enum WorkFault {
    #[error("out of memory")]
    OutOfMemory,
    #[error("there is no such workload, or its seed or its rounds are no numbers")]
    Words,
    #[error("a file of no kind")]
    NoKind,
    #[error("a recording: {0}")]
    Recording(ExplainFault),
    #[error("a simulation: {0}")]
    Simulation(SimFault),
    #[error("a show: {0}")]
    Show(ShowFault),
    #[error("a setup: {0}")]
    Setup(SetupFault),
    #[error("a report: {0}")]
    Report(ReportFault),
}

impl From<AllocError> for WorkFault {
    fn from(_fault: AllocError) -> Self {
        WorkFault::OutOfMemory
    }
}

impl From<TableFault> for WorkFault {
    fn from(_fault: TableFault) -> Self {
        WorkFault::OutOfMemory
    }
}

impl From<ExplainFault> for WorkFault {
    fn from(fault: ExplainFault) -> Self {
        WorkFault::Recording(fault)
    }
}

impl From<SimFault> for WorkFault {
    fn from(fault: SimFault) -> Self {
        WorkFault::Simulation(fault)
    }
}

impl From<ShowFault> for WorkFault {
    fn from(fault: ShowFault) -> Self {
        WorkFault::Show(fault)
    }
}

impl From<SetupFault> for WorkFault {
    fn from(fault: SetupFault) -> Self {
        WorkFault::Setup(fault)
    }
}

impl From<ReportFault> for WorkFault {
    fn from(fault: ReportFault) -> Self {
        WorkFault::Report(fault)
    }
}
