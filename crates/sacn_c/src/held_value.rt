//! What a handle stands for.
use sacn_console::ConsoleCore;
use sacn_discovery::Collector;
use sacn_monitor::Monitor;
use sacn_node::NodeCore;
use sacn_source::SourceCore;
use sacn_sources::SourceTable;

/// What a handle stands for.
#[derive(Drop)]
pub enum Held {
    /// A node.
    Node(NodeCore),
    /// A console.
    Console(ConsoleCore),
    /// The sources of one universe.
    Sources(SourceTable),
    /// A collector of universe discovery.
    Collector(Collector),
    /// What is heard on a network.
    Monitor(Monitor),
    /// A source that a program hands levels.
    Source(SourceCore),
}
