//! What was found of a source's lists of universes.

use sacn_audit::{Breach, SourceAudit};

/// The clause of E1.31-2018 that these rules stand in.
pub(crate) const SECTION: &str = "8";

/// What was found of a source by one rule of its lists of universes, and how that is told.
#[derive(Clone, Copy)]
pub(crate) struct ListFinding {
    /// What breaks the rule.
    pub(crate) words: &'static str,
    /// Whether that is a breach of the clause, and not only told as seen.
    pub(crate) is_breach: bool,
    /// A source that was heard for fewer milliseconds may break it all the time, and it isn't seen.
    pub(crate) least: u64,
    pub(crate) breach: Breach,
}

/// What was found of a source, rule by rule.
pub(crate) fn list_findings(source: &SourceAudit) -> [ListFinding; 3] {
    [
        ListFinding {
            words: "no list of universes for 12 s",
            is_breach: true,
            least: 12_001,
            breach: source.pages.no_list,
        },
        ListFinding {
            words: "a list that lacks a universe it sends",
            is_breach: true,
            least: 10_001,
            breach: source.pages.lacking,
        },
        ListFinding {
            words: "a list with a universe that wasn't heard",
            is_breach: false,
            least: 0,
            breach: source.pages.unheard,
        },
    ]
}
