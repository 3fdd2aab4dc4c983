//! Sources that have the name of another source.

ghost use Rattle.std.specs.Prelude.{◌≡◌};
ghost use Rattle.sacn_findings.specs.Names.{is_namesake, namesake_at, spans_meet};

use sacn_audit::SourceAudit;
use sacn_packets::up_to_nul;

/// How it is told.
pub(crate) const WORDS: &str = "the name of another source too";

/// The clause of E1.31-2018 on names. It lets two sources have one.
pub(crate) const SECTION: &str = "6.2.2";

/// The place of the first source of another CID that has the name of this one, octet by octet up to the first NUL, while both were heard: the
/// spans from the first to the latest moment of each meet. An empty name is no other's.
pub fn namesake_at(source: &SourceAudit, sources: &[SourceAudit]) -> Option<usize>
    ensures { result ≡ namesake_at source.now sources.now }
{
    sources.iter().position(|other| is_namesake(source, other))
}

fn is_namesake(source: &SourceAudit, other: &SourceAudit) -> bool
    ensures { result ≡ is_namesake source.now other.now }
{
    let name = up_to_nul(&source.name);
    source.cid != other.cid
        && !name.is_empty()
        && name == up_to_nul(&other.name)
        && spans_meet(source, other)
}

fn spans_meet(source: &SourceAudit, other: &SourceAudit) -> bool
    ensures { result ≡ spans_meet source.now other.now }
{
    source.first <= other.moment && other.first <= source.moment
}
