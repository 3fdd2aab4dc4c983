//! What was found of one rule at one source.

ghost use Rattle.std.specs.Prelude.{◌≡◌, ◌+◌, ◌^◌, ◌-◌, min};
ghost use Rattle.sacn_findings.specs.Totals.{joined, times_in, times_on};

use sacn_audit::{AuditedStream, Breach, Rule};
use std::alloc::{AllocError, Global};

/// How often a source broke a rule on all its universes, at most 2^64 - 1 times, and when first and last.
pub fn total_of(streams: &[AuditedStream], cid: &[u8; 16], rule: Rule) -> Breach
    ensures { result.times ≡ min (times_on cid.now rule streams.now) (2 ^ 64 - 1) }
{
    let mut total = Breach::none();
    for stream in streams {
        total = with_stream(total, stream, cid, rule);
    }
    total
}

// With one stream more.
fn with_stream(total: Breach, stream: &AuditedStream, cid: &[u8; 16], rule: Rule) -> Breach
    ensures { result.times ≡ min (total.times + times_in cid.now rule stream.now) (2 ^ 64 - 1) }
{
    if stream.cid == *cid {
        joined(total, stream.audit.breach_of(rule))
    } else {
        total
    }
}

/// Two breaches as one.
pub(crate) fn joined(total: Breach, more: Breach) -> Breach
    ensures whole { result ≡ joined total more }
    ensures times { result.times ≡ min (total.times + more.times) (2 ^ 64 - 1) }
{
    if more.times == 0 {
        return total;
    }
    if total.times == 0 {
        return more;
    }
    Breach {
        times: total.times.saturating_add(more.times),
        first: total.first.min(more.first),
        latest: total.latest.max(more.latest),
    }
}

/// The universes on which a source broke a rule, ascending.
///
/// Errors: a growth was refused.
pub(crate) fn universes_of(
    alloc: Global,
    streams: &[AuditedStream],
    cid: &[u8; 16],
    rule: Rule,
) -> Result<Vec<u16>, AllocError> {
    let mut universes = Vec::new(alloc);
    for stream in streams {
        if stream.cid == *cid && stream.audit.breach_of(rule).times > 0 {
            universes.push(stream.universe)?;
        }
    }
    universes.sort_unstable();
    Ok(universes)
}

/// The universes whose streams a source has ended so far with fewer than three packets, ascending.
///
/// Errors: a growth was refused.
pub(crate) fn short_ends_of(
    alloc: Global,
    streams: &[AuditedStream],
    cid: &[u8; 16],
) -> Result<Vec<u16>, AllocError> {
    let mut universes = Vec::new(alloc);
    for stream in streams {
        if stream.cid == *cid && stream.audit.is_short_end() {
            universes.push(stream.universe)?;
        }
    }
    universes.sort_unstable();
    Ok(universes)
}
