//! How a source is named.

use sacn_audit::SourceAudit;
use sacn_packets::up_to_nul;
use sacn_tell::{push_decimal, push_name, push_short_cid};
use std::alloc::AllocError;

/// A source: its name, its short CID and its address.
pub(crate) fn push_source(text: &mut String, source: &SourceAudit) -> Result<(), AllocError> {
    push_name(text, up_to_nul(&source.name))?;
    text.push(' ')?;
    push_short_cid(text, &source.cid)?;
    text.push_str(" at ")?;
    push_address(text, source.address)
}

/// An IPv4 address.
pub(crate) fn push_address(text: &mut String, address: [u8; 4]) -> Result<(), AllocError> {
    let [a, b, c, d] = address;
    push_decimal(text, u64::from(a))?;
    for octet in [b, c, d] {
        text.push('.')?;
        push_decimal(text, u64::from(octet))?;
    }
    Ok(())
}

/// For how many milliseconds a source was heard.
pub(crate) fn heard_for(source: &SourceAudit) -> u64 {
    source.moment.saturating_sub(source.first)
}
