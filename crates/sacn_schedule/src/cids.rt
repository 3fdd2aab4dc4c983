//! Consoles of one CID.
ghost use Rattle.std.specs.Prelude.{◌≡◌, ◌↔◌, false};
ghost use Rattle.std.specs.List.{list_any};
ghost use Rattle.std.specs.Str.{bytes_eq};
ghost use Rattle.sacn_schedule.specs.Cids.{same_cid, has_same_cid, HaveOwnCids};

use sacn_console::Show;

fn are_equal(cid: &[u8], other: &[u8]) -> bool
    ensures { result ≡ bytes_eq cid.now other.now }
{
    cid == other
}

fn same_cid(desk: &(Show, u8), other: &(Show, u8)) -> bool
    ensures { result ≡ same_cid desk.now other.now }
{
    are_equal(&desk.0.cid(), &other.0.cid())
}

fn shares_cid(desk: &(Show, u8), others: &[(Show, u8)]) -> bool
    ensures { result ≡ list_any (λ other. same_cid desk.now other) others.now }
{
    others.iter().any(|other| same_cid(desk, other))
}

fn two_share_cid(desks: &[(Show, u8)]) -> bool
    ensures { result ≡ has_same_cid desks.now }
{
    match desks.split_first() {
        Some((first, rest)) => shares_cid(first, rest) || two_share_cid(rest),
        None => false,
    }
}

/// Whether the shows of two consoles have one CID.
#[tactic(auto, using(crate::proofs::OwnCids::own_cids))]
pub fn has_same_cid(desks: &[(Show, u8)]) -> bool
    ensures test { result ≡ has_same_cid desks.now }
    ensures own { (result ≡ false) ↔ HaveOwnCids desks.now }
{
    two_share_cid(desks)
}
