//! Which requests are orders: the only door to a desk.

ghost use Rattle.std.specs.Prelude.{◌≡◌, ◌<◌, count_by, codes, map};
ghost use Rattle.std.specs.List.{list_all};
ghost use Rattle.std.specs.Str.{bytes_eq};
ghost use Rattle.httparse.specs.Borrowed.{header_parts};
ghost use Rattle.sacn_page.specs.Requests.{is_word};
ghost use Rattle.sacn_desk_page.specs.Guards.{has_one, is_named, is_order, is_origin, says};

use httparse::Header;
use sacn_page::{Hosts, is_own, is_word};

/// What stands before the host in an origin of HTTP.
const SCHEME: &str = "http://";

/// Whether a request of this method and with these fields is an order to the desk of these names that has this key: a POST to one of the
/// names, from a page of that very name, with the key. Each of the three fields stands there once.
pub fn is_order(method: &str, fields: &[Header<'_>], hosts: &Hosts, key: &[u8]) -> bool
    ensures { result ≡ is_order hosts.now key.now method.now (map header_parts fields.now) }
{
    let is_asked = (method == "POST") & is_own(fields, hosts);
    is_asked & (has_origin(fields) & has_key(fields, key))
}

/// Whether there is one Origin field, and it says the very host that the one Host field says.
#[tactic(auto, using(crate::proofs::Fields::one_is))]
pub fn has_origin(fields: &[Header<'_>]) -> bool
    ensures { result ≡ has_one (codes "origin") (λ v. is_origin (map header_parts fields.now) v)
        (map header_parts fields.now) }
{
    (count_named("origin", fields) == 1) & all_say_origin(fields, fields)
}

// Whether these fields that are one say the host that is asked by all.
fn all_say_origin<'h>(fields: &[Header<'h>], all: &[Header<'h>]) -> bool
    ensures { result ≡ list_all
        (λ f. says (codes "origin") (λ v. is_origin (map header_parts all.now) v) (header_parts f)) fields.now }
{
    fields.iter().all(|field| says_origin(field, all))
}

// Whether a field says the host that is asked by all, if it is that field.
fn says_origin<'h>(field: &Header<'h>, all: &[Header<'h>]) -> bool
    ensures { result ≡ says (codes "origin") (λ v. is_origin (map header_parts all.now) v)
        (header_parts field.now) }
{
    !is_named("origin", field) | is_origin(field.value, all)
}

// Whether there is one X-Key field, and it says the key.
#[tactic(auto, using(crate::proofs::Fields::one_is))]
fn has_key(fields: &[Header<'_>], key: &[u8]) -> bool
    ensures { result ≡ has_one (codes "x-key") (λ v. bytes_eq key.now v) (map header_parts fields.now) }
{
    (count_named("x-key", fields) == 1) & all_say_key(fields, key)
}

fn all_say_key(fields: &[Header<'_>], key: &[u8]) -> bool
    ensures { result ≡ list_all (λ f. says (codes "x-key") (λ v. bytes_eq key.now v) (header_parts f)) fields.now }
{
    fields.iter().all(|field| says_key(field, key))
}

// Whether a field says one of these, if it is that field.
fn says_key(field: &Header<'_>, key: &[u8]) -> bool
    ensures { result ≡ says (codes "x-key") (λ v. bytes_eq key.now v) (header_parts field.now) }
{
    !is_named("x-key", field) | is_key(key, field.value)
}

fn count_named(name: &str, fields: &[Header<'_>]) -> usize
    ensures { result ≡ count_by (λ f. is_named name.now (header_parts f)) fields.now }
{
    fields.iter().filter(|field| is_named(name, field)).count()
}

fn is_named(name: &str, field: &Header<'_>) -> bool
    ensures { result ≡ is_named name.now (header_parts field.now) }
{
    is_word(name.as_bytes(), field.name.as_bytes())
}

// Whether an origin is the host that these fields ask.
fn is_origin(text: &[u8], fields: &[Header<'_>]) -> bool
    ensures { result ≡ is_origin (map header_parts fields.now) text.now }
{
    let (scheme, host) = text.split_at(text.len().min(SCHEME.len()));
    (scheme == SCHEME.as_bytes()) & asks_host(fields, host)
}

// Whether there is one Host field, and it says this host, in letters of either case.
#[tactic(auto, using(crate::proofs::Fields::one_is))]
fn asks_host(fields: &[Header<'_>], host: &[u8]) -> bool
    ensures { result ≡ has_one (codes "host") (λ v. is_word v host.now) (map header_parts fields.now) }
{
    (count_named("host", fields) == 1) & all_ask_host(fields, host)
}

fn all_ask_host(fields: &[Header<'_>], host: &[u8]) -> bool
    ensures { result ≡ list_all (λ f. says (codes "host") (λ v. is_word v host.now) (header_parts f)) fields.now }
{
    fields.iter().all(|field| asks_this(field, host))
}

// Whether a field says this host, if it is that field.
fn asks_this(field: &Header<'_>, host: &[u8]) -> bool
    ensures { result ≡ says (codes "host") (λ v. is_word v host.now) (header_parts field.now) }
{
    !is_named("host", field) | is_word(field.value, host)
}

// Whether a word is the key. Each letter is compared, whichever differs first, so that the time that this takes doesn't tell.
fn is_key(key: &[u8], word: &[u8]) -> bool
    ensures { result ≡ bytes_eq key.now word.now }
{
    let mut is_same = true;
    for place in 0..key.len().min(word.len()) {
        is_same = is_same & (key[place] == word[place]);
    }
    is_same & (key.len() == word.len())
}
