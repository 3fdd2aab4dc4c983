//! What a request of a browser asks of a desk (HTTP/1.1, RFC 9112).

ghost use Rattle.std.specs.Prelude.{◌≡◌, codes, map, IsTrue, Some, option_copied};
ghost use Rattle.httparse.specs.Borrowed.{header_parts};
ghost use Rattle.sacn_desk_page.specs.Guards.{BeginsOrder, OnOrder, is_order};

use crate::guard::{has_origin, is_order};
use crate::limits::MAX_BODY;
use httparse::{EMPTY_HEADER, Error, Header, Request, Status};
use sacn_page::{Hosts, MAX_FIELDS, MAX_HEAD, has_body, is_own};

/// Why a request isn't answered as it asks.
#[derive(Clone, Copy, PartialEq, Eq)]
pub enum DeskRefusal {
    /// The head isn't one of HTTP or is cut off, or its body isn't a line of printable letters of ASCII.
    Malformed,
    /// It isn't asked of this host by name, or an order comes from elsewhere than its page.
    Foreign,
    /// An order without the key. Its answer waits.
    Keyless,
    /// Nothing is there.
    Missing,
    /// Another method than GET, where it is asked for something.
    NotGet,
    /// Another method than POST, where it orders.
    NotPost,
    /// The length of an order isn't told before it.
    Lengthless,
    /// An order is longer than `MAX_BODY` octets.
    TooLong,
    /// The head is longer than `MAX_HEAD` octets, or has more than `MAX_FIELDS` fields.
    TooLarge,
    /// There is no room for a further connection, or a further order.
    Busy,
    /// The desk ends, and doesn't obey the order.
    Ending,
    /// Another version than HTTP/1.0 and HTTP/1.1.
    Version,
}

/// What is known of a request, of which so much came.
#[derive(Clone, Copy, PartialEq, Eq)]
pub enum DeskRequest {
    /// It isn't complete yet.
    More,
    /// The page: `/`, whatever its query says.
    Page,
    /// What runs: `/state`.
    State,
    /// The cues of the show: `/cues`.
    Cues,
    /// An order, which stands in these octets from one place to another: `/order`.
    Order(usize, usize),
    Refused(DeskRefusal),
}

/// What the octets ask that came of a request so far, of a desk of these names and with this key. They are read as an order only where they
/// begin with the whole head of one.
pub fn read_request(octets: &[u8], hosts: &Hosts, key: &[u8]) -> DeskRequest
    ensures { OnOrder result (BeginsOrder hosts.now key.now octets.now) }
{
    let mut fields = [EMPTY_HEADER; MAX_FIELDS];
    let mut request = Request::new(&mut fields);
    match request.parse(octets) {
        Ok(Status::Complete(len)) => {
            if len > MAX_HEAD {
                return DeskRequest::Refused(DeskRefusal::TooLarge);
            }
            let body = Body {
                octets: &octets[len.min(octets.len())..],
                begin: len,
            };
            asked_by(&request, &body, hosts, key)
        }
        Ok(Status::Partial) => {
            if octets.len() >= MAX_HEAD {
                return DeskRequest::Refused(DeskRefusal::TooLarge);
            }
            DeskRequest::More
        }
        Err(Error::TooManyHeaders) => DeskRequest::Refused(DeskRefusal::TooLarge),
        Err(Error::Version) => DeskRequest::Refused(DeskRefusal::Version),
        Err(_) => DeskRequest::Refused(DeskRefusal::Malformed),
    }
}

/// What came behind a head.
#[derive(Clone, Copy)]
struct Body<'b> {
    octets: &'b [u8],
    /// Its place among all.
    begin: usize,
}

// What a whole head asks for.
fn asked_by(request: &Request<'_, '_>, body: &Body<'_>, hosts: &Hosts, key: &[u8]) -> DeskRequest
    ensures method { OnOrder result (option_copied request.now.method ≡ Some (codes "POST")) }
    ensures order { OnOrder result (IsTrue (is_order hosts.now key.now (codes "POST")
        (map header_parts request.now.headers.now))) }
{
    let fields: &[Header<'_>] = request.headers;
    if !is_own(fields, hosts) {
        return DeskRequest::Refused(DeskRefusal::Foreign);
    }
    match request.path {
        Some("/order") => order_asked(request.method, fields, body, hosts, key),
        Some(path) => question_asked(request.method, fields, path),
        None => DeskRequest::Refused(DeskRefusal::Malformed),
    }
}

// What is asked for at a path that takes no order.
fn question_asked(method: Option<&str>, fields: &[Header<'_>], path: &str) -> DeskRequest
    ensures { OnOrder result ⊥ }
{
    let Some(asked) = asked_at(path) else {
        return DeskRequest::Refused(DeskRefusal::Missing);
    };
    match method {
        Some("GET") => {}
        _ => return DeskRequest::Refused(DeskRefusal::NotGet),
    }
    if has_body(fields) {
        return DeskRequest::Refused(DeskRefusal::Malformed);
    }
    match asked {
        Question::Page => DeskRequest::Page,
        Question::State => DeskRequest::State,
        Question::Cues => DeskRequest::Cues,
    }
}

/// What can be asked for.
#[derive(Clone, Copy)]
enum Question {
    Page,
    State,
    Cues,
}

// The order that a request is.
fn order_asked(
    method: Option<&str>,
    fields: &[Header<'_>],
    body: &Body<'_>,
    hosts: &Hosts,
    key: &[u8],
) -> DeskRequest
    ensures method { OnOrder result (option_copied method.entry ≡ Some (codes "POST")) }
    ensures order { OnOrder result (IsTrue (is_order hosts.now key.now (codes "POST")
        (map header_parts fields.now))) }
{
    match method {
        Some("POST") => {}
        _ => return DeskRequest::Refused(DeskRefusal::NotPost),
    }
    // (the key of a request from elsewhere isn't looked at)
    if !has_origin(fields) {
        return DeskRequest::Refused(DeskRefusal::Foreign);
    }
    if !is_order("POST", fields, hosts, key) {
        return DeskRequest::Refused(DeskRefusal::Keyless);
    }
    match body_len(fields) {
        Ok(len) => order_in(body, len),
        Err(refusal) => DeskRequest::Refused(refusal),
    }
}

// What is asked for at a path.
fn asked_at(path: &str) -> Option<Question> {
    let path = match path.split_once('?') {
        Some((path, _)) => path,
        None => path,
    };
    match path {
        "/" => Some(Question::Page),
        "/state" => Some(Question::State),
        "/cues" => Some(Question::Cues),
        _ => None,
    }
}

// An order of so many octets, of which these came.
fn order_in(body: &Body<'_>, len: usize) -> DeskRequest {
    if body.octets.len() < len {
        return DeskRequest::More;
    }
    let line = trimmed(&body.octets[..len]);
    if line.is_empty() || !line.iter().all(is_printable) {
        return DeskRequest::Refused(DeskRefusal::Malformed);
    }
    DeskRequest::Order(body.begin, body.begin.saturating_add(line.len()))
}

// A line without its end.
fn trimmed(line: &[u8]) -> &[u8] {
    let line = line.strip_suffix(b"\n".as_slice()).unwrap_or(line);
    line.strip_suffix(b"\r".as_slice()).unwrap_or(line)
}

fn is_printable(octet: &u8) -> bool {
    (*octet >= b' ') & (*octet <= b'~')
}

// The length that a head tells of its body: one number of digits alone.
fn body_len(fields: &[Header<'_>]) -> Result<usize, DeskRefusal> {
    let mut told: Option<usize> = None;
    for field in fields {
        if field.name.eq_ignore_ascii_case("transfer-encoding") {
            return Err(DeskRefusal::Lengthless);
        }
        if field.name.eq_ignore_ascii_case("content-length") {
            if told.is_some() {
                return Err(DeskRefusal::Malformed);
            }
            told = Some(number_in(field.value)?);
        }
    }
    match told {
        Some(len) if len <= MAX_BODY => Ok(len),
        Some(_) => Err(DeskRefusal::TooLong),
        None => Err(DeskRefusal::Lengthless),
    }
}

// The number that digits spell; of a greater one than `usize` has, its greatest.
fn number_in(digits: &[u8]) -> Result<usize, DeskRefusal> {
    if digits.is_empty() {
        return Err(DeskRefusal::Malformed);
    }
    let mut number: usize = 0;
    for digit in digits {
        if !digit.is_ascii_digit() {
            return Err(DeskRefusal::Malformed);
        }
        let next = usize::from(digit.saturating_sub(b'0'));
        number = number.saturating_mul(10).saturating_add(next);
    }
    Ok(number)
}
