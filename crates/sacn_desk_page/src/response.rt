//! Answers to requests (HTTP/1.1, RFC 9112). Each ends its connection.

use crate::request::DeskRefusal;
use std::alloc::AllocError;
use std::fmt::Write;

/// What a page of this server may do in a browser: its own style and script, and questions and orders to this server alone; and no page has it
/// in a frame.
const POLICY: &str =
    "default-src 'none'; style-src 'unsafe-inline'; script-src 'unsafe-inline'; connect-src 'self'; img-src data:; base-uri 'none'; form-action 'none'; frame-ancestors 'none'";

/// What an answer is, by its media type (RFC 9110, 8.3.1).
#[derive(Clone, Copy)]
pub(crate) enum MediaType {
    Page,
    Json,
    Text,
}

impl MediaType {
    fn name(self) -> &'static str {
        match self {
            MediaType::Page => "text/html; charset=utf-8",
            MediaType::Json => "application/json",
            MediaType::Text => "text/plain; charset=utf-8",
        }
    }
}

impl DeskRefusal {
    /// The status of the answer (RFC 9110, 15; RFC 6585, 5).
    pub fn status(self) -> u16 {
        match self {
            DeskRefusal::Malformed => 400,
            DeskRefusal::Foreign => 403,
            DeskRefusal::Keyless => 403,
            DeskRefusal::Missing => 404,
            DeskRefusal::NotGet => 405,
            DeskRefusal::NotPost => 405,
            DeskRefusal::Lengthless => 411,
            DeskRefusal::TooLong => 413,
            DeskRefusal::TooLarge => 431,
            DeskRefusal::Busy => 503,
            DeskRefusal::Ending => 503,
            DeskRefusal::Version => 505,
        }
    }

    // The phrase beside it.
    fn reason(self) -> &'static str {
        match self {
            DeskRefusal::Malformed => "Bad Request",
            DeskRefusal::Foreign => "Forbidden",
            DeskRefusal::Keyless => "Forbidden",
            DeskRefusal::Missing => "Not Found",
            DeskRefusal::NotGet => "Method Not Allowed",
            DeskRefusal::NotPost => "Method Not Allowed",
            DeskRefusal::Lengthless => "Length Required",
            DeskRefusal::TooLong => "Content Too Large",
            DeskRefusal::TooLarge => "Request Header Fields Too Large",
            DeskRefusal::Busy => "Service Unavailable",
            DeskRefusal::Ending => "Service Unavailable",
            DeskRefusal::Version => "HTTP Version Not Supported",
        }
    }

    // What a person reads.
    fn explanation(self) -> &'static str {
        match self {
            DeskRefusal::Malformed => "The request can't be read.\n",
            DeskRefusal::Foreign => "This isn't the name of this server, or not its page.\n",
            DeskRefusal::Keyless => "This isn't the key.\n",
            DeskRefusal::Missing => "There is /, /state, /cues and /order.\n",
            DeskRefusal::NotGet => "Only GET is taken here.\n",
            DeskRefusal::NotPost => "An order is a POST.\n",
            DeskRefusal::Lengthless => "The length of an order stands before it.\n",
            DeskRefusal::TooLong => "An order has at most 512 octets.\n",
            DeskRefusal::TooLarge => "The head of the request is too large.\n",
            DeskRefusal::Busy => "There is no room for a further order or connection.\n",
            DeskRefusal::Ending => "The desk ends, and didn't obey this order.\n",
            DeskRefusal::Version => "Only HTTP/1.0 and HTTP/1.1 are spoken.\n",
        }
    }

    // A field of its own.
    fn field(self) -> &'static str {
        match self {
            DeskRefusal::NotGet => "Allow: GET\r\n",
            DeskRefusal::NotPost => "Allow: POST\r\n",
            DeskRefusal::Busy => "Retry-After: 1\r\n",
            _ => "",
        }
    }
}

// The front of a head.
fn push_head(
    text: &mut String,
    status: u16,
    reason: &str,
    media_type: MediaType,
) -> Result<(), AllocError> {
    let name = media_type.name();
    write!(text, "HTTP/1.1 {status} {reason}\r\n")?;
    write!(text, "Content-Type: {name}\r\n")?;
    text.push_str("Connection: close\r\n")?;
    text.push_str("Cache-Control: no-store\r\n")?;
    text.push_str("X-Content-Type-Options: nosniff\r\n")?;
    text.push_str("Referrer-Policy: no-referrer\r\n")?;
    write!(text, "Content-Security-Policy: {POLICY}\r\n")?;
    Ok(())
}

// The end of a head, and the body.
fn push_body(text: &mut String, body: &str) -> Result<(), AllocError> {
    let len = body.len();
    write!(text, "Content-Length: {len}\r\n\r\n")?;
    text.push_str(body)
}

/// Writes an answer with this body.
///
/// Errors: a growth was refused.
pub fn push_answer(text: &mut String, media_type: MediaType, body: &str) -> Result<(), AllocError> {
    push_head(text, 200, "OK", media_type)?;
    push_body(text, body)
}

/// Writes the answer to a request that is refused.
///
/// Errors: a growth was refused.
pub fn push_refusal(text: &mut String, refusal: DeskRefusal) -> Result<(), AllocError> {
    push_head(text, refusal.status(), refusal.reason(), MediaType::Text)?;
    text.push_str(refusal.field())?;
    push_body(text, refusal.explanation())
}
