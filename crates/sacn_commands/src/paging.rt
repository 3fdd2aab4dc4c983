//! A page that orders a desk, and where pages are said.
use crate::ending::{Ending, REFUSED};
use crate::files::text_of_file;
use crate::live::of_socket;
use crate::naming::of_file;
use sacn_console::Show;
use sacn_desk::Postbox;
use sacn_desk_page::ServedDesk;
use sacn_words::{DeskAsked, DeskKeyAsked, is_key};
use std::io::Write;
use std::net::{Net, SocketAddrV4};
use std::rt::Files;

/// Says where a page is served.
pub fn say_page<E: Write>(place: SocketAddrV4, err: &mut E) {
    let [a, b, c, d] = place.ip().octets();
    let _ = writeln!(err, "page http://{a}.{b}.{c}.{d}:{}/", place.port());
}

/// The page that orders a desk, where one is asked; it has its place.
pub(crate) fn served_of<R: AllocGlobal + Files + Net, E: Write>(
    rt: &R,
    asked: &DeskAsked<'_>,
    show: &Show,
    err: &mut E,
) -> Result<Option<ServedDesk>, Ending> {
    let Some(page) = asked.page else {
        return Ok(None);
    };
    let key = key_of(rt, page.key, err)?;
    let bound = ServedDesk::bind(rt, rt.alloc(), page.place, show, key.as_str());
    Ok(Some(of_socket(bound, page.place, err)?))
}

// The key of a page. That of a file is what stands in it, but for space at its end.
fn key_of<R: AllocGlobal + Files, E: Write>(
    rt: &R,
    key: DeskKeyAsked<'_>,
    err: &mut E,
) -> Result<String, Ending> {
    let path = match key {
        DeskKeyAsked::Word(word) => return Ok(String::from_str(rt.alloc(), word)?),
        DeskKeyAsked::File(path) => path,
    };
    let text = of_file(text_of_file(rt, path), path, err)?;
    let word = text.as_str().trim_end();
    if !is_key(word) {
        let _ = writeln!(err, "refused {path} Key");
        return Err(Ending::Said(REFUSED));
    }
    Ok(String::from_str(rt.alloc(), word)?)
}

/// What a page posts its orders in.
pub(crate) fn postbox_of(served: Option<&ServedDesk>) -> Option<&Postbox> {
    match served {
        Some(served) => Some(served.postbox()),
        None => None,
    }
}
