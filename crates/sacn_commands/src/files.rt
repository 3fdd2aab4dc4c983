//! The files that the words name.
use crate::ending::Ending;
use crate::naming::of_named;
use sacn_text::{MAX_FILE_OCTETS, read_limited};
use sacn_words::STANDARD_INPUT;
use std::alloc::Alloc;
use std::fs;
use std::io::{Read, Write};
use std::rt::Files;

/// The octets of a file.
pub fn octets_of_file<R: AllocGlobal + Files>(rt: &R, path: &str) -> Result<Vec<u8>, Ending> {
    let Ok(file) = fs::open(rt, path) else {
        return Err(Ending::DeviceRead);
    };
    Ok(read_limited(rt.alloc(), file, MAX_FILE_OCTETS)?)
}

/// The octets of a file, or those of standard input where the word stands for it.
pub fn octets_of_word<R: AllocGlobal + Files, I: Read + Drop>(
    rt: &R,
    word: &str,
    input: &mut I,
) -> Result<Vec<u8>, Ending> {
    if word == STANDARD_INPUT {
        return Ok(read_limited(rt.alloc(), &mut *input, MAX_FILE_OCTETS)?);
    }
    octets_of_file(rt, word)
}

/// The octets of all files, in their order. One that can't be read is said with its name.
pub fn octets_of_words<R: AllocGlobal + Files, I: Read + Drop, E: Write>(
    rt: &R,
    words: &[&str],
    input: &mut I,
    err: &mut E,
) -> Result<Vec<Vec<u8>>, Ending> {
    let mut files = Vec::with_capacity(rt.alloc(), words.len())?;
    for word in words {
        let octets = of_named(octets_of_word(rt, word, input), word, err)?;
        files.push(octets)?;
    }
    Ok(files)
}

fn text_of_octets(octets: Vec<u8>) -> Result<String, Ending> {
    match String::from_utf8(octets) {
        Ok(text) => Ok(text),
        Err(_) => Err(Ending::NotText),
    }
}

/// The text of a file.
pub fn text_of_file<R: AllocGlobal + Files>(rt: &R, path: &str) -> Result<String, Ending> {
    text_of_octets(octets_of_file(rt, path)?)
}

/// The text of a file, or that of standard input where the word stands for it.
pub fn text_of_word<R: AllocGlobal + Files, I: Read + Drop>(
    rt: &R,
    word: &str,
    input: &mut I,
) -> Result<String, Ending> {
    text_of_octets(octets_of_word(rt, word, input)?)
}
