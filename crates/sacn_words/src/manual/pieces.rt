//! Pieces of a text, of which the foreign ones are escaped.

ghost use Rattle.std.specs.Prelude.{◌≡◌, ◌++◌, OnOk};
ghost use Rattle.sacn_words.specs.Syntaxes.{written, octet_text, words_text, piece_text, pieces_text};

use crate::manual::syntax::{Syntax, escape};
use std::alloc::{AllocError, Global};

const COMMA: u8 = b',';

/// A piece of a text.
#[derive(Clone, Copy)]
pub enum Piece<'a> {
    /// Of the text's own language, as it is.
    Raw(&'a str),
    /// Of a text that says something, escaped.
    Text(&'a str),
    /// Words with a comma and a space between them, without the commas.
    Words(&'a str),
}

fn push_octet(text: &mut Vec<u8>, syntax: Syntax, octet: u8) -> Result<(), AllocError>
    ensures { OnOk result (text.new.items ≡ text.old.items ++ octet_text syntax octet) }
{
    match escape(syntax, octet) {
        Some(word) => text.extend_from_slice(word.as_bytes())?,
        None => text.push(octet)?,
    }
    Ok(())
}

fn push_escaped(text: &mut Vec<u8>, syntax: Syntax, foreign: &[u8]) -> Result<(), AllocError>
    ensures { OnOk result (text.new.items ≡ text.old.items ++ written syntax foreign.now) }
{
    for i in 0..foreign.len() {
        push_octet(text, syntax, foreign[i])?;
    }
    Ok(())
}

fn push_words(text: &mut Vec<u8>, words: &[u8]) -> Result<(), AllocError>
    ensures { OnOk result (text.new.items ≡ text.old.items ++ words_text words.now) }
{
    for i in 0..words.len() {
        if words[i] != COMMA {
            text.push(words[i])?;
        }
    }
    Ok(())
}

fn push_piece(text: &mut Vec<u8>, syntax: Syntax, piece: Piece<'_>) -> Result<(), AllocError>
    ensures { OnOk result (text.new.items ≡ text.old.items ++ piece_text syntax piece.entry) }
{
    match piece {
        Piece::Raw(own) => text.extend_from_slice(own.as_bytes()),
        Piece::Text(foreign) => push_escaped(text, syntax, foreign.as_bytes()),
        Piece::Words(words) => push_words(text, words.as_bytes()),
    }
}

/// Writes pieces one after another.
///
/// Errors: a growth was refused.
pub fn push_all(text: &mut Vec<u8>, syntax: Syntax, pieces: &[Piece<'_>]) -> Result<(), AllocError>
    ensures { OnOk result (text.new.items ≡ text.old.items ++ pieces_text syntax pieces.now) }
{
    for i in 0..pieces.len() {
        push_piece(text, syntax, pieces[i])?;
    }
    Ok(())
}

/// The text of pieces.
///
/// Errors: a growth was refused.
pub fn join(alloc: Global, syntax: Syntax, pieces: &[Piece<'_>]) -> Result<Vec<u8>, AllocError> {
    let mut text = Vec::new(alloc);
    push_all(&mut text, syntax, pieces)?;
    Ok(text)
}
