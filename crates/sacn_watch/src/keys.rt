//! The keys of a terminal, and the octets that it sends for them.

ghost use Rattle.std.specs.Prelude.{◌≡◌};
ghost use Rattle.sacn_watch.specs.Keys.{plain_key, final_key, begins_sequence, is_parameter, is_final, key_of, awaited_behind, awaited_after};
ghost use Rattle.sacn_watch.specs.declared.keys.Awaited.TheVariants.{AnyKey};

use sacn_machine::{MAX_KEYS, Typed};

/// A key.
#[derive(Clone, Copy, PartialEq, Eq)]
pub enum Key {
    Left,
    Right,
    Up,
    Down,
    /// 0 to 9.
    Digit(u8),
    Enter,
    Escape,
    Backspace,
    /// Any other one that ASCII shows, by its octet.
    Letter(u8),
}

/// What may come next of the octets of keys.
#[derive(Clone, Copy, PartialEq, Eq)]
pub enum Awaited {
    /// A key.
    AnyKey,
    /// ESC came: a key, or `[` or `O`, which begin a sequence.
    Bracket,
    /// A parameter of a sequence, or its last octet.
    Final,
}

/// Makes keys of the octets that a terminal sends for them, which may come in pieces. Sequences that are no arrow's are passed over.
#[derive(Clone, Copy, Drop)]
pub struct Decoder {
    awaited: Awaited,
}

impl Decoder {
    /// Nothing came yet.
    pub fn new() -> Self
        ensures { result.awaited ≡ AnyKey }
    {
        Decoder {
            awaited: Awaited::AnyKey,
        }
    }

    /// The key that the next octet is or ends, where it does.
    pub fn take(&mut self, octet: u8) -> Option<Key>
        ensures key { result ≡ key_of self.old.awaited octet }
        ensures awaited { self.new.awaited ≡ awaited_after self.old.awaited octet }
    {
        let awaited = self.awaited;
        self.awaited = awaited_after(awaited, octet);
        key_of(awaited, octet)
    }
}

fn key_of(awaited: Awaited, octet: u8) -> Option<Key>
    ensures { result ≡ key_of awaited octet }
{
    match awaited {
        Awaited::AnyKey => plain_key(octet),
        Awaited::Bracket => {
            if begins_sequence(octet) {
                None
            } else {
                plain_key(octet)
            }
        }
        Awaited::Final => {
            if is_parameter(octet) {
                None
            } else if is_final(octet) {
                final_key(octet)
            } else {
                plain_key(octet)
            }
        }
    }
}

fn awaited_after(awaited: Awaited, octet: u8) -> Awaited
    ensures { result ≡ awaited_after awaited octet }
{
    match awaited {
        Awaited::AnyKey => awaited_behind(octet),
        Awaited::Bracket => {
            if begins_sequence(octet) {
                Awaited::Final
            } else {
                awaited_behind(octet)
            }
        }
        Awaited::Final => {
            if is_parameter(octet) {
                Awaited::Final
            } else {
                awaited_behind(octet)
            }
        }
    }
}

fn plain_key(octet: u8) -> Option<Key>
    ensures { result ≡ plain_key octet }
{
    if octet == 27 {
        Some(Key::Escape)
    } else if (octet == 10) | (octet == 13) {
        Some(Key::Enter)
    } else if (octet == 8) | (octet == 127) {
        Some(Key::Backspace)
    } else if (48 <= octet) & (octet <= 57) {
        Some(Key::Digit(octet - 48))
    } else if (33 <= octet) & (octet <= 126) {
        Some(Key::Letter(octet))
    } else {
        None
    }
}

fn final_key(octet: u8) -> Option<Key>
    ensures { result ≡ final_key octet }
{
    if octet == 65 {
        Some(Key::Up)
    } else if octet == 66 {
        Some(Key::Down)
    } else if octet == 67 {
        Some(Key::Right)
    } else if octet == 68 {
        Some(Key::Left)
    } else {
        None
    }
}

fn begins_sequence(octet: u8) -> bool
    ensures { result ≡ begins_sequence octet }
{
    (octet == 91) | (octet == 79)
}

fn is_parameter(octet: u8) -> bool
    ensures { result ≡ is_parameter octet }
{
    (32 <= octet) & (octet <= 63)
}

fn is_final(octet: u8) -> bool
    ensures { result ≡ is_final octet }
{
    (64 <= octet) & (octet <= 126)
}

fn awaited_behind(octet: u8) -> Awaited
    ensures { result ≡ awaited_behind octet }
{
    if octet == 27 {
        Awaited::Bracket
    } else {
        Awaited::AnyKey
    }
}

/// What keys come from.
pub trait Keyboard {
    /// Reads the octets of keys that are there, as many as there is room for. It never waits.
    fn read(&mut self, octets: &mut [u8; MAX_KEYS]) -> Typed;

    /// Whether keys may come.
    fn is_open(&self) -> bool;

    /// Whether a key may end what is watched.
    fn may_leave(&self) -> bool;

    /// Ends it, where a key may.
    fn leave(&mut self);
}
