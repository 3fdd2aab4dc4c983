//! The texts that are made, and what must be escaped in each.

ghost use Rattle.std.specs.Prelude.{◌≡◌};
ghost use Rattle.std.specs.Option.{option_map};
ghost use Rattle.sacn_words.specs.Syntaxes.{mark, escape, roff_escape, bash_escape, zsh_escape, fish_escape};

use crate::manual::tree::Spelling;

/// The shells that completions are made for.
pub const SHELLS: &[&str] = &["bash", "zsh", "fish"];

/// The same, with a comma and a space between them.
pub const SHELL_WORDS: &str = "bash, zsh, fish";

/// The syntax of a text that is made from a tree.
#[derive(Clone, Copy)]
pub enum Syntax {
    /// A page of a manual: roff with the macros of man(7).
    Manual,
    /// Completions for bash.
    Bash,
    /// Completions for zsh.
    Zsh,
    /// Completions for fish.
    Fish,
}

/// The completions for a shell of this name.
pub fn shell_of(name: &str) -> Option<Syntax> {
    match name {
        "bash" => Some(Syntax::Bash),
        "zsh" => Some(Syntax::Zsh),
        "fish" => Some(Syntax::Fish),
        _ => None,
    }
}

/// What stands before an argument's name.
pub fn mark(syntax: Syntax, spelling: Spelling) -> &'static str
    ensures { result.now ≡ mark syntax spelling }
{
    match spelling {
        Spelling::Positional => "",
        Spelling::Short => match syntax {
            Syntax::Manual => "\\-",
            Syntax::Bash | Syntax::Zsh => "-",
            Syntax::Fish => "-s ",
        },
        Spelling::Long => match syntax {
            Syntax::Manual => "\\-\\-",
            Syntax::Bash | Syntax::Zsh => "--",
            Syntax::Fish => "-l ",
        },
    }
}

/// How an octet of a foreign text is written where that isn't by itself. What is written ends no line; in a page it
/// begins no request either, which a dot or an apostrophe at the start of a line would.
pub fn escape(syntax: Syntax, octet: u8) -> Option<&'static str>
    ensures { option_map (λ s. s.now) result ≡ escape syntax octet }
{
    match syntax {
        Syntax::Manual => roff_escape(octet),
        Syntax::Bash => bash_escape(octet),
        Syntax::Zsh => zsh_escape(octet),
        Syntax::Fish => fish_escape(octet),
    }
}

fn roff_escape(octet: u8) -> Option<&'static str>
    ensures { option_map (λ s. s.now) result ≡ roff_escape octet }
{
    match octet {
        b'\n' => Some(" "),
        b'.' => Some("\\&."),
        b'\'' => Some("\\(aq"),
        b'"' => Some("\\(dq"),
        b'-' => Some("\\-"),
        b'\\' => Some("\\e"),
        b'^' => Some("\\(ha"),
        b'`' => Some("\\(ga"),
        b'~' => Some("\\(ti"),
        _ => None,
    }
}

// Between single quotes.
fn bash_escape(octet: u8) -> Option<&'static str>
    ensures { option_map (λ s. s.now) result ≡ bash_escape octet }
{
    match octet {
        b'\n' => Some(" "),
        b'\'' => Some("'\\''"),
        _ => None,
    }
}

// Between single quotes, in what `_arguments` takes apart at brackets and colons.
fn zsh_escape(octet: u8) -> Option<&'static str>
    ensures { option_map (λ s. s.now) result ≡ zsh_escape octet }
{
    match octet {
        b'\n' => Some(" "),
        b'\'' => Some("'\\''"),
        b':' => Some("\\:"),
        b'[' => Some("\\["),
        b'\\' => Some("\\\\"),
        b']' => Some("\\]"),
        _ => None,
    }
}

// Between single quotes.
fn fish_escape(octet: u8) -> Option<&'static str>
    ensures { option_map (λ s. s.now) result ≡ fish_escape octet }
{
    match octet {
        b'\n' => Some(" "),
        b'\'' => Some("\\'"),
        b'\\' => Some("\\\\"),
        _ => None,
    }
}
