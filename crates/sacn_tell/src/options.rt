//! What is asked for.

ghost use Rattle.std.specs.Prelude.{◌≡◌, ◌==◌};
ghost use Rattle.std.specs.List.{list_any};
ghost use Rattle.sacn_tell.specs.Choice.{is_wanted};

/// How things are told.
#[derive(Clone, Copy)]
pub enum Form {
    /// Aligned lines, for people.
    Text,
    /// An object of JSON on each line, for programs.
    Json,
}

/// What is asked for.
#[derive(Clone, Copy)]
pub struct Options<'a> {
    /// The UDP port of streaming ACN, 5568 by the standard (E1.31, 9.1). Datagrams to other ports are counted alone.
    pub port: u16,
    /// The universes whose lines and rows are told; all where none is named.
    pub universes: &'a [u16],
    pub form: Form,
}

impl<'a> Options<'a> {
    /// Whether this universe is asked for.
    pub fn is_wanted(&self, universe: u16) -> bool
        ensures { result ≡ is_wanted self.now.universes.now universe }
    {
        is_wanted(self.universes, universe)
    }
}

// Whether a universe is among these, or none is named.
fn is_wanted(universes: &[u16], universe: u16) -> bool
    ensures { result ≡ is_wanted universes.now universe }
{
    universes.is_empty() | is_named(universes, universe)
}

// Whether a universe is among these.
fn is_named(universes: &[u16], universe: u16) -> bool
    ensures { result ≡ list_any (λ named. named == universe) universes.now }
{
    universes.iter().any(|named| *named == universe)
}
