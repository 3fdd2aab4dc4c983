//! The names under which a server is asked.

ghost use Rattle.std.specs.Prelude.{◌≡◌, ◌++◌, IfOk, OnOk, string_bytes};
ghost use Rattle.std.specs.List.{list_any};
ghost use Rattle.std.specs.Net.Socket.{v4_ip, v4_port};
ghost use Rattle.sacn_page.specs.HostNames.{names_of, host_names};
ghost use Rattle.sacn_page.specs.Requests.{is_word, is_among};

use std::alloc::{AllocError, Global};
use std::marker::Model;
use std::net::{Ipv4Addr, SocketAddrV4};

/// The port that a Host field leaves out (RFC 9110, 4.2.1).
const DEFAULT_PORT: u16 = 80;

/// What a Host field may say at a server. A page from elsewhere that a browser was led to by another name has that name there.
#[derive(Drop)]
pub struct Hosts {
    names: Vec<String>,
}

impl Model for Hosts {
    ghost use Rattle.std.specs.Prelude.{List, ℕ, map, string_bytes};

    ghost Value = { List (List ℕ) };

    ghost view = { λ h. map string_bytes h.names.items };
}

impl Hosts {
    /// The names of the server at this address: the address, `127.0.0.1` and `localhost`, each with its port, and at port 80
    /// each without it too.
    ///
    /// Errors: a growth was refused.
    pub fn of(alloc: Global, address: SocketAddrV4) -> Result<Self, AllocError>
        ensures { IfOk result (λ h. h ≡ host_names (v4_ip address) (v4_port address)) }
    {
        let mut hosts = Hosts {
            names: Vec::new(alloc),
        };
        let [a, b, c, d] = address.ip().octets();
        let own = format!(in alloc; "{a}.{b}.{c}.{d}")?;
        hosts.add(alloc, own.as_str(), address.port())?;
        hosts.add(alloc, "127.0.0.1", address.port())?;
        hosts.add(alloc, "localhost", address.port())?;
        Ok(hosts)
    }

    // Adds a host with its port, and at port 80 without it too.
    #[tactic(auto, unfolding(crate::specs::HostNames::names_of))]
    fn add(&mut self, alloc: Global, name: &str, port: u16) -> Result<(), AllocError>
        ensures { OnOk result (self.new ≡ self.old ++ names_of name.now port) }
    {
        self.names.push(format!(in alloc; "{name}:{port}")?)?;
        if port == DEFAULT_PORT {
            self.names.push(format!(in alloc; "{name}")?)?;
        }
        Ok(())
    }

    /// Whether it is one of these, in letters of either case.
    pub fn has(&self, name: &[u8]) -> bool
        ensures { result ≡ is_among self.now name.now }
    {
        is_among(self.names.as_slice(), name)
    }
}

// Whether a text is one of these names.
fn is_among(names: &[String], name: &[u8]) -> bool
    ensures { result ≡ list_any (λ own. is_word (string_bytes own) name.now) names.now }
{
    names.iter().any(|own| is_word(own.as_bytes(), name))
}

/// Whether a text is this word, in letters of either case.
pub fn is_word(word: &[u8], text: &[u8]) -> bool
    ensures { result ≡ is_word word.now text.now }
{
    word.eq_ignore_ascii_case(text)
}
