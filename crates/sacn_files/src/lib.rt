//! What the files and texts of consoles, nodes and worlds share.
//!
//! A file is a TOML document that is read by phases: the document, its version, the keys that it may
//! have, those that it must have, the values, and then the faults of its own. Each function here is
//! one word of that reading, and its contract is the word's definition: `document` and `version` for
//! the first two phases, `keys` for the next two, `values` and `rows` for the fifth, `numbers` for
//! lists that go by a number. Scripts and schedules are read line by line: `lines` and `words`.
#![tactic(auto)]

pub mod document;
pub mod faults;
pub mod keys;
pub mod laws;
pub mod limits;
pub mod lines;
pub mod numbers;
pub mod rows;
pub mod values;
pub mod words;
