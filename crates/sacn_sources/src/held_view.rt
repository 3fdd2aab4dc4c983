//! A source that a table holds, as a caller sees it.

ghost use Rattle.std.specs.Prelude.{◌≡◌, is_none};
ghost use Rattle.std.specs.Option.{option_map, option_copied};
ghost use Rattle.sacn_sources.specs.HeldViews.{priority_shown, levels_shown};

use crate::slots::{Layer, Levels};
use std::marker::Model;

/// A source that a table holds, lent out of the table.
#[derive(Clone, Drop)]
pub struct HeldView<'a> {
    pub(crate) cid: [u8; 16],
    pub(crate) sequence_number: u8,
    pub(crate) shown: Option<Layer<'a>>,
    pub(crate) moment: u64,
}

impl<'a> Model for HeldView<'a> {
    ghost use Rattle.sacn_sources.specs.Rows.{Row, row_code};
    ghost use Rattle.sacn_sources.specs.HeldViews.{held_row};

    ghost Value = { Row };

    ghost coded = { row_code };

    ghost view = { held_row };
}

impl<'a> HeldView<'a> {
    /// The source's CID.
    pub fn cid(&self) -> [u8; 16]
        ensures { result ≡ self.now.source }
    {
        self.cid
    }

    /// The sequence number of the latest packet that was accepted from the source (Held, Observed or EndedNow).
    pub fn number(&self) -> u8
        ensures { result ≡ self.now.sequence_number }
    {
        self.sequence_number
    }

    /// Whether the source has ended its stream, and shows nothing.
    pub fn ended(&self) -> bool
        ensures { result ≡ is_none self.now.shown }
    {
        self.shown.is_none()
    }

    /// The priority of what the source shows, 0 to 200, and 0 where it has ended.
    pub fn priority(&self) -> u8
        ensures { result ≡ priority_shown self.now.shown }
    {
        match self.shown {
            Some(layer) => layer.priority,
            None => 0,
        }
    }

    /// The levels that the source shows, and none where it has ended.
    pub fn levels(&self) -> Option<&'a Levels>
        ensures { option_copied result ≡ option_map levels_shown self.now.shown }
    {
        match self.shown {
            Some(layer) => Some(layer.levels),
            None => None,
        }
    }

    /// The table's moment, in milliseconds, at the latest packet that renewed the source (Held or EndedNow).
    pub fn moment(&self) -> u64
        ensures { result ≡ self.now.moment }
    {
        self.moment
    }
}
