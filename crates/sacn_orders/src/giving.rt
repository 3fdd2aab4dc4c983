//! The commands of an order that sets levels, one after another.
ghost use Rattle.std.specs.Prelude.{◌≡◌, [], ◌∷◌, MatchOption};
ghost use Rattle.sacn_orders.specs.Orders.{commands_of};

use crate::selection::Selection;
use sacn_console::Command;
use std::marker::Model;

/// The commands of an order that are still to be given: each chosen channel, from the lowest to the highest, is set to one level.
///
/// Its value is the list of these commands.
#[derive(Drop)]
pub struct LevelCommands {
    selection: Selection,
    level: u16,
    // The lowest channel that may still be set.
    next: u16,
}

impl Model for LevelCommands {
    ghost use Rattle.std.specs.Prelude.{◌≤◌, ◌+◌, List};
    ghost use Rattle.sacn_patch.specs.declared.limits.TheConstants.{MAX_CHANNELS};
    ghost use Rattle.sacn_console.specs.declared.command.Command.{Command};
    ghost use Rattle.sacn_orders.specs.Orders.{commands_from};

    ghost Value = { List Command };

    ghost view = { λ c. commands_from c.selection c.level c.next };

    ghost invariant = { λ c. (1 ≤ c.next) × (c.next ≤ MAX_CHANNELS + 1) };
}

impl LevelCommands {
    /// All commands of an order that sets these channels to this level.
    pub fn of(selection: Selection, level: u16) -> LevelCommands
        ensures { result ≡ commands_of selection level }
    {
        LevelCommands {
            selection,
            level,
            next: 1,
        }
    }

    /// The next one, or none.
    pub fn next(&mut self) -> Option<Command>
        ensures { MatchOption result ((self.old ≡ []) × (self.new ≡ []))
            (λ command. self.old ≡ command ∷ self.new) }
    {
        match self.selection.next_from(self.next) {
            Some(channel) => {
                self.next = channel.saturating_add(1);
                Some(Command::SetLevel(channel, self.level))
            }
            None => None,
        }
    }
}
