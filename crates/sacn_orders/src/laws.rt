//! Laws of orders over their definitions alone. They cost nothing when they run.
ghost use Rattle.std.specs.Prelude.{◌≡◌, ◌*◌, ◌/◌, ℕ, List, map};
ghost use Rattle.sacn_orders.specs.Orders.{AreInTurn, chosen, commands_of, level_of};
ghost use Rattle.sacn_console.specs.declared.command.Command.TheVariants.{SetLevel};
ghost use Rattle.sacn_orders.specs.declared.part.Part.{Part};
ghost use Rattle.sacn_orders.specs.declared.limits.TheConstants.{FULL_HUNDREDTHS, MAX_PARTS};

/// What `next_from` gives from channel 1 on, each later call from behind the channel before, until none comes: exactly the
/// chosen channels, from the lowest to the highest. With the level they are the order's commands.
pub fn channels_in_turn()
    ensures all { (parts : List Part) → AreInTurn parts 1 (chosen parts) }
    ensures only { (parts : List Part) (channels : List ℕ) → AreInTurn parts 1 channels → channels ≡ chosen parts }
    ensures commands { (parts : List Part) (level : ℕ) (channels : List ℕ) → AreInTurn parts 1 channels
        → map (λ channel. SetLevel channel level) channels ≡ commands_of parts level }
{}

/// A whole percent is `p * 65535` hundredth parts, rounded down.
pub fn whole_percents()
    ensures { (p : ℕ) → level_of (p * 100) ≡ p * 65535 / 100 }
{}

/// What the numbers of orders are.
pub fn numbers()
    ensures parts { MAX_PARTS ≡ 64 }
    ensures hundredths { FULL_HUNDREDTHS ≡ 10000 }
{}
