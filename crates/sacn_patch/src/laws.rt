//! Laws of patches. They cost nothing when they run.
ghost use Rattle.std.specs.Prelude.{◌≡◌};
ghost use Rattle.sacn_patch.specs.declared.limits.TheConstants.{MAX_CHANNELS};

/// What the number of a patch is: its channels.
pub fn numbers()
    ensures channels { MAX_CHANNELS ≡ 2048 }
{}
