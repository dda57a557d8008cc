// Laws of soaks.
ghost use Rattle.std.specs.Prelude.{◌≡◌, ℕ, length};
ghost use Rattle.soak_plan.specs.Rounds.{soak_of};
ghost use Rattle.soak_plan.specs.declared.soaking.TheConstants.{SOAK_LINES};

/// The script of each seed has so many lines.
pub fn soaks_have_their_lines()
    ensures { (seed : ℕ) → length (soak_of seed) ≡ SOAK_LINES }
{}
