// The level limit (docs/FORMAT.md, 2.5): how deep a value may be nested. It belongs to the call.
ghost use Rattle.std.specs.Prelude.{◌≡◌};
ghost use Rattle.standard.specs.Outcomes.{in_force};

pub const LEAST: usize = 1;

pub const MOST: usize = 32;

// The limit where none is named.
pub const DEFAULT: usize = 16;

// May that limit be named.
#[tactic(auto, unfolding(crate::specs::Outcomes::in_force))]
pub fn is_in_force(limit: usize) -> bool
    ensures { result ≡ in_force limit }
{
    (LEAST..=MOST).contains(&limit)
}
