// Links as a host holds them, each at the place of its number.
ghost use Rattle.std.specs.Prelude.{◌≡◌, ℕ, None, slice_index_or};
ghost use Rattle.controller.specs.Links.{number_or};

use super::Link;

mod places;

// A link whose number has no place is let go.
pub struct HeldLinks {
    places: Vec<Option<Link>>,
    ghost numbered: { (n : ℕ) → number_or n (slice_index_or places.items n None) ≡ n },
}
